//! The names that are known while the fields of a header are passed.

ghost use Rattle.std.specs.Prelude.{◌≡◌};
ghost use Rattle.check_lines.specs.Paths.{bytes_in, no_names, renamed, with_field};
ghost use Rattle.check_lines.specs.code.Names.{bytes_of, known};

use nc_findings::{Content, Entry, FieldKind, Owner};

/// The names of what a field belongs to, which paths show. A name is known once its bytes were passed in the listing.
#[derive(Clone, Copy)]
pub(crate) struct Names<'a> {
    /// The name of the dimension, the global attribute or the variable.
    pub element: Option<&'a [u8]>,
    /// The name of the attribute, if it is one of a variable, whose name is `element` then.
    pub att: Option<&'a [u8]>,
}

/// Returns what is known before the first field: no name.
pub(crate) fn no_names<'a>() -> Names<'a>
    ensures { known result ≡ no_names }
{
    Names {
        element: None,
        att: None,
    }
}

/// Returns the names that are known after the field `entry`, if `names` are known before it. After the length of a name, that name is
/// unknown; after its bytes, it is known. No other field changes anything.
#[tactic(auto, unfolding(crate::specs::Paths::with_field))]
pub(crate) fn with_field<'a>(names: Names<'a>, entry: &'a Entry) -> Names<'a>
    ensures { known result ≡ with_field (known names.entry) entry.entry.now }
{
    match entry.place.field {
        FieldKind::NameLength => renamed(entry.place.owner, None, names),
        FieldKind::Name => renamed(entry.place.owner, bytes_in(&entry.content), names),
        _ => names,
    }
}

/// Returns the bytes of a field, or `None` if its content isn't bytes.
fn bytes_in<'a>(content: &'a Content) -> Option<&'a [u8]>
    ensures { bytes_of result ≡ bytes_in content.entry.now }
{
    match content {
        Content::Bytes(bytes) => Some(bytes.as_slice()),
        _ => None,
    }
}

/// Returns `names` with `name` as the name of `owner`, a dimension, an attribute or a variable. With `None`, that name isn't known. For the
/// header itself, returns `names` as they are.
fn renamed<'a>(owner: Owner, name: Option<&'a [u8]>, names: Names<'a>) -> Names<'a>
    ensures { known result ≡ renamed owner (bytes_of name.entry) (known names.entry) }
{
    match owner {
        Owner::Header => names,
        Owner::Dim(_) | Owner::GlobalAtt(_) | Owner::Var(_) => Names {
            element: name,
            att: names.att,
        },
        Owner::VarAtt { .. } => Names {
            element: names.element,
            att: name,
        },
    }
}
