//! What opens paths.

ghost use Rattle.std.specs.Prelude.{◌≡◌, List, ℕ, Option, IfOk};
ghost use Rattle.devices.specs.Openers.{OpenerView};
ghost use Rattle.devices.specs.code.PathOpens.{OpensSource, HasBack, NamesAsBefore, OpensOnce};

use crate::{OpenFailed, Source};

/// What opens paths as sources.
///
/// Contracts see how often the opener was asked to open a path, how often it could not, why it could not the last time, and how many
/// failures the sources had that were given back to it, all together. If its sources are transparent ([`Source`]), contracts also know which bytes a path names, and which paths can't be opened.
/// This doesn't change while it opens paths and takes sources back.
pub trait Opener {
    /// The type of source that a path is opened as.
    type Source: Source + Drop;

    // The bytes that a path names, if it can be opened, where the sources are transparent.
    ghost named: { Self → List ℕ → Option (List ℕ) };

    // The opener as contracts see it.
    ghost view: { Self → OpenerView };

    /// Opens the path as a source from which nothing has been read yet.
    ///
    /// # Errors
    ///
    /// The path can't be opened: `NotFound` if contracts know that it names nothing. The opener counts that it was asked, and that it could
    /// not open the path, with the reason.
    fn open(&mut self, path: &str) -> Result<Self::Source, OpenFailed>
        ensures once { OpensOnce (view self.old) (view self.new) result }
        ensures failures { IfOk result (λ source. (Self.Source.view source).failures ≡ 0) }
        ensures handed { IfOk result (λ source. (Self.Source.view source).handed ≡ 0) }
        ensures path { OpensSource Self.Source.is_transparent Self.Source.view
            (named self.old path.now) result }
        ensures names { NamesAsBefore (named self.old) (named self.new) };

    /// Takes back a source that it opened, adds the source's failures to its own, up to 2^128 - 1, and drops the source.
    fn close(&mut self, source: Self::Source)
        ensures back { HasBack (view self.old) (view self.new) (Self.Source.view source).failures }
        ensures names { NamesAsBefore (named self.old) (named self.new) };
}
