//! What opens paths as texts.

ghost use Rattle.std.specs.Prelude.{◌≡◌, Bool, List, ℕ, Option, IfOk};
ghost use Rattle.devices.specs.Openers.{OpenerView};
ghost use Rattle.devices.specs.code.PathOpens.{HasBack, OpensOnce, OpensText};
ghost use Rattle.devices.specs.Readers.{view_of};

use crate::{CountedRead, OpenFailed};
use std::io::Read;

/// What opens paths as texts, which are read from their beginning to their end.
///
/// Contracts see how often the opener was asked to open a path, how often it could not, why it could not the last time, and how many
/// failures the texts had that were given back to it, all together. If the opener is transparent, contracts also know which bytes a path names, and which paths can't be opened.
pub trait TextOpener {
    /// The type of reader that a path is opened as.
    type Text: Read + Drop;

    // Its texts are transparent.
    ghost is_transparent: { Bool };

    // The bytes that a path names, if it can be opened, where they are transparent.
    ghost named: { Self → List ℕ → Option (List ℕ) };

    // The opener as contracts see it.
    ghost view: { Self → OpenerView };

    /// Opens the path as a text, and returns a reader of it, at its beginning and without a failure.
    ///
    /// # Errors
    ///
    /// The path can't be opened: `NotFound` if contracts know that it names nothing. The opener counts that it was asked, and that it could
    /// not open the path, with the reason.
    fn open_text(&mut self, path: &str) -> Result<CountedRead<Self::Text>, OpenFailed>
        ensures once { OpensOnce (view self.old) (view self.new) result }
        ensures failures { IfOk result (λ text. (view_of Self.Text.remaining text).failures ≡ 0) }
        ensures bytes { OpensText is_transparent Self.Text.remaining (named self.old path.now) result };

    /// Takes back a text that it opened, adds the text's failures to its own, up to 2^128 - 1, and drops the text.
    fn close_text(&mut self, text: CountedRead<Self::Text>)
        ensures { HasBack (view self.old) (view self.new) (view_of Self.Text.remaining text).failures };
}
