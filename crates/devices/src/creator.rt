//! What creates outputs.

ghost use Rattle.std.specs.Prelude.{Bool};
ghost use Rattle.devices.specs.Creators.{CreatorView};
ghost use Rattle.devices.specs.code.Creations.{Closed, Created};

use crate::{CloseFailed, CreateFailed, Sink};

/// What creates outputs, or empties them.
///
/// A created output is a sink, which is to be closed. Contracts see how many outputs were created, and the number of failures: of `create`,
/// of `close`, and of the outputs that were closed. If the creator is transparent, they also see which bytes each path was given.
pub trait Creator {
    /// The sink of a created output. It can't be dropped, and is to be given to [`close`](Creator::close).
    type Output: Sink;

    // The creator is transparent.
    ghost is_transparent: { Bool };

    // The creator as contracts see it.
    ghost view: { Self → CreatorView };

    /// Creates an empty output at the path, or empties what is there, and returns its sink.
    ///
    /// # Errors
    ///
    /// The output can't be created. Nothing was touched, and the creator counts one failure.
    fn create(&mut self, path: &str) -> Result<Self::Output, CreateFailed>
        ensures { Created is_transparent Self.Output.view (view self.old) (view self.new) path.now result };

    /// Closes the output that was created at the path: hands on what was written to it, so that the path has exactly these bytes. Then adds
    /// the output's failures to the creator's, up to 2^128 - 1.
    ///
    /// # Errors
    ///
    /// Not all of these bytes could be handed on. The creator counts one failure, and not those of the output.
    fn close(&mut self, path: &str, output: Self::Output) -> Result<(), CloseFailed>
        ensures { let sink = Self.Output.view output in
            Closed is_transparent (view self.old) (view self.new) path.now sink result };
}
