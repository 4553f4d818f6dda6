//! What openers count.

ghost use Rattle.std.specs.Prelude.{◌≡◌};
ghost use Rattle.devices.specs.code.PathOpens.{HasBack, OpensOnce, unopened};
ghost use Rattle.devices.specs.code.OpenCounts.{view_of};

use crate::OpenFailed;

/// What an opener counts: the paths that it was asked to open, those that it could not open, and the failures of what it got back.
#[derive(Clone, Copy, Debug)]
pub struct OpenCounts {
    /// How often it was asked to open a path, at most `u128::MAX`.
    opens: u128,
    /// How many of these paths could not be opened, at most `u128::MAX`.
    refusals: u128,
    /// Why the last of them could not be opened.
    last_refusal: Option<OpenFailed>,
    /// How many failures the sources and texts had that were given back, at most `u128::MAX`.
    failures: u128,
}

impl OpenCounts {
    /// Returns the counts of an opener that was not asked to open a path yet.
    pub const fn new() -> OpenCounts
        ensures { view_of result ≡ unopened }
    {
        OpenCounts {
            opens: 0,
            refusals: 0,
            last_refusal: None,
            failures: 0,
        }
    }

    /// Returns how often the opener was asked to open a path, at most `u128::MAX`.
    pub fn opens(&self) -> u128
        ensures { result ≡ (view_of self.now).opens }
    {
        self.opens
    }

    /// Counts that the opener was asked to open a path, with this result.
    pub fn add_open<D>(&mut self, opened: &Result<D, OpenFailed>)
        ensures { OpensOnce (view_of self.old) (view_of self.new) opened.now }
    {
        self.opens = self.opens.saturating_add(1);
        if let Err(why) = opened {
            self.refusals = self.refusals.saturating_add(1);
            self.last_refusal = Some(*why);
        }
    }

    /// Adds the failures of a source or a text that was given back, up to `u128::MAX`.
    pub fn add_failures(&mut self, failures: u128)
        ensures { HasBack (view_of self.old) (view_of self.new) failures }
    {
        self.failures = self.failures.saturating_add(failures);
    }
}
