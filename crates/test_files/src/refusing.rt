//! Paths that can't be opened.

ghost use Rattle.std.specs.Prelude.{None, false};
ghost use Rattle.devices.specs.code.OpenCounts.{view_of};
ghost use Rattle.devices.specs.code.PathOpens.{HasBack};

use crate::cut_source::CutSource;
use devices::{CountedRead, OpenCounts, OpenFailed, Opener, TextOpener};
use std::fs::File;

/// What can open no path, for a reason of its own: so are files that may not be read.
#[derive(Drop)]
pub struct Refusing {
    why: OpenFailed,
    counts: OpenCounts,
}

impl Refusing {
    /// What can open no path for this reason.
    pub fn new(why: OpenFailed) -> Refusing {
        Refusing {
            why,
            counts: OpenCounts::new(),
        }
    }

    /// How often it was asked to open a path.
    pub fn opens(&self) -> u128 {
        self.counts.opens()
    }
}

impl Opener for Refusing {
    type Source = CutSource<'static>;

    ghost named = { λ _ _. None };

    ghost view = { λ refusing. view_of refusing.counts };

    fn open(&mut self, _path: &str) -> Result<CutSource<'static>, OpenFailed> {
        let opened = Err(self.why);
        self.counts.add_open(&opened);
        opened
    }

    fn close(&mut self, source: CutSource<'static>) {
        self.counts.add_failures(source.failures);
    }
}

impl TextOpener for Refusing {
    type Text = File;

    ghost is_transparent = { false };

    ghost named = { λ _ _. None };

    ghost view = { λ refusing. view_of refusing.counts };

    fn open_text(&mut self, _path: &str) -> Result<CountedRead<File>, OpenFailed> {
        let opened = Err(self.why);
        self.counts.add_open(&opened);
        opened
    }

    fn close_text(&mut self, text: CountedRead<File>)
        ensures { HasBack (view_of self.old.counts) (view_of self.new.counts) text.failures }
    {
        self.counts.add_failures(text.failures());
    }
}
