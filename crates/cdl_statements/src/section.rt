//! The sections of a text.

ghost use Rattle.std.specs.Prelude.{◌≡◌};

/// The section of a text that a statement stands in. The sections are listed in the order of a text.
#[derive(Clone, Copy, Debug, PartialEq, Eq)]
pub enum Section {
    /// Before the opening.
    Unopened,
    /// Before the first section mark: attributes of the dataset alone.
    Globals,
    Dimensions,
    Variables,
    /// The section `data:`.
    Values,
    /// After the closing brace.
    Closed,
    /// After the end of the text.
    Ended,
}

impl Section {
    ghost use Rattle.cdl_statements.specs.Shapes.{section_number};

    /// Returns the section's number in the order of a text: 0 for `Unopened`, up to 6 for `Ended`. A later section has a greater number.
    pub fn number(self) -> u8
        ensures { result ≡ section_number self }
    {
        match self {
            Section::Unopened => 0,
            Section::Globals => 1,
            Section::Dimensions => 2,
            Section::Variables => 3,
            Section::Values => 4,
            Section::Closed => 5,
            Section::Ended => 6,
        }
    }
}
