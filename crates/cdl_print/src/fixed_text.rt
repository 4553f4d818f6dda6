//! The fixed texts of a head.

ghost use Rattle.std.specs.Prelude.{◌≡◌};
ghost use Rattle.cdl_print.specs.code.Words.{word_text};

/// A fixed text of a head, with its spaces and line feeds.
#[derive(Clone, Copy)]
pub enum FixedText {
    /// The heading of the dimensions.
    Dimensions,
    /// What stands before the number of records.
    Unlimited,
    /// What stands after the number of records.
    Currently,
    /// The heading of the variables.
    Variables,
    /// The heading of the global attributes.
    GlobalAttributes,
}

impl FixedText {
    /// Returns the bytes of this text, with its spaces and line feeds.
    #[tactic(auto, unfolding(nc_base::specs::HeadText::dimensions_word, nc_base::specs::HeadText::unlimited_word, nc_base::specs::HeadText::currently_word, nc_base::specs::HeadText::variables_word, nc_base::specs::HeadText::global_word))]
    pub fn bytes(self) -> &'static [u8]
        ensures { result.now ≡ word_text self }
    {
        match self {
            FixedText::Dimensions => b"dimensions:\n",
            FixedText::Unlimited => b"UNLIMITED ; // (",
            FixedText::Currently => b" currently)\n",
            FixedText::Variables => b"variables:\n",
            FixedText::GlobalAttributes => b"\n// global attributes:\n",
        }
    }
}
