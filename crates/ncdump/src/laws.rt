//! Laws of the dump of a file, each the contract of a function that does nothing.

ghost use Rattle.ncdump.specs.OneDump.{BytesHaveOneDump, DumpsAgree};

/// States a law, and does nothing: a file of any bytes has exactly one dump under given options: one text, and one ending, which is success
/// or a fault.
///
/// The definition of a dump is a relation between bytes, options, text and ending. It says what the text is, not how it is made.
#[tactic(auto, using(crate::proofs::OneDump::one_dump))]
pub fn one_dump()
    ensures { BytesHaveOneDump }
{}

/// States a law, and does nothing: if two calls of [`dump`](crate::dump) have the same bytes and options, and no device or allocation fails
/// in them, then they write the same text and return the same result. The length of the buffer and the sizes of reads and writes make no
/// difference.
#[tactic(auto, using(crate::proofs::OneDump::dumps_agree))]
pub fn dumps_agree()
    ensures { DumpsAgree }
{}
