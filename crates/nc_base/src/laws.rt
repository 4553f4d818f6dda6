//! Laws of the definitions in `specs/`, each the contract of a function that does nothing.

ghost use Rattle.nc_base.specs.Grammar.{header_part};
ghost use Rattle.nc_base.specs.HeaderLaws.{IsCoherent, SpelledHeadersAreSound};
ghost use Rattle.nc_base.specs.NumberLaws.{NumbersReadBack, BytesReadBack, NumbersAreInRange};

/// States three laws, and does nothing. `numbers`: if a number is in the range of a type, its big-endian bytes are read as this number.
///
/// `in_range` and `bytes`: if there are as many bytes as the size of a type, they are read as a number in the range of the type, and the
/// bytes of this number are the same bytes.
pub fn numbers_read_back()
    ensures numbers { NumbersReadBack }
    ensures bytes { BytesReadBack }
    ensures in_range { NumbersAreInRange }
{}

/// States two laws of the description of a header, which lists its fields in their order, and does nothing. `coherent`: what bytes spell,
/// where the first wrong field lies, what reading gives, and how a header is written all follow from this description, and they agree.
/// `sound`: a header that bytes spell is sound (`nc_base::Header::sound`), and its names are valid.
pub fn header_is_coherent()
    ensures coherent { IsCoherent header_part }
    ensures sound { SpelledHeadersAreSound }
{}
