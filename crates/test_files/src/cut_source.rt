//! A source that ends before the length that it reports, as a file does that is cut while it is read.

ghost use Rattle.std.specs.Prelude.{false, replicate};

use devices::{Source, SourceFailed};

/// A source of these bytes, which are said to be `len`.
#[derive(Drop)]
pub struct CutSource<'a> {
    bytes: &'a [u8],
    len: u64,
    handed: u128,
    pub(crate) failures: u128,
}

/// The first `len` bytes of the file. The source promises as many as the whole file has.
pub fn cut(file: &[u8], len: usize) -> CutSource<'_> {
    CutSource {
        bytes: &file[..len.min(file.len())],
        len: file.len() as u64,
        handed: 0,
        failures: 0,
    }
}

impl Source for CutSource<'_> {
    ghost is_transparent = { false };

    ghost view = { λ s. record { bytes = replicate s.len 0; failures = s.failures; handed = s.handed } };

    fn len(&self) -> u64 {
        self.len
    }

    #[tactic(auto, unfolding(devices::specs::Failures::HasFailed))]
    fn read_at(&mut self, at: u64, into: &mut [u8]) -> Result<usize, SourceFailed> {
        if u128::MAX - self.handed < into.len() as u128 {
            self.failures = self.failures.saturating_add(1);
            return Err(SourceFailed);
        }
        let rest = &self.bytes[(at as usize).min(self.bytes.len())..];
        let n = rest.len().min(into.len());
        into[..n].copy_from_slice(&rest[..n]);
        self.handed += n as u128;
        Ok(n)
    }
}
