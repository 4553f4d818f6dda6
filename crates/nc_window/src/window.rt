//! A window on a source: bytes and numbers, one after the other, through a caller's buffer.

ghost use Rattle.std.specs.Prelude.{◌≡◌, ◌+◌, ◌<◌, ◌≤◌, true, length, take, drop, IfOk, OnOk};
ghost use Rattle.std.specs.Int.{w32, w64};
ghost use Rattle.nc_base.specs.Grammar.{count_part, ignored, number};
ghost use Rattle.nc_base.specs.Parts.{bytes};
ghost use Rattle.nc_types.specs.Versions.{count_width};
ghost use Rattle.nc_base.specs.declared.fault.FormatFault.TheVariants.{HeaderTruncated};
ghost use Rattle.devices.specs.code.SourceReads.{AreFrom};

use crate::head_fault::HeadFault;
use byteorder::{BigEndian, ByteOrder};
use devices::Source;
use nc_base::{FormatFault, Sequence, Version};
use std::alloc::Global;

/// A window on a source: a caller's buffer that holds `filled` bytes of the source, from the offset `base` on. The first `pos` of them have
/// been used, which means read or passed over. The source has `len` bytes. The functions here read on from the source only when all
/// `filled` bytes have been used.
///
/// Unless its own comment says otherwise, a function that reads through the window errs with `HeaderTruncated` if the source ends too
/// early, with `ReadFailed` if the source fails, and with `OutOfMemory` if an allocation fails. Its other errors are those that its own
/// comment names, and those of the functions that it calls. After an error nothing more is read through the window.
///
/// A new window holds nothing.
#[derive(Drop)]
pub struct Window<'a, S: Source> {
    /// The source.
    source: &'a mut S,
    /// How many bytes the source has.
    len: u64,
    /// The buffer.
    buf: &'a mut [u8],
    /// The offset of the first byte in the buffer.
    base: u64,
    /// How many bytes of the source the buffer holds.
    filled: usize,
    /// How many of them have been used.
    pos: usize,
    ghost knows_len: { len ≡ length (S.view source.now).bytes },
    ghost used: { pos ≤ filled },
    ghost fits: { filled ≤ length buf.now },
    ghost buffer_len: { 0 < length buf.now },
    ghost within: { base + filled ≤ length (S.view source.now).bytes },
    ghost holds: { S.is_transparent ≡ true → AreFrom base filled (S.view source.now).bytes buf.now },
}

impl<'a, S: Source> Window<'a, S> {
    ghost use Rattle.nc_window.specs.code.Window.{IsNew};

    /// Returns a window on a source that holds nothing yet, in a buffer that may hold anything. Needs a buffer that isn't empty.
    pub fn new(source: &'a mut S, buf: &'a mut [u8]) -> Window<'a, S>
        requires { 0 < length buf.old }
        ensures same_source { result.source.ghost_name ≡ source.entry.ghost_name }
        ensures starts { IsNew source.old (length buf.old) result }
    {
        let len = source.len();
        Window {
            source,
            len,
            buf,
            base: 0,
            filled: 0,
            pos: 0,
        }
    }
}

impl<S: Source> Window<'_, S> {
    ghost use Rattle.nc_window.specs.code.Window.{FailsOnly, Filled, Holds, IsAdvanced, Kept, Read, Ready, Refilled, TookByte, TookSome, TookUpTo, left, next_of};

    /// Reads on in the source, once: the bytes that come take the place of those in the window. Returns true if at least one came,
    /// otherwise false: a transparent source ([`Source`]) has no more then. If the source fails, it errs with `ReadFailed`, and the window
    /// holds no bytes. Needs a window whose bytes have all been used.
    fn refill(&mut self) -> Result<bool, HeadFault>
        requires empty { self.old.pos ≡ self.old.filled }
        ensures kept { Kept self.old self.new }
        ensures cause { FailsOnly self.old self.new result }
        ensures bytes { Refilled self.old self.new result }
    {
        let len = self.len;
        let at = self.base + self.filled as u64;
        if len <= at {
            return Ok(false);
        }
        let wanted = (len - at).min(self.buf.len() as u64) as usize;
        self.base = at;
        self.filled = 0;
        self.pos = 0;
        let n = self.source.read_at(at, &mut self.buf[..wanted])?;
        self.filled = n;
        Ok(0 < n)
    }

    /// Returns the offset in the source of the next byte that hasn't been used.
    pub fn offset_of_next(&self) -> u64
        ensures { result ≡ next_of self.now }
    {
        let used = self.pos as u64;
        prove!(self.base <= self.len && used <= self.len - self.base);
        self.base + used
    }

    /// Returns how many bytes of the source haven't been used.
    pub fn left_len(&self) -> u64
        ensures { result ≡ length (left self.now) }
    {
        self.len - self.offset_of_next()
    }

    /// Makes sure that the window holds a byte that hasn't been used. Reads from the source only if all bytes that it holds have been used.
    /// Errs with `HeaderTruncated` if the source has no byte left, and with `ReadFailed` if the source fails.
    pub fn ensure_byte(&mut self) -> Result<(), HeadFault>
        ensures kept { Kept self.old self.new }
        ensures cause { FailsOnly self.old self.new result }
        ensures filled { Filled self.old self.new result }
    {
        if self.pos == self.filled && !self.refill()? {
            return Err(HeadFault::Format(FormatFault::HeaderTruncated));
        }
        Ok(())
    }

    /// Reads one byte, and returns it. Errs with `HeaderTruncated` if no byte is left, and with `ReadFailed` if the source fails.
    fn byte(&mut self) -> Result<u8, HeadFault>
        ensures kept { Kept self.old self.new }
        ensures cause { FailsOnly self.old self.new result }
        ensures byte { TookByte self.old self.new result }
    {
        self.ensure_byte()?;
        let b = self.buf[self.pos];
        self.pos += 1;
        Ok(b)
    }

    /// Reads `N` bytes, and returns them: by one copy if the window holds them all, otherwise byte by byte. Errs with
    /// `HeaderTruncated` if fewer are left, and with `ReadFailed` if the source fails.
    pub fn array<const N: usize>(&mut self) -> Result<[u8; N], HeadFault>
        ensures { Read self.old self.new (bytes N HeaderTruncated) result }
    {
        if self.filled - self.pos < N {
            return self.array_by_bytes();
        }
        let bytes = self.peek_array();
        self.pos += N;
        Ok(bytes)
    }

    /// Returns the next `N` bytes, and leaves them unused. Needs a window that holds all of them.
    fn peek_array<const N: usize>(&self) -> [u8; N]
        requires { self.now.pos + N ≤ self.now.filled }
        ensures { result ≡ take N (drop self.now.pos self.now.buf.now) }
    {
        let mut bytes = [0; N];
        bytes.copy_from_slice(&self.buf[self.pos..self.pos + N]);
        bytes
    }

    /// Reads `N` bytes, one after the other, and returns them. [`array`](Window::array) calls it if the window doesn't hold them all. Errs
    /// with `HeaderTruncated` if fewer are left, and with `ReadFailed` if the source fails.
    fn array_by_bytes<const N: usize>(&mut self) -> Result<[u8; N], HeadFault>
        ensures { Read self.old self.new (bytes N HeaderTruncated) result }
    {
        let mut array = [0; N];
        for i in 0..N {
            array[i] = self.byte()?;
        }
        Ok(array)
    }

    /// Reads a big-endian number of four bytes, and returns it. Errs with `HeaderTruncated` if fewer are left, and with `ReadFailed` if the
    /// source fails.
    #[tactic(auto, using(crate::proofs::PartRuns::part_runs), unfolding(nc_base::specs::Grammar::number, nc_base::specs::code::PartRuns::printed_len))]
    pub fn read_u32(&mut self) -> Result<u32, HeadFault>
        ensures { Read self.old self.new (number w32) result }
    {
        let bytes: [u8; 4] = self.array()?;
        Ok(BigEndian::read_u32(&bytes))
    }

    /// Reads a big-endian number of eight bytes, and returns it. Errs with `HeaderTruncated` if fewer are left, and with `ReadFailed` if
    /// the source fails.
    #[tactic(auto, using(crate::proofs::PartRuns::part_runs), unfolding(nc_base::specs::Grammar::number, nc_base::specs::code::PartRuns::printed_len))]
    pub fn read_u64(&mut self) -> Result<u64, HeadFault>
        ensures { Read self.old self.new (number w64) result }
    {
        let bytes: [u8; 8] = self.array()?;
        Ok(BigEndian::read_u64(&bytes))
    }

    /// Reads a big-endian number of the width that counts have in the version, eight bytes in CDF-5 and otherwise four, and returns it,
    /// whatever it is. Errs with `HeaderTruncated` if fewer bytes are left, and with `ReadFailed` if the source fails.
    pub fn number(&mut self, version: Version) -> Result<u64, HeadFault>
        ensures { Read self.old self.new (number (count_width version)) result }
    {
        match version {
            Version::Cdf1 | Version::Cdf2 => self.read_u32_as_u64(),
            Version::Cdf5 => self.read_u64(),
        }
    }

    /// Reads a big-endian number of four bytes, and returns it as a `u64`, for a field that has eight bytes in other versions. Errs with
    /// `HeaderTruncated` if fewer are left, and with `ReadFailed` if the source fails.
    pub fn read_u32_as_u64(&mut self) -> Result<u64, HeadFault>
        ensures { Read self.old self.new (number w32) result }
    {
        Ok(self.read_u32()? as u64)
    }

    /// Reads a count or a length (`NON_NEG`), a big-endian number of eight bytes in CDF-5 and otherwise four, and returns it. Errs with
    /// `BadCount` if its top bit is 1, with `HeaderTruncated` if fewer bytes are left, and with `ReadFailed` if the source fails.
    #[tactic(auto, using(crate::proofs::PartRuns::part_runs), unfolding(nc_base::specs::Grammar::limited_part, nc_base::specs::code::PartRuns::printed_len))]
    pub fn count(&mut self, version: Version) -> Result<u64, HeadFault>
        ensures { Read self.old self.new (count_part version) result }
    {
        let n = self.number(version)?;
        if version.count_limit() <= n {
            return Err(HeadFault::Format(FormatFault::BadCount));
        }
        Ok(n)
    }

    /// Returns the unused bytes that the window holds, or the first `most` if there are more, without a read of the source. Leaves them
    /// unused. Needs a window with at least one unused byte, and a `most` above 0.
    pub fn ready(&self, most: u128) -> &[u8]
        requires some { Holds 1 self.now }
        requires most { 0 < most }
        ensures { Ready self.now most result.now }
    {
        let ready = self.filled - self.pos;
        let k = (ready as u128).min(most) as usize;
        &self.buf[self.pos..self.pos + k]
    }

    /// Counts the next `n` bytes as used. Needs a window that holds them.
    pub fn pass(&mut self, n: usize)
        requires { Holds n self.old }
        ensures { IsAdvanced self.old self.new n }
    {
        self.pos += n;
    }

    /// Reads the next bytes that the window holds, at least one and at most `most`, appends them to `out`, and returns how many. If it
    /// holds no unused byte, it first reads from the source, once. Needs a `most` above 0. Errs with `HeaderTruncated` if no byte is left,
    /// with `ReadFailed` if the source fails, and with `OutOfMemory` if an allocation fails.
    fn read_some(&mut self, out: &mut Sequence<u8>, most: u128) -> Result<usize, HeadFault>
        requires most { 0 < most }
        ensures kept { Kept self.old self.new }
        ensures cause { FailsOnly self.old self.new result }
        ensures count { IfOk result (λ k. (0 < k) × (k ≤ most)) }
        ensures bytes { TookSome self.old self.new out.old out.new result }
    {
        self.ensure_byte()?;
        let piece = self.ready(most);
        let k = piece.len();
        out.extend_from_slice(piece)?;
        self.pos += k;
        Ok(k)
    }

    /// Reads `n` bytes, and returns them. Errs with `HeaderTruncated` if fewer are left, with `ReadFailed` if the source fails,
    /// and with `OutOfMemory` if an allocation fails.
    pub fn bytes(&mut self, alloc: Global, n: u128) -> Result<Sequence<u8>, HeadFault>
        ensures read { Read self.old self.new (bytes n HeaderTruncated) result }
        ensures whole { IfOk result (λ content. length content ≡ n) }
    {
        let mut content = Sequence::new(alloc);
        let mut missing = n;
        while missing > 0 {
            missing -= self.read_some(&mut content, missing)? as u128;
        }
        Ok(content)
    }

    /// Reads the next `n` bytes, or all that are left if they are fewer, and appends them to `out`. Of a source that isn't transparent
    /// ([`Source`]), fewer may come. Errs with `ReadFailed` if the source fails, and with `OutOfMemory` if an allocation fails.
    pub fn read_up_to(&mut self, out: &mut Sequence<u8>, n: u64) -> Result<(), HeadFault>
        ensures kept { Kept self.old self.new }
        ensures cause { FailsOnly self.old self.new result }
        ensures bytes { OnOk result (TookUpTo self.old self.new n out.old out.new) }
    {
        for _ in 0..n {
            match self.byte() {
                Ok(b) => out.push(b)?,
                Err(HeadFault::Format(_)) => return Ok(()),
                Err(e) => return Err(e),
            }
        }
        Ok(())
    }

    /// Passes over `n` bytes, whatever they are. Errs with `HeaderTruncated` if fewer are left, and with `ReadFailed` if the source fails.
    pub fn skip(&mut self, n: u64) -> Result<(), HeadFault>
        ensures { Read self.old self.new (ignored n) result }
    {
        if ((self.filled - self.pos) as u64) < n {
            return self.skip_by_bytes(n);
        }
        self.pos += n as usize;
        Ok(())
    }

    /// Passes over `n` bytes, one after the other. [`skip`](Window::skip) calls it if the window doesn't hold them all. Errs with
    /// `HeaderTruncated` if fewer are left, and with `ReadFailed` if the source fails.
    fn skip_by_bytes(&mut self, n: u64) -> Result<(), HeadFault>
        ensures { Read self.old self.new (ignored n) result }
    {
        for _ in 0..n {
            self.byte()?;
        }
        Ok(())
    }
}
