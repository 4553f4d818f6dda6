//! A walk over the values of a variable.

ghost use Rattle.std.specs.Prelude.{◌≡◌, ◌*◌, ◌<◌, ◌≤◌, length, take, IfOk};
ghost use Rattle.std.specs.Borrow.{sem};
ghost use Rattle.nc_base.specs.Headers.{IsSound};
ghost use Rattle.nc_base.specs.Sizes.{record_size};
ghost use Rattle.nc_walk.specs.code.Walks.{Starts, TakesStep, Repeats, Advanced, lent, as_answer};
ghost use Rattle.nc_walk.specs.code.Lends.{AdvancesAfter};

use crate::chunk::read_chunk;
use crate::cursor::Cursor;
use crate::fault::WalkFault;
use crate::slabs::Slabs;
use devices::Source;
use nc_base::{Header, RecordLayout, sound_record_size};
use std::marker::Model;

/// A walk over the values of one variable, through a caller's buffer of at least 16 bytes.
///
/// It hands out the values in row-major order, in chunks of one or more whole values, and each value as the file has it:
/// big-endian. A chunk goes on from slab to slab, without the padding between them, until the buffer is full or a value isn't whole
/// in the source. After a call has returned a fault, each later call returns the same fault.
#[derive(Drop)]
pub struct Walk<'a> {
    slabs: Slabs,
    /// The cursor of the next value, or the cursor after the last value.
    cursor: Cursor,
    /// How many values fit into the buffer.
    capacity: u64,
    /// The fault that stopped the walk, if one did.
    fault: Option<WalkFault>,
    buf: &'a mut [u8],
}

impl<'a> Model for Walk<'a> {
    ghost use Rattle.nc_walk.specs.code.Slabs.{number_at};
    ghost use Rattle.nc_walk.specs.code.Walks.{WalkView, IsInOrder, stopped};

    ghost Value = { WalkView };

    ghost view = { λ w. stopped w.slabs (number_at w.slabs w.cursor) w.fault w.buf.now };

    ghost invariant = { λ w. IsInOrder w.slabs w.cursor w.capacity w.buf.now };
}

impl<'a> Walk<'a> {
    /// Returns a walk at the first value of the variable at index `v` of the header, over `records` records. The variable's `begin` and its
    /// shape, and not its `vsize`, say where the values lie (NetCDF Classic Format Specification). The walk lends its chunks out of `buf`.
    /// Needs a sound header (`nc_base::Header::sound`), a variable at this index, and a buffer of at least 16 bytes.
    ///
    /// For callers of the library: `ncdump` itself calls [`with_layout`](Walk::with_layout), for many variables of one header.
    pub fn new(header: &Header, v: usize, records: u64, buf: &'a mut [u8]) -> Walk<'a>
        requires sound { IsSound header.now }
        requires there { v < length header.now.vars }
        requires capacity { 16 ≤ length buf.old }
        ensures { Starts header.now v records (length buf.old) result }
    {
        let record_size = sound_record_size(header);
        Walk::with_layout(
            header,
            v,
            RecordLayout {
                records,
                record_size,
            },
            buf,
        )
    }

    /// Returns a walk that lends its chunks out of `buf`, at the first value of the variable at index `v`, over the records of `layout`. It
    /// is for a caller that walks over many variables of one file: it takes time in proportion to the variable's rank alone, while
    /// [`Walk::new`] computes the record size anew. Needs a sound header (`nc_base::Header::sound`), a variable at this index, the header's
    /// record size in `layout`, as `nc_base::record_layout` returns it, and a buffer of at least 16 bytes.
    #[tactic(auto, using(crate::proofs::Orders::starts))]
    pub fn with_layout(
        header: &Header,
        v: usize,
        layout: RecordLayout,
        buf: &'a mut [u8],
    ) -> Walk<'a>
        requires sound { IsSound header.now }
        requires there { v < length header.now.vars }
        requires record_size { layout.record_size ≡ record_size header.now }
        requires capacity { 16 ≤ length buf.old }
        ensures { Starts header.now v layout.records (length buf.old) result }
    {
        let slabs = Slabs::of(header, v, layout);
        let capacity = buf.len() as u64 / slabs.size;
        Walk {
            slabs,
            cursor: Cursor { slab: 0, within: 0 },
            capacity,
            fault: None,
            buf,
        }
    }

    /// Returns the first `n` bytes of the buffer: the chunk that [`Walk::next`] lends after it has read `n` bytes. Needs an `n` of at most
    /// the buffer's length.
    fn buffer_prefix(&self, n: usize) -> &[u8]
        requires { n ≤ length self.now.buf }
        ensures { result.now ≡ take n self.now.buf }
    {
        &self.buf[..n]
    }

    /// Reads the next values into the start of the buffer, moves the walk past them, and returns the number of their bytes, or 0 after the
    /// last value. [`Walk::next`] calls it, and lends the bytes. Errs with `ReadFailed` if the source fails, and with `DataTruncated` if
    /// the next value isn't whole in the source. After an error each call returns the same error, and reads nothing.
    fn step<S: Source>(&mut self, source: &mut S) -> Result<usize, WalkFault>
        ensures advanced { Advanced self.old self.new (as_answer self.new.buf result) }
        ensures steps { TakesStep S.is_transparent self.old S.view source.old source.new
            (as_answer self.new.buf result) }
        ensures repeats { Repeats self.old S.view source.old source.new (as_answer self.new.buf result) }
        ensures fits { IfOk result (λ n. n ≤ length self.new.buf) }
    {
        if let Some(fault) = self.fault {
            return Err(fault);
        }
        if self.cursor.is_end(self.slabs) {
            return Ok(0);
        }
        match read_chunk(&self.slabs, self.cursor, self.capacity, source, self.buf) {
            Ok(chunk) => {
                self.cursor = chunk.next;
                Ok((chunk.values * self.slabs.size) as usize)
            }
            Err(fault) => {
                self.fault = Some(fault);
                Err(fault)
            }
        }
    }

    /// Reads the next values, one or more, of one slab or of several, moves the walk past them, and returns their bytes, which lie at the
    /// start of the buffer. Returns `None` after the last value.
    ///
    /// If the source is transparent ([`Source`]), the bytes of the chunk are read, and no others. The chunk borrows the walk, whose buffer
    /// it lies in. The clause `after` says what the walk is once this borrow ends: past the values of the chunk, or with the fault that was
    /// returned.
    ///
    /// # Errors
    ///
    /// [`WalkFault::ReadFailed`] if the source fails; the values that this call has read before the failure are not handed out.
    /// [`WalkFault::DataTruncated`] if the next value isn't whole in the source. If the length of the source already shows this, nothing is
    /// read. If the source ends before its length, the file is taken to end there.
    ///
    /// After an error each call returns the same error, and reads nothing.
    pub fn next<S: Source>(&mut self, source: &mut S) -> Result<Option<&[u8]>, WalkFault>
        ensures steps { TakesStep S.is_transparent self.old S.view source.old source.new (lent result) }
        ensures repeats { Repeats self.old S.view source.old source.new (lent result) }
        ensures* after { sem 𝓛 (AdvancesAfter self.old self.entry (lent result)) }
    {
        match self.step(source) {
            Ok(0) => Ok(None),
            Ok(n) => Ok(Some(self.buffer_prefix(n))),
            Err(fault) => Err(fault),
        }
    }
}
