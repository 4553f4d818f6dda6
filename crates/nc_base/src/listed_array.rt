//! The bytes of the values that a text lists for a variable, with each row as long as it is listed.

ghost use Rattle.std.specs.Prelude.{◌≡◌, ◌++◌, ◌≤◌, ◌<◌, ◌-◌, [], drop, get_or, length, max, min, replicate, take, IfOk, IfSome, OnOk, OnErr};
ghost use Rattle.nc_base.specs.code.ListedRows.{StandAt, row_of, row_start};

use std::alloc::{AllocError, Global};
use std::marker::Model;

/// The bytes of the values that a CDL text lists for a variable or an attribute, big-endian and one value after the other.
///
/// A row is the bytes of one string, filled up with a fill byte to the length that each row of the variable has. These fill bytes usually
/// aren't stored: a row takes the memory of its listed bytes, and four bytes more. Contracts see the bytes with each row filled up.
#[derive(Drop)]
pub struct ListedArray {
    /// The stored bytes: all bytes without those that the rows of `row_ends` lack.
    bytes: Vec<u8>,
    /// For each row that was kept short ([`end_row`](ListedArray::end_row)), the offset in `bytes` at which the row ends.
    row_ends: Vec<u32>,
    /// The offset in `bytes` at which the last of these rows ends, or 0 if there are none.
    last_row_end: usize,
    /// The length in bytes of each of these rows, counting its fill bytes.
    row_len: u64,
    /// The byte that fills up these rows.
    fill: u8,
}

/// Part of the bytes of a [`ListedArray`]: stored bytes, and after them fill bytes, which aren't stored.
#[derive(Clone, Copy, Debug)]
pub struct Run<'a> {
    /// The stored bytes.
    pub bytes: &'a [u8],
    /// The number of fill bytes after them.
    pub filling: u64,
    /// The fill byte.
    pub fill: u8,
}

impl Model for ListedArray {
    ghost use Rattle.std.specs.Prelude.{List, ℕ, ◌≤◌, length};
    ghost use Rattle.nc_base.specs.code.ListedRows.{AreRowEnds, filled_rows};

    ghost Value = { List ℕ };

    ghost view = { λ l. filled_rows l.row_len l.fill 0 l.row_ends.items l.bytes.items };

    ghost invariant = { λ l. AreRowEnds l.row_len 0 l.row_ends.items l.last_row_end × (l.last_row_end ≤ length l.bytes.items) };
}

impl ListedArray {
    /// Creates an array without bytes, and allocates nothing. The array takes its memory from `alloc` as it grows.
    #[tactic(auto, unfolding(crate::specs::code::ListedRows::filled_rows))]
    pub fn new(alloc: Global) -> ListedArray
        ensures { result ≡ [] }
    {
        ListedArray {
            bytes: Vec::new(alloc),
            row_ends: Vec::new(alloc),
            last_row_end: 0,
            row_len: 0,
            fill: 0,
        }
    }

    /// Appends `bytes`. To append a row that may lack bytes, append those that it has, and then call [`end_row`](ListedArray::end_row).
    ///
    /// # Errors
    ///
    /// An allocation failed. The array stays as it was.
    #[inline(always)]
    #[tactic(auto, using(crate::proofs::FilledRows::filled_append))]
    pub fn add(&mut self, bytes: &[u8]) -> Result<(), AllocError>
        ensures ok { OnOk result (self.new ≡ self.old ++ bytes.now) }
        ensures err { OnErr result (self.new ≡ self.old) }
    {
        self.bytes.extend_from_slice(bytes)?;
        Ok(())
    }

    /// Ends a row: appends the bytes that it lacks, which are `lacking` copies of the byte `fill`. Its listed bytes were appended before.
    ///
    /// The row is kept short, which means that the bytes that it lacks aren't stored, if three things hold: its full length and its fill
    /// byte are those of all rows kept short before, its end among the stored bytes fits into a `u32`, and its full length fits into a
    /// `u64`. Otherwise these bytes are stored. No clause says which of the two is done. The row begins where the last row kept short ends,
    /// or at the start if there is none.
    ///
    /// # Errors
    ///
    /// An allocation failed. The array stays as it was.
    #[tactic(auto, using(crate::proofs::FilledRows::filled_append, crate::proofs::FilledRows::filled_end, crate::proofs::FilledRows::ends_end))]
    pub fn end_row(&mut self, lacking: u64, fill: u8) -> Result<(), AllocError>
        ensures ok { OnOk result (self.new ≡ self.old ++ replicate lacking fill) }
        ensures err { OnErr result (self.new ≡ self.old) }
    {
        let end = self.bytes.len();
        let row_len = (end - self.last_row_end) as u128 + lacking as u128;
        let is_like_others = self.row_ends.is_empty()
            || (row_len == self.row_len as u128 && fill == self.fill);
        if !is_like_others || end > u32::MAX as usize || row_len > u64::MAX as u128 {
            return append_copies(&mut self.bytes, lacking, fill);
        }
        self.row_ends.push(end as u32)?;
        self.last_row_end = end;
        self.row_len = row_len as u64;
        self.fill = fill;
        Ok(())
    }

    /// Returns the number of bytes, counting the fill bytes of [`end_row`](ListedArray::end_row), also those that aren't stored.
    #[tactic(auto, using(crate::proofs::FilledRows::length_filled))]
    pub fn len(&self) -> u128
        ensures { result ≡ length self.now }
    {
        let in_rows = self.row_ends.len() as u128 * self.row_len as u128;
        in_rows + (self.bytes.len() - self.last_row_end) as u128
    }

    /// Returns a [`Run`] (stored bytes, and a number of fill bytes after them) that begins at the offset `at`. The offset counts all fill
    /// bytes, also those that aren't stored. The run may end before the array does: a caller that needs more bytes asks again at the run's
    /// end. It is empty if and only if `at` is at the end of the array or after it.
    pub fn run_at(&self, at: u128) -> Run<'_>
        ensures { StandAt self.now at result.bytes.now result.filling result.fill }
    {
        match self.bytes_if_all_stored() {
            Some(bytes) => rest_of_bytes(bytes, at),
            None => self.run_of_rows(at),
        }
    }

    /// Returns the stored bytes if they are all bytes of the array, or `None` if there are fill bytes that aren't stored (no clause says
    /// when it is `None`).
    #[tactic(auto, using(crate::proofs::FilledRows::filled_full))]
    fn bytes_if_all_stored(&self) -> Option<&[u8]>
        ensures { IfSome result (λ bytes. bytes.now ≡ self.now) }
    {
        if self.len() == self.bytes.len() as u128 {
            Some(self.bytes.as_slice())
        } else {
            None
        }
    }

    /// Returns a [`Run`] that begins at the offset `at`, counting each row as filled up. [`run_at`](ListedArray::run_at) calls it if some
    /// fill bytes aren't stored. If `at` is in a row that was kept short ([`end_row`](ListedArray::end_row)), the run is the rest of that
    /// row. Otherwise it is the rest of the bytes after these rows: none if `at` is at their end or after it. No clause says where a run
    /// ends.
    fn run_of_rows(&self, at: u128) -> Run<'_>
        ensures { StandAt self.now at result.bytes.now result.filling result.fill }
    {
        let row_len = self.row_len as u128;
        let in_rows = self.row_ends.len() as u128 * row_len;
        if at < in_rows {
            let row = listed_row(
                self.bytes.as_slice(),
                self.row_ends.as_slice(),
                (at / row_len) as usize,
            );
            return rest_of_row(row, (at % row_len) as u64, self.row_len, self.fill);
        }
        let after = &self.bytes[self.last_row_end..];
        let skipped = (at - in_rows).min(after.len() as u128) as usize;
        Run {
            bytes: &after[skipped..],
            filling: 0,
            fill: self.fill,
        }
    }

    /// Returns the bytes with each row filled up, in a `Vec` with capacity for `more` bytes after them (no clause speaks of the capacity).
    /// If no row was kept short ([`end_row`](ListedArray::end_row)), it is the array's own `Vec`. Otherwise the bytes are copied to a new
    /// one, which takes its memory from `alloc`.
    ///
    /// # Errors
    ///
    /// An allocation failed. The array is dropped.
    pub fn into_bytes(self, alloc: Global, more: usize) -> Result<Vec<u8>, AllocError>
        ensures { IfOk result (λ bytes. bytes.items ≡ self) }
    {
        if self.row_ends.is_empty() {
            let mut bytes = self.bytes;
            bytes.reserve_exact(more)?;
            return Ok(bytes);
        }
        self.to_bytes(alloc, more)
    }

    /// Copies the bytes, with each row filled up, to a new `Vec` of memory from `alloc`, with capacity for `more` bytes after them (no
    /// clause speaks of the capacity). [`into_bytes`](ListedArray::into_bytes) calls it if rows were kept short. Errs if an allocation
    /// fails.
    fn to_bytes(&self, alloc: Global, more: usize) -> Result<Vec<u8>, AllocError>
        ensures { IfOk result (λ bytes. bytes.items ≡ self.now) }
    {
        let len = self.len();
        let mut filled = Vec::new(alloc);
        filled.reserve_exact(
            usize::try_from(len)
                .unwrap_or(usize::MAX)
                .saturating_add(more),
        )?;
        while (filled.len() as u128) < len {
            let run = self.run_at(filled.len() as u128);
            filled.extend_from_slice(run.bytes)?;
            append_copies(&mut filled, run.filling, run.fill)?;
        }
        Ok(filled)
    }
}

/// Returns the bytes from the offset `at` on, all of them, as a [`Run`] without fill bytes (no clause says that it goes to their end). The
/// run is empty if `at` is at their end or after it.
fn rest_of_bytes(bytes: &[u8], at: u128) -> Run<'_>
    ensures { StandAt bytes.now at result.bytes.now result.filling result.fill }
{
    let skipped = at.min(bytes.len() as u128) as usize;
    let (_, rest) = bytes.split_at(skipped);
    Run {
        bytes: rest,
        filling: 0,
        fill: 0,
    }
}

/// Returns the listed bytes of row `r`, counted from 0: those of `bytes` from the end of the row before it, or from 0 if `r` is 0, to the
/// offset `row_ends[r]`. Needs a row `r` in `row_ends`, and these two offsets in order and within `bytes`.
fn listed_row<'a>(bytes: &'a [u8], row_ends: &[u32], r: usize) -> &'a [u8]
    requires of { r < length row_ends.now }
    requires after { row_start 0 row_ends.now r ≤ get_or row_ends.now r 0 }
    requires inside { get_or row_ends.now r 0 ≤ length bytes.now }
    ensures { result.now ≡ row_of bytes.now row_ends.now r }
{
    let start = start_of_row(row_ends, r);
    &bytes[start..row_ends[r] as usize]
}

/// Returns the part of a row from its byte `column` on, counted from 0, as a [`Run`]. The row has `row_len` bytes: the listed ones, which
/// are those of `row`, and copies of `fill` after them. Needs at most `row_len` bytes in `row`, and a `column` below `row_len`.
fn rest_of_row(row: &[u8], column: u64, row_len: u64, fill: u8) -> Run<'_>
    requires listed { length row.now ≤ row_len }
    requires column { column < row_len }
    ensures listed { result.bytes.now ≡ drop (min column (length row.now)) row.now }
    ensures filling { result.filling ≡ row_len - max column (length row.now) }
    ensures fill { result.fill ≡ fill }
{
    let listed = row.len() as u64;
    Run {
        bytes: &row[column.min(listed) as usize..],
        filling: row_len - column.max(listed),
        fill,
    }
}

/// Returns the offset in the stored bytes at which row `r` starts: 0 if `r` is 0, otherwise `row_ends[r - 1]`, where the row before it
/// ends. Needs an `r` of at most the number of rows in `row_ends`.
#[tactic(auto, using(crate::proofs::FilledRows::row_start_after), unfolding(crate::specs::code::ListedRows::row_start))]
fn start_of_row(row_ends: &[u32], r: usize) -> usize
    requires { r ≤ length row_ends.now }
    ensures { result ≡ row_start 0 row_ends.now r }
{
    if r == 0 {
        return 0;
    }
    row_ends[r - 1] as usize
}

/// Appends `n` copies of the byte `fill` to `bytes`. If an allocation fails, it errs, and `bytes` stays as it was.
#[inline(never)]
fn append_copies(bytes: &mut Vec<u8>, n: u64, fill: u8) -> Result<(), AllocError>
    ensures ok { OnOk result (bytes.new.items ≡ bytes.old.items ++ replicate n fill) }
    ensures err { OnErr result (bytes.new.items ≡ bytes.old.items) }
{
    let len = bytes.len().saturating_add(n as usize);
    bytes.resize(len, fill)?;
    Ok(())
}
