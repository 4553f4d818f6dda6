//! Fill values, as many as it takes, out of a small buffer.

ghost use Rattle.std.specs.Prelude.{◌≡◌, ◌≤◌};
ghost use Rattle.devices.specs.code.SinkWrites.{Wrote};
ghost use Rattle.nc_base.specs.GeneratedFile.{fill_bytes};
ghost use Rattle.nc_walk.specs.code.Filled.{eight_times, four_times, repeated, twice};

use devices::{Sink, WriteFailed, put};
use nc_base::{NcType, Var, fill_of};

/// How many units of eight bytes the buffer of few fill values holds: 256 bytes, since it is made anew for each slab that lacks
/// values.
const FEW_UNITS: usize = 32;

/// How many units of eight bytes the buffer of many fill values holds: 8 KiB.
const MANY_UNITS: usize = 1024;

/// Writes `n` bytes: the eight bytes of `unit` over and over, and the last time only as many of them as are needed. `unit` is a fill value
/// as often as it fits into eight bytes. Errs if the sink fails.
pub(super) fn put_fills<W: Sink>(sink: &mut W, unit: [u8; 8], n: u128) -> Result<(), WriteFailed>
    ensures { Wrote W.view sink.old sink.new (repeated unit n) result }
{
    if n <= 8 {
        return put(sink, &unit[..n as usize]);
    }
    if n <= 256 {
        return put_few_fills(sink, unit, n);
    }
    put_many_fills(sink, unit, n)
}

/// Writes `n` bytes by one [`put`]: the eight bytes of `unit` over and over, out of a buffer of 256 bytes that each call makes anew.
/// [`put_fills`] calls it for 9 to 256 bytes. Needs an `n` of at most 256. Errs if the sink fails.
fn put_few_fills<W: Sink>(sink: &mut W, unit: [u8; 8], n: u128) -> Result<(), WriteFailed>
    requires { n ≤ 256 }
    ensures { Wrote W.view sink.old sink.new (repeated unit n) result }
{
    let units = [unit; FEW_UNITS];
    let buffer = units.as_flattened();
    put(sink, &buffer[..n as usize])
}

/// Writes `n` bytes: the eight bytes of `unit` over and over, out of a buffer of 8192 bytes. Each [`put`] but the last writes the whole
/// buffer, so that many fill values take few calls. [`put_fills`] calls it for more than 256 bytes. Errs if the sink fails.
fn put_many_fills<W: Sink>(sink: &mut W, unit: [u8; 8], n: u128) -> Result<(), WriteFailed>
    ensures { Wrote W.view sink.old sink.new (repeated unit n) result }
{
    let units = [unit; MANY_UNITS];
    let buffer = units.as_flattened();
    let mut left = n;
    while left > 0 {
        let piece = left.min(buffer.len() as u128);
        put(sink, &buffer[..piece as usize])?;
        left -= piece;
    }
    Ok(())
}

/// Returns eight bytes: the variable's fill value, big-endian, as often as it fits. For a short with the default fill value these are the
/// bytes `80 01`, four times.
#[tactic(auto, unfolding(nc_base::specs::GeneratedFile::fill_bytes))]
pub(super) fn fill_unit(var: &Var) -> [u8; 8]
    ensures { result ≡ fill_bytes var.now 8 }
{
    let fill = fill_of(var);
    match var.ty {
        NcType::Byte => eight_times((fill as i8).to_be_bytes()),
        NcType::Char | NcType::Ubyte => eight_times((fill as u8).to_be_bytes()),
        NcType::Short => four_times((fill as i16).to_be_bytes()),
        NcType::Ushort => four_times((fill as u16).to_be_bytes()),
        NcType::Int => twice((fill as i32).to_be_bytes()),
        NcType::Uint => twice((fill as u32).to_be_bytes()),
        NcType::Int64 => (fill as i64).to_be_bytes(),
        NcType::Uint64 => (fill as u64).to_be_bytes(),
    }
}

/// Returns eight bytes: a value of one byte, eight times.
fn eight_times(value: [u8; 1]) -> [u8; 8]
    ensures { result ≡ eight_times value }
{
    [value[0]; 8]
}

/// Returns eight bytes: a value of two bytes, four times.
fn four_times(value: [u8; 2]) -> [u8; 8]
    ensures { result ≡ four_times value }
{
    let [a, b] = value;
    [a, b, a, b, a, b, a, b]
}

/// Returns eight bytes: a value of four bytes, twice.
fn twice(value: [u8; 4]) -> [u8; 8]
    ensures { result ≡ twice value }
{
    let [a, b, c, d] = value;
    [a, b, c, d, a, b, c, d]
}
