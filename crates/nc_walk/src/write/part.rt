//! The bytes of a listed array, written run by run.

ghost use Rattle.std.specs.Prelude.{◌≡◌, ◌+◌, IfOk, drop, length, min, take};
ghost use Rattle.devices.specs.code.SinkWrites.{Wrote};
ghost use Rattle.nc_walk.specs.code.Filled.{run_bytes};

use super::fills::put_fills;
use devices::{Sink, WriteFailed, put};
use nc_base::{ListedArray, Run};

/// Writes `len` bytes of a listed array from the offset `start` on, or those up to the array's end if there are fewer. Each row is filled
/// up: `start` and `len` also count the fill bytes that aren't stored. Errs if the sink fails.
pub(super) fn put_listed_bytes<W: Sink>(
    sink: &mut W,
    listed: &ListedArray,
    start: u128,
    len: u128,
) -> Result<(), WriteFailed>
    ensures { Wrote W.view sink.old sink.new (take len (drop start listed.now)) result }
{
    let end = start.saturating_add(len).min(listed.len());
    let mut at = start;
    while at < end {
        let run = listed.run_at(at);
        let n = put_run(sink, run, end - at)?;
        at += n;
    }
    Ok(())
}

/// Writes the first `n` bytes of a run (stored bytes, and then fill bytes), or all if it has fewer, and returns how many it has written.
/// Errs if the sink fails.
#[tactic(auto, using(devices::proofs::Writes::writes))]
fn put_run<W: Sink>(sink: &mut W, run: Run<'_>, n: u128) -> Result<u128, WriteFailed>
    ensures writes { Wrote W.view sink.old sink.new (take n (run_bytes run.entry)) result }
    ensures count { IfOk result (λ k. k ≡ min n (length run.entry.bytes.now + run.entry.filling)) }
{
    let listed = (run.bytes.len() as u128).min(n);
    put(sink, &run.bytes[..listed as usize])?;
    let filling = (run.filling as u128).min(n - listed);
    put_fills(sink, [run.fill; 8], filling)?;
    Ok(listed + filling)
}
