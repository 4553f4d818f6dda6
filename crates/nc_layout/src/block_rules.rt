//! Findings at the begin of a block, the values of one variable or all records, from the blocks that precede it.

ghost use Rattle.std.specs.Prelude.{◌≡◌, ◌++◌, OnOk, IsPermutation};
ghost use Rattle.std.specs.Ordering.{nat_cmp};
ghost use Rattle.std.specs.List.Sorted.{IsNonDecreasingBy, IsStableByKey};
ghost use Rattle.nc_layout.specs.Blocks.{blocks};
ghost use Rattle.nc_layout.specs.code.Sweep.{value_end, padding_end, reached_with, end_of, overlap_after, unpadded_after, gap_after, findings_at, swept, nothing_reached, AppendedBlockFindings};

use crate::blocks::Extent;
use crate::finding::{finding_if, push_some};
use crate::slot::FileLayout;
use nc_base::Sequence;
use nc_findings::{LayoutFact, LayoutFinding, LayoutPlace};
use std::alloc::AllocError;

/// How far the blocks reach that a pass, in the order of their begins, has passed. A block is the values of a variable that isn't a record
/// variable, or all records together. Both are `None` before the first block.
#[derive(Clone, Copy)]
pub(crate) struct Reached {
    /// The first of these blocks that has the greatest end of values.
    pub values: Option<Extent>,
    /// The first of these blocks that has the greatest end of padding.
    pub padding: Option<Extent>,
}

/// Appends the findings at the begins of the blocks of the file, in no order that is promised. Needs `extents` that are the blocks of the
/// layout. It sorts them by begin, but no clause says so. Errs only if an allocation fails.
pub(crate) fn push_block_findings(
    found: &mut Sequence<LayoutFinding>,
    layout: &FileLayout,
    extents: &mut Vec<Extent>,
) -> Result<(), AllocError>
    requires { extents.old.items ≡ blocks layout.now }
    ensures { OnOk result
        (AppendedBlockFindings layout.now.header_end (blocks layout.now) found.old found.new) }
{
    sort_by_begin(extents)?;
    push_findings_in_order(found, layout.header_end, extents.as_slice())?;
    Ok(())
}

/// Sorts the blocks by begin; those of one begin stay in their order. If an allocation fails, it errs, and the order may be any.
fn sort_by_begin(extents: &mut Vec<Extent>) -> Result<(), AllocError>
    ensures permutation { IsPermutation extents.old.items extents.new.items }
    ensures sorted { OnOk result (IsNonDecreasingBy (λ b. b.begin) extents.new.items) }
    ensures stable { OnOk result
        (IsStableByKey (λ b. b.begin) nat_cmp extents.old.items extents.new.items) }
{
    extents.sort_by_key(|extent| extent.begin)?;
    Ok(())
}

/// Appends the findings at the begin of each of these blocks, of which those before it in the slice count as earlier. They should be sorted
/// by begin, but no clause says so. The header ends at `header_end`. Errs only if an allocation fails.
fn push_findings_in_order(
    found: &mut Sequence<LayoutFinding>,
    header_end: u64,
    sorted: &[Extent],
) -> Result<(), AllocError>
    ensures { OnOk result (found.new ≡ found.old ++ swept header_end nothing_reached sorted.now) }
{
    let mut reached = Reached {
        values: None,
        padding: None,
    };
    for block in sorted {
        push_findings_at(found, header_end, reached, *block)?;
        reached = reached_with(reached, *block);
    }
    Ok(())
}

/// Returns how far the blocks reach with one more, which comes after them. Of those that end at one offset, the first stays.
fn reached_with(reached: Reached, block: Extent) -> Reached
    ensures { result ≡ reached_with reached block }
{
    Reached {
        values: Some(match reached.values {
            Some(last) if last.end >= block.end => last,
            _ => block,
        }),
        padding: Some(match reached.padding {
            Some(last) if last.padded_end >= block.padded_end => last,
            _ => block,
        }),
    }
}

/// Appends the findings at the begin of this block. The blocks before it reach as far as `reached` says, and the header ends at the offset
/// `header_end`. Errs only if an allocation fails.
fn push_findings_at(
    found: &mut Sequence<LayoutFinding>,
    header_end: u64,
    reached: Reached,
    block: Extent,
) -> Result<(), AllocError>
    ensures { OnOk result (found.new ≡ found.old ++ findings_at header_end reached block) }
{
    push_some(found, overlap(reached, block))?;
    push_some(found, unpadded(reached, block))?;
    push_some(found, gap(header_end, reached, block))?;
    Ok(())
}

/// Returns the finding that the block begins before the values of an earlier one end (`reached`), or `None`.
fn overlap(reached: Reached, block: Extent) -> Option<LayoutFinding>
    ensures { result ≡ overlap_after reached block }
{
    let last = reached.values?;
    finding_if(
        (block.begin as u128) < last.end,
        LayoutPlace::Begin(block.var),
        LayoutFact::Overlap {
            begin: block.begin,
            end: last.end,
            of: last.block,
        },
    )
}

/// Returns the finding that the block begins before the padding of earlier ones (`reached`) ends, but after all their values, or `None`.
fn unpadded(reached: Reached, block: Extent) -> Option<LayoutFinding>
    ensures { result ≡ unpadded_after reached block }
{
    let last = reached.padding?;
    let begin = block.begin as u128;
    finding_if(
        value_end(reached.values) <= begin && begin < last.padded_end,
        LayoutPlace::Begin(block.var),
        LayoutFact::Unpadded {
            begin: block.begin,
            end: last.padded_end,
            of: last.block,
        },
    )
}

/// Returns the offset at which the values of the block end, or 0 if it is `None`.
fn value_end(block: Option<Extent>) -> u128
    ensures { result ≡ end_of value_end block }
{
    block.map_or(0, |block| block.end)
}

/// Returns the offset at which the padding of the block ends, or 0 if it is `None`.
fn padding_end(block: Option<Extent>) -> u128
    ensures { result ≡ end_of padding_end block }
{
    block.map_or(0, |block| block.padded_end)
}

/// Returns the finding that unused bytes lie before the block, after the header and the padding of earlier blocks (`reached`), or `None`.
fn gap(header_end: u64, reached: Reached, block: Extent) -> Option<LayoutFinding>
    ensures { result ≡ gap_after header_end reached block }
{
    let end = padding_end(reached.padding).max(header_end as u128);
    if end < block.begin as u128 {
        let end = end as u64;
        Some(LayoutFinding {
            place: LayoutPlace::Data(end),
            fact: LayoutFact::Gap {
                bytes: block.begin - end,
                before: block.block,
            },
        })
    } else {
        None
    }
}
