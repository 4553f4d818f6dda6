//! The files of a run, checked in turn and counted: those of the words, and then those of a list.

ghost use Rattle.std.specs.Prelude.{◌≡◌, ◌+◌, ◌<◌, ◌≤◌, ◌^◌, [], ◌∷◌, codes, length, map, option_map, IfSome};
ghost use Rattle.devices.specs.Readers.{view_of};
ghost use Rattle.devices.specs.code.PathOpens.{NamesAsBefore};
ghost use Rattle.check_options.specs.code.Options.{asked_for};
ghost use Rattle.nccheck.specs.Faults.{file_line};
ghost use Rattle.nccheck.specs.PathLists.{last_items, Path, Whole};
ghost use Rattle.nccheck.specs.Runs.{IsTold, openings, state};
ghost use Rattle.nccheck.specs.Tallies.{counted, no_files, total};
ghost use Rattle.nccheck.specs.code.Counts.{Counts, CountsAll, CountsList, Takes};
ghost use Rattle.nccheck.specs.declared.fault.FileFault.TheVariants.{ReadFailed};

use crate::checking::{check_item, ends_run};
use crate::fault::FileFault;
use crate::fault_text::put_file_fault;
use crate::path_list::{ListedPath, push_byte};
use crate::tally::Tally;
use check_options::CheckOptions;
use devices::{CountedRead, Opener, Sink};
use std::alloc::Global;
use std::io::Read;

/// Checks the files that the options name, one after the other, and then, with `-0`, those whose paths `input` has. Writes what is found to
/// `out`, and a line for each fault to `err` ([`check_item`]). Returns how many files there were, by what came of each, or `None` after a
/// fault that ends the run: if `out` failed.
pub(crate) fn check_all<P: Opener, R: Read, O: Sink, E: Sink>(
    opener: &mut P,
    alloc: Global,
    options: &CheckOptions<'_>,
    input: &mut CountedRead<R>,
    out: &mut O,
    err: &mut E,
) -> Option<Tally>
    ensures counts { CountsAll
        (openings P.Source.is_transparent (P.named opener.old) P.view) (asked_for options.now)
        (view_of R.remaining input.old) (view_of R.remaining input.new)
        (state O.view E.view opener.old out.old err.old)
        (state O.view E.view opener.new out.new err.new) result }
    ensures few { IfSome result (λ tally. total tally < 2 ^ 128) }
{
    let tally = check_each(opener, alloc, options, out, err)?;
    if options.reads_paths_from_input {
        check_list(opener, alloc, options, input, tally, out, err)
    } else {
        Some(tally)
    }
}

/// Checks the files that the options name, one after the other ([`check_item`]), and counts them. Returns `None` after a fault that ends
/// the run (`out` failed).
fn check_each<P: Opener, O: Sink, E: Sink>(
    opener: &mut P,
    alloc: Global,
    options: &CheckOptions<'_>,
    out: &mut O,
    err: &mut E,
) -> Option<Tally>
    ensures counts { Counts
        (openings P.Source.is_transparent (P.named opener.old) P.view) (asked_for options.now)
        (map Path (asked_for options.now).files)
        (state O.view E.view opener.old out.old err.old)
        (state O.view E.view opener.new out.new err.new) no_files result }
    ensures few { IfSome result (λ tally. total tally < 2 ^ 64) }
    ensures names { NamesAsBefore (P.named opener.old) (P.named opener.new) }
{
    let files = options.files.as_slice();
    let mut tally = Tally::new();
    for file in files {
        tally = check_and_count(opener, alloc, file.as_bytes(), options, tally, out, err)?;
    }
    Some(tally)
}

/// Checks the file at the path `file` ([`check_item`]), and returns `tally` with it, or `None` after a fault that ends the run
/// (`out` failed). Needs fewer than 2^128 - 1 files in `tally`.
fn check_and_count<P: Opener, O: Sink, E: Sink>(
    opener: &mut P,
    alloc: Global,
    file: &[u8],
    options: &CheckOptions<'_>,
    tally: Tally,
    out: &mut O,
    err: &mut E,
) -> Option<Tally>
    requires { total tally + 1 < 2 ^ 128 }
    ensures counts { Counts
        (openings P.Source.is_transparent (P.named opener.old) P.view) (asked_for options.now)
        (Path file.now ∷ [])
        (state O.view E.view opener.old out.old err.old)
        (state O.view E.view opener.new out.new err.new) tally result }
    ensures few { IfSome result (λ more. total more ≤ total tally + 1) }
    ensures names { NamesAsBefore (P.named opener.old) (P.named opener.new) }
{
    let answer = check_item(opener, alloc, file, options, out, err);
    if ends_run(answer) {
        return None;
    }
    Some(tally.with(answer))
}

/// How far a list of paths was read.
#[derive(Drop)]
struct PathList {
    /// The bytes of a path that no NUL has ended yet.
    path: ListedPath,
    /// The tally of the paths before it.
    tally: Tally,
}

/// The length of the buffer that the list is read through, in bytes.
const BUFFER_LEN: usize = 4096;

/// Checks the files whose paths `input` has, each ended by a NUL (the last one with or without), as soon as the path was read. Returns
/// `tally` with them, or `None` after a fault that ends the run (`out` failed). If `input` fails, or after 2^64 - 1 reads, it goes no
/// further: it writes a line to `err`, and counts one more file as not checked. Needs fewer than 2^64 files in `tally`.
fn check_list<P: Opener, R: Read, O: Sink, E: Sink>(
    opener: &mut P,
    alloc: Global,
    options: &CheckOptions<'_>,
    input: &mut CountedRead<R>,
    tally: Tally,
    out: &mut O,
    err: &mut E,
) -> Option<Tally>
    requires { total tally < 2 ^ 64 }
    ensures counts { CountsList
        (openings P.Source.is_transparent (P.named opener.old) P.view) (asked_for options.now)
        (view_of R.remaining input.old) (view_of R.remaining input.new)
        (state O.view E.view opener.old out.old err.old)
        (state O.view E.view opener.new out.new err.new) tally result }
    ensures few { IfSome result (λ more. total more < 2 ^ 128) }
{
    let mut buf = [0u8; BUFFER_LEN];
    let mut list = PathList {
        path: ListedPath::new(),
        tally,
    };
    for _turn in 0..u64::MAX {
        match input.read_some(&mut buf) {
            Ok(0) => return check_last(opener, alloc, options, &list, out, err),
            Ok(n) => check_paths_in(opener, alloc, options, &buf[..n], &mut list, out, err)?,
            Err(_) => return Some(tell_unread(list.tally, err)),
        }
    }
    Some(tell_unread(list.tally, err))
}

/// Takes `bytes`, the next of the paths on standard input: appends them to the path that `list` has begun, and at each NUL checks the file
/// at that path, counts it in `list`, and begins the next path. Returns `None` after a fault that ends the run (`out` failed). Needs a
/// tally that stays below 2^128 files even if each byte ends a path.
fn check_paths_in<P: Opener, O: Sink, E: Sink>(
    opener: &mut P,
    alloc: Global,
    options: &CheckOptions<'_>,
    bytes: &[u8],
    list: &mut PathList,
    out: &mut O,
    err: &mut E,
) -> Option<()>
    requires { total list.old.tally + length bytes.now < 2 ^ 128 }
    ensures takes { Takes
        (openings P.Source.is_transparent (P.named opener.old) P.view) (asked_for options.now)
        bytes.now list.old.path.items list.new.path.items
        (state O.view E.view opener.old out.old err.old)
        (state O.view E.view opener.new out.new err.new)
        list.old.tally (option_map (λ _. list.new.tally) result) }
    ensures few { total list.new.tally ≤ total list.old.tally + length bytes.now }
    ensures names { NamesAsBefore (P.named opener.old) (P.named opener.new) }
{
    for b in bytes {
        if *b != 0 {
            push_byte(&mut list.path, *b);
            continue;
        }
        let path = list.path.as_slice();
        list.tally = check_and_count(opener, alloc, path, options, list.tally, out, err)?;
        list.path.clear();
    }
    Some(())
}

/// Checks the file at the path that `list` has begun, if there is one: standard input ended without a NUL after it. Returns the tally of
/// `list` with it, or `None` after a fault that ends the run (`out` failed). Needs fewer than 2^128 - 1 files in the tally.
fn check_last<P: Opener, O: Sink, E: Sink>(
    opener: &mut P,
    alloc: Global,
    options: &CheckOptions<'_>,
    list: &PathList,
    out: &mut O,
    err: &mut E,
) -> Option<Tally>
    requires { total list.now.tally + 1 < 2 ^ 128 }
    ensures counts { Counts
        (openings P.Source.is_transparent (P.named opener.old) P.view) (asked_for options.now)
        (last_items Whole list.now.path.items)
        (state O.view E.view opener.old out.old err.old)
        (state O.view E.view opener.new out.new err.new) list.now.tally result }
    ensures few { IfSome result (λ more. total more ≤ total list.now.tally + 1) }
{
    let path = list.path.as_slice();
    if path.is_empty() {
        Some(list.tally)
    } else {
        check_and_count(opener, alloc, path, options, list.tally, out, err)
    }
}

/// Writes `nccheck: -: read failed` to `err`, since standard input can't be read on, and passes over a failure of `err`. Returns `tally`
/// with one more file that wasn't checked. Needs fewer than 2^128 - 1 files in `tally`.
#[tactic(auto, using(crate::proofs::InTurn::is_told))]
fn tell_unread<E: Sink>(tally: Tally, err: &mut E) -> Tally
    requires { total tally + 1 < 2 ^ 128 }
    ensures tells { IsTold (E.view err.old) (E.view err.new) (file_line (codes "-") ReadFailed) }
    ensures tally { result ≡ counted tally (Err ReadFailed) }
{
    let _ = put_file_fault(err, b"-", FileFault::ReadFailed);
    tally.with(Err(FileFault::ReadFailed))
}
