//! Files of the system: which of them open, what reads of them give, and what outputs write to them.

use devices::{
    Creator, DirectFiles, FileSource, OpenFailed, Opener, Source, SystemFiles, SystemOutputs,
    TextOpener, put,
};
use std::alloc::{AllocError, Global};
use std::fs;
use std::fs::File;
use std::process::Abort;
use std::rt::Files;
use std::test::Fail;

/// This number of bytes other than 0. Two bytes that are a power of two apart are never the same.
fn distinct_bytes(alloc: Global, len: usize) -> Result<Vec<u8>, AllocError> {
    let mut bytes = Vec::new(alloc);
    for i in 0..len {
        bytes.push((i % 251) as u8 + 1)?;
    }
    Ok(bytes)
}

/// Fails unless a read at this offset of a file with these bytes gives those that stand there, at least one.
fn expect_read<S: Source>(
    rt: &impl Abort,
    source: &mut S,
    file: &[u8],
    at: usize,
    into: &mut [u8],
) {
    assert!(rt; !into.is_empty() && (at as u64) < source.len() && at < file.len());
    let n = source.read_at(at as u64, into).unwrap_or(0);
    assert!(rt; 0 < n && n <= into.len(), "at {at}");
    assert!(rt; file[at..].starts_with(&into[..n]), "at {at}");
}

/// Fails unless the file gives its bytes at places within a stretch that is read ahead, at its ends and far from it, and to reads of every
/// length up to 1,000, which are far apart.
fn expect_bytes<S: Source>(rt: &impl Abort, source: &mut S, file: &[u8]) {
    const PLACES: &[usize] = &[
        0, 5, 4095, 4096, 65535, 65536, 131071, 3, 199990, 199999, 70000, 10,
    ];
    let mut into = [0; 70000];
    for at in PLACES {
        expect_read(rt, source, file, *at, &mut into[..16]);
        expect_read(rt, source, file, *at, &mut into);
    }
    for len in 1..=1000 {
        expect_read(rt, source, file, len * 70001 % 199000, &mut into[..len]);
    }
}

/// Fails unless nothing opens at the path, for this reason.
fn expect_no_file<R: Files<File = File> + Abort>(rt: &R, path: &str, why: OpenFailed) {
    assert!(rt;
        matches!(FileSource::open(rt, path), Err(told) if told == why),
        "{path}"
    );
    assert!(rt;
        matches!(DirectFiles::new(rt).open(path), Err(told) if told == why),
        "{path}"
    );
}

#[test]
fn reads_of_a_file_give_its_bytes(rt: HostRuntime) -> Result<(), Fail> {
    let path = "devices_files.bin";
    let bytes = distinct_bytes(rt.alloc(), 200000)?;
    fs::write(&rt, path, bytes.as_slice())?;
    let mut ahead = FileSource::open(&rt, path)?;
    let mut files = DirectFiles::new(&rt);
    let mut direct = files.open(path)?;
    // a file in the place of a folder: a reason that has no variant of its own
    expect_no_file(&rt, "devices_files.bin/a.nc", OpenFailed::Other);
    fs::remove_file(&rt, path)?;
    assert!(rt; ahead.len() == 200000 && direct.len() == 200000);
    expect_bytes(&rt, &mut ahead, bytes.as_slice());
    expect_bytes(&rt, &mut direct, bytes.as_slice());
    files.close(direct);
    expect_no_file(&rt, path, OpenFailed::NotFound);
    expect_no_file(&rt, "no_such_file.nc", OpenFailed::NotFound);
    expect_no_file(&rt, ".", OpenFailed::NotRegular);
    Ok(())
}

/// Creates an output of the system at the path, closes it, opens it as a source and as a text, and removes it.
fn is_created<R: Files<File = File>>(
    rt: &R,
    outputs: &mut SystemOutputs<'_, R>,
    path: &str,
) -> Result<(), Fail> {
    let output = outputs.create(path)?;
    outputs.close(path, output)?;
    let mut files = SystemFiles::new(rt);
    let source = files.open(path)?;
    files.close(source);
    let text = files.open_text(path)?;
    files.close_text(text);
    fs::remove_file(rt, path)?;
    Ok(())
}

/// Does so at the paths with 1 up to `count` more letters.
fn are_created<R: Files<File = File>>(
    rt: &R,
    outputs: &mut SystemOutputs<'_, R>,
    mut path: String,
    count: usize,
) -> Result<(), Fail> {
    for _ in 0..count {
        path.push('a')?;
        is_created(rt, outputs, path.as_str())?;
    }
    Ok(())
}

/// Short paths, the longest one that the system takes with 194 shorter ones, and names in UTF-8.
#[test]
fn files_at_paths_of_every_length(rt: HostRuntime) -> Result<(), Fail> {
    static NAMES: &[&str] = &[
        "gr\u{f6}\u{df}e.bin",
        "\u{30c7}\u{30fc}\u{30bf}.bin",
        "\u{1f30d}.bin",
        "e\u{301}.bin",
    ];
    let mut outputs = SystemOutputs::new(&rt, rt.alloc());
    are_created(&rt, &mut outputs, String::new(rt.alloc()), 200)?;
    are_created(&rt, &mut outputs, "./".repeat(rt.alloc(), 1950)?, 195)?;
    for name in NAMES {
        is_created(&rt, &mut outputs, *name)?;
    }
    Ok(())
}

/// Writes these bytes to a new output at the path in pieces of 12,288, and fails unless the file has them then.
fn holds_what_was_written<R: Files<File = File> + AllocGlobal + Abort>(
    rt: &R,
    outputs: &mut SystemOutputs<'_, R>,
    path: &str,
    bytes: &[u8],
) -> Result<(), Fail> {
    let mut output = outputs.create(path)?;
    for piece in bytes.chunks(12288) {
        put(&mut output, piece)?;
    }
    outputs.close(path, output)?;
    let file = fs::read(rt, path)?;
    assert!(rt; file.as_slice() == bytes, "{} bytes", bytes.len());
    Ok(())
}

/// Outputs of no byte, of few, and of about a piece, a buffer of 64 KiB and two buffers, one after the other.
#[test]
fn outputs_hold_what_was_written(rt: HostRuntime) -> Result<(), Fail> {
    const LENS: &[usize] = &[
        0, 1, 2, 997, 4096, 12287, 12288, 12289, 65535, 65536, 65537, 98304, 131071, 131072, 131075,
    ];
    let path = "devices_outputs.bin";
    let bytes = distinct_bytes(rt.alloc(), 131075)?;
    let mut outputs = SystemOutputs::new(&rt, rt.alloc());
    for len in LENS {
        let written = bytes.as_slice().get(..*len).ok_or("too few bytes")?;
        holds_what_was_written(&rt, &mut outputs, path, written)?;
    }
    fs::remove_file(&rt, path)?;
    Ok(())
}

/// Outputs on a device that is full, one after the other: closing each of them errs, since what is held back can't be written.
#[test]
fn outputs_on_a_full_device(rt: HostRuntime) -> Result<(), Fail> {
    let path = "/dev/full";
    assert!(rt; !fs::metadata(&rt, path)?.is_file(), "{path} is no device");
    let mut outputs = SystemOutputs::new(&rt, rt.alloc());
    for n in 1..=5 {
        let mut output = outputs.create(path)?;
        put(&mut output, b"a")?;
        assert!(rt; outputs.close(path, output).is_err(), "output {n}");
    }
    Ok(())
}
