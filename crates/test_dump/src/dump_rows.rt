//! Dumps of whole files: rows, and how a row is tried.

use devices::{DripSource, FailWhen, MemSink, Source};
use nc_base::Sequence;
use ncdump::{DumpFault, DumpOptions, dump};
use std::alloc::{AllocError, Global};
use std::process::Abort;
use test_files::cut;

/// A dump of a file, or of its first `len` bytes; what is shown of it, when reads fail, the words of the fault that it ends with, if it has
/// one, and the text that it writes. `chosen` has a comma between two names, or chooses none. `head` has the lines before the values.
#[derive(Clone, Copy)]
pub struct DumpRow<'a> {
    pub about: &'a str,
    pub bytes: &'a [u8],
    pub len: usize,
    pub head_only: bool,
    pub coords: bool,
    pub chosen: Option<&'a str>,
    pub width: usize,
    pub fail: FailWhen,
    pub fault: &'a str,
    pub head: &'a [u8],
    pub text: &'a [u8],
}

/// What rows have that say no more: all of a file, with all of its values, in lines of 80 bytes.
pub const WHOLE: DumpRow<'static> = DumpRow {
    about: "",
    bytes: b"",
    len: usize::MAX,
    head_only: false,
    coords: false,
    chosen: None,
    width: 80,
    fail: FailWhen::Never,
    fault: "",
    head: b"",
    text: b"",
};

/// A variable of three shorts, one of them missing.
pub const ONE_VARIABLE: DumpRow<'static> = DumpRow {
    about: "one variable",
    bytes: test_files::ONE_VARIABLE,
    head: b"netcdf t {\ndimensions:\n\tx = 3 ;\nvariables:\n\tshort s(x) ;\ndata:\n\n s =",
    text: b" 1, _, 3 ;\n}\n",
    ..WHOLE
};

/// The same in CDF-5.
pub const ONE_VARIABLE_CDF5: DumpRow<'static> = DumpRow {
    about: "one variable of CDF-5",
    bytes: test_files::ONE_VARIABLE_CDF5,
    ..ONE_VARIABLE
};

/// A record variable of bytes, whose slabs are not padded.
pub const RECORD_BYTES: DumpRow<'static> = DumpRow {
    about: "records that are not padded",
    bytes: test_files::RECORD_BYTES,
    head: b"netcdf t {\ndimensions:\n\tt = UNLIMITED ; // (3 currently)\nvariables:\n\tbyte b(t) ;\ndata:\n\n b =",
    text: b" 1, 2, 3 ;\n}\n",
    ..WHOLE
};

/// Two record variables with three records, whose slabs are padded.
pub const PADDED_RECORDS: DumpRow<'static> = DumpRow {
    about: "padded records",
    bytes: test_files::PADDED_RECORDS,
    head: b"netcdf t {\ndimensions:\n\tt = UNLIMITED ; // (3 currently)\nvariables:\n\tbyte b(t) ;\n\tshort s(t) ;\ndata:\n\n b =",
    text: b" 1, 2, 3 ;\n\n s = 4, 5, 6 ;\n}\n",
    ..WHOLE
};

/// One of three variables, with the records of another between its own.
pub const SELECTION: DumpRow<'static> = DumpRow {
    about: "a selection of rank three",
    bytes: test_files::THREE_VARIABLES,
    chosen: Some("b"),
    head: b"netcdf t {\ndimensions:\n\tt = UNLIMITED ; // (2 currently)\n\ty = 2 ;\n\tx = 2 ;\nvariables:\n\tint a(t) ;\n\tint b(t, y, x) ;\n\tint c ;\ndata:\n\n b =",
    text: b"\n  1, 2,\n  3, 4,\n  5, 6,\n  7, 8 ;\n}\n",
    ..WHOLE
};

/// NULs between two characters.
pub const HELD_NULS: DumpRow<'static> = DumpRow {
    about: "held back NULs",
    bytes: test_files::HELD_NULS,
    head: b"netcdf t {\ndimensions:\n\tx = 5 ;\nvariables:\n\tchar c(x) ;\ndata:\n\n c =",
    text: b" \"a\\000\\000b\" ;\n}\n",
    ..WHOLE
};

/// More NULs than a buffer of 16 bytes has.
pub const MANY_HELD_NULS: DumpRow<'static> = DumpRow {
    about: "many held back NULs",
    bytes: test_files::MANY_HELD_NULS,
    head: b"netcdf t {\ndimensions:\n\tx = 20 ;\nvariables:\n\tchar c(x) ;\ndata:\n\n c =",
    text: b" \"a\\000\\000\\000\\000\\000\\000\\000\\000\\000\\000\\000\\000\\000\\000\\000\\000\\000\\000b\" ;\n}\n",
    ..WHOLE
};

/// The options of a row, with the name `t`.
pub fn options_of(alloc: Global, row: &DumpRow<'_>) -> Result<DumpOptions, AllocError> {
    let chosen = match row.chosen {
        Some(names) => Some(names_of(alloc, names)?),
        None => None,
    };
    Ok(DumpOptions {
        file: String::new(alloc),
        name: Sequence::from_vec(Vec::from_slice(alloc, b"t")?),
        head_only: row.head_only,
        coords: row.coords,
        chosen,
        width: row.width,
    })
}

/// The names of a text, which has a comma between two.
fn names_of(alloc: Global, names: &str) -> Result<Sequence<Sequence<u8>>, AllocError> {
    let mut sequence = Sequence::new(alloc);
    if names.is_empty() {
        return Ok(sequence);
    }
    for name in names.split(',') {
        sequence.push(Sequence::from_vec(Vec::from_slice(alloc, name.as_bytes())?))?;
    }
    Ok(sequence)
}

/// The text of a row.
pub fn text_of(alloc: Global, row: &DumpRow<'_>) -> Result<Vec<u8>, AllocError> {
    let mut text = Vec::from_slice(alloc, row.head)?;
    text.extend_from_slice(row.text)?;
    Ok(text)
}

/// The words of the fault that a dump with these options ends with, if it has one, and the text that it writes.
#[derive(Clone, Copy)]
pub struct Want<'a> {
    pub options: &'a DumpOptions,
    pub fault: &'a str,
    pub text: &'a [u8],
}

/// Returns true if the answer is a fault that is displayed as these words, or success if there are none.
fn is_answer(alloc: Global, answer: Result<(), DumpFault>, words: &str) -> bool {
    match answer {
        Ok(()) => words.is_empty(),
        Err(fault) => format!(in alloc; "{fault}").is_ok_and(|said| said.as_str() == words),
    }
}

/// Returns true if the source is dumped so through a buffer of `buffer_len` bytes.
pub fn is_dumped<S: Source>(
    rt: &impl Abort,
    alloc: Global,
    source: &mut S,
    buffer_len: usize,
    want: &Want<'_>,
) -> bool {
    let mut space = [0; 4096];
    assert!(rt; 16 <= buffer_len && buffer_len <= 4096);
    let mut sink = MemSink::new(alloc);
    let buf = &mut space[..buffer_len];
    let answer = dump(alloc, source, want.options, buf, &mut sink);
    is_answer(alloc, answer, want.fault) && sink.as_slice() == want.text
}

/// Returns true if these bytes are dumped so through a buffer of `buffer_len` bytes, by reads that give at most so many bytes each.
pub fn is_dumped_in_steps(
    rt: &impl Abort,
    alloc: Global,
    (bytes, fail): (&[u8], FailWhen),
    (buffer_len, steps): (usize, &[usize]),
    want: &Want<'_>,
) -> bool {
    for step in steps {
        assert!(rt; 1 <= *step);
        let mut source = DripSource::new(bytes, *step, fail);
        if !is_dumped(rt, alloc, &mut source, buffer_len, want) {
            return false;
        }
    }
    true
}

/// Returns true if the bytes of the row, or the first `len` of them, are dumped so through a buffer of `buffer_len` bytes. If the dump ends
/// with an error, it has to be the same from a source that ends there but promises all of the file.
fn is_dumped_twice(
    rt: &impl Abort,
    alloc: Global,
    row: &DumpRow<'_>,
    buffer_len: usize,
    want: &Want<'_>,
) -> bool {
    let len = row.len.min(row.bytes.len());
    let given = (&row.bytes[..len], row.fail);
    let buffer = (buffer_len, [1, 3, 7, 4096].as_slice());
    if !is_dumped_in_steps(rt, alloc, given, buffer, want) {
        return false;
    }
    let ends_early = !row.fault.is_empty() && len < row.bytes.len();
    !ends_early || is_dumped(rt, alloc, &mut cut(row.bytes, len), buffer_len, want)
}

/// Fails unless the dump of the row is as it says, through buffers of several lengths.
pub fn expect_dump(rt: &impl Abort, alloc: Global, row: &DumpRow<'_>) -> Result<(), AllocError> {
    let text = text_of(alloc, row)?;
    let options = options_of(alloc, row)?;
    let want = Want {
        options: &options,
        fault: row.fault,
        text: text.as_slice(),
    };
    for buffer_len in [16, 17, 4096] {
        let is_right = is_dumped_twice(rt, alloc, row, buffer_len, &want);
        assert!(rt; is_right, "{}, {buffer_len} bytes", row.about);
    }
    Ok(())
}
