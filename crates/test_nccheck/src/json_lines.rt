//! The JSON objects of what is found in files.

use crate::runs::{lines_with, words_of};
use check_lines::put_json_lines;
use devices::{MemSource, SliceSink};
use nc_base::Sequence;
use nc_fields::ListFault;
use nc_findings::Filter;
use nc_report::{Report, Severity, check};
use std::alloc::Global;
use std::process::Abort;
use test_files::{file_of, hex_bytes};

/// The objects of files: blocks with an empty line between two. A block has the words of a file (`file_of`), and the objects of all that is
/// wrong or odd in it, if its path is `f`. A line that begins with `#` is a comment.
const OBJECTS: &str = r#"
CLEAN

# what is found, and what is expected in its place
CLEAN 83=0a
{"file":"f","offset":80,"severity":"error","kind":"bad-tag","path":"vars tag","found":"10","expected":"0 or 11"}

CLEAN ..344
{"file":"f","offset":344,"severity":"error","kind":"header-truncated","path":"var[4] \"q\" begin","found":"0","expected":"4 bytes"}

CLEAN 263=0100000000
{"file":"f","offset":264,"severity":"error","kind":"bad-shape","path":"var[3] \"h\" dimid[1]","found":"0","expected":"no record dimension here"}

UNSIGNED_FILLS 184=7fffffffffffffff
{"file":"f","offset":192,"severity":"error","kind":"header-truncated","path":"var[1] \"b\" att[0] \"r\" values","found":"48","expected":"73786976294838206456 bytes"}

FILLED_SHORTS 87=04
{"file":"f","offset":84,"severity":"violation","kind":"fill-value","path":"var[0] \"s\" att[0] \"_FillValue\" type","found":"4 (int)","expected":"3 (short), the variable's type"}

CLEAN 146=0008
{"file":"f","offset":144,"severity":"error","kind":"begin-in-header","path":"var[0] \"x\" begin","found":"8","expected":"at least 348, the end of the header"}
{"file":"f","offset":348,"severity":"note","kind":"gap","path":"data","found":"12 unused bytes before var[1] \"depth\""}

CLEAN 187=64
{"file":"f","offset":184,"severity":"error","kind":"overlap","path":"var[1] \"depth\" begin","found":"356","expected":"at least 360, the end of var[0] \"x\""}
{"file":"f","offset":364,"severity":"note","kind":"gap","path":"data","found":"4 unused bytes before the records"}

CLEAN 147=64 187=5c
{"file":"f","offset":184,"severity":"error","kind":"order","path":"var[1] \"depth\" begin","found":"348","expected":"at least 356, the begin of var[0] \"x\""}

COORDINATES 24=20000000 72=80000000 108=80000000
{"file":"f","offset":72,"severity":"error","kind":"large-variable","path":"var[0] \"x\"","found":"a slab of 2147483648 bytes","expected":"at most 2147483644"}
{"file":"f","offset":112,"severity":"error","kind":"overlap","path":"var[1] \"y\" begin","found":"124","expected":"at least 2147483764, the end of var[0] \"x\""}
{"file":"f","offset":132,"severity":"error","kind":"missing","path":"var[0] \"x\"","found":"132 bytes","expected":"at least 2147483772"}

CLEAN ..404
{"file":"f","offset":404,"severity":"error","kind":"missing","path":"var[3] \"h\" record 2","found":"404 bytes","expected":"at least 413"}

CLEAN ..432
{"file":"f","offset":416,"severity":"violation","kind":"trailing","path":"data","found":"432 bytes","expected":"416, or numrecs 4"}

# what is found alone
CLEAN ..0
{"file":"f","offset":0,"severity":"error","kind":"empty-file","path":"magic","found":"0 bytes"}

0=1f8b0800
{"file":"f","offset":0,"severity":"error","kind":"gzip","path":"magic","found":"0x1f8b"}

CLEAN 4=ffffffff
{"file":"f","offset":4,"severity":"violation","kind":"streaming","path":"numrecs","found":"the streaming mark, for 3"}

ONE_VARIABLE 27=02 71=05
{"file":"f","offset":68,"severity":"note","kind":"floating-type","path":"var[0] \"s\" type","found":"5 (float)"}

COORDINATES 84=78
{"file":"f","offset":84,"severity":"violation","kind":"duplicate-name","path":"var[1] \"x\" name","found":"the name of number 0"}

# neither of the two: names with a slash, with an accent after its letter, in Latin-1, with a line feed, with DEL, and with NULs
ESCAPED_NAMES 37=2f
{"file":"f","offset":36,"severity":"violation","kind":"name-characters","path":"var[0] \"d/ta\" name"}

ONE_VARIABLE 47=0365cc81
{"file":"f","offset":48,"severity":"violation","kind":"not-nfc","path":"var[0] \"é\" name"}

TWO_RECORDS 7=00 19=026de90000
{"file":"f","offset":20,"severity":"violation","kind":"name-characters","path":"dim[0] \"m\\351\" name"}

TWO_RECORDS 19=02610a
{"file":"f","offset":20,"severity":"error","kind":"bad-name","path":"dim[0] \"a\\n\" name"}

TWO_RECORDS 19=02617f
{"file":"f","offset":20,"severity":"error","kind":"bad-name","path":"dim[0] \"a\\177\" name"}

TWO_RECORDS 19=020061
{"file":"f","offset":20,"severity":"error","kind":"bad-name","path":"dim[0] \"\\000a\" name"}

# names with a quote and a backslash, and with the other quote, before padding
TWO_RECORDS 7=00 19=0361225c01
{"file":"f","offset":23,"severity":"violation","kind":"padding","path":"dim[0] \"a\\\"\\\\\" name padding","found":"0x01","expected":"0x00"}

TWO_RECORDS 7=00 19=0261270100
{"file":"f","offset":22,"severity":"violation","kind":"padding","path":"dim[0] \"a\\'\" name padding","found":"0x0100","expected":"0x0000"}
"#;

/// Paths of a file that is packed by gzip: the bytes of a path in hexadecimal, a bar, and the path in a string of JSON.
const PATHS: &str = r#"
2e2f61272f622e6e63|./a'/b.nc
225c2f08090a0c0d|\"\\/\b\t\n\f\r
00010b1e1f202e|\u0000\u0001\u000b\u001e\u001f .
c3a92ee282ac2ef09f8c8a|é.€.🌊
"#;

/// Returns true if a sink with room for so many bytes takes as many of these objects as fit.
fn are_put(file: &[u8], report: &Report, filter: &Filter, want: &[u8], room: usize) -> bool {
    let mut space = [0; 1024];
    let room = room.min(space.len());
    let mut sink = SliceSink::new(&mut space[..room], 7);
    let is_whole = put_json_lines(&mut sink, file, report, filter).is_ok();
    is_whole == (room == want.len()) && want.get(..room) == Some(sink.taken())
}

/// Fails unless these are the objects of what is found in a file of these bytes, at the level of notes, if its path is `file`. Sinks of
/// each length take as many bytes of them as fit.
fn expect_objects(
    rt: &impl Abort,
    alloc: Global,
    (file, bytes): (&[u8], &[u8]),
    objects: &str,
) -> Result<(), ListFault> {
    let report = check(alloc, &mut MemSource::new(bytes), &mut [0; 64])?;
    let filter = Filter {
        level: Severity::Note,
        ignored: Sequence::new(alloc),
    };
    for room in 0..=objects.len() {
        let is_right = are_put(file, &report, &filter, objects.as_bytes(), room);
        assert!(rt; is_right, "{room} bytes of {objects}");
    }
    Ok(())
}

/// Fails unless the file of this block has its objects.
fn expect_block(rt: &impl Abort, alloc: Global, block: &str) -> Result<(), ListFault> {
    let bytes = file_of(alloc, words_of(block, "{"))?;
    let objects = lines_with(alloc, block, "{")?;
    expect_objects(rt, alloc, (b"f", bytes.as_slice()), objects.as_str())
}

#[test]
fn files_have_their_objects(rt: HostRuntime) -> Result<(), ListFault> {
    for block in OBJECTS.split("\n\n") {
        expect_block(&rt, rt.alloc(), block)?;
    }
    Ok(())
}

/// Fails unless the path of these bytes, in hexadecimal, stands so in a string.
fn expect_path(rt: &impl Abort, alloc: Global, digits: &str, path: &str) -> Result<(), ListFault> {
    let file = hex_bytes(alloc, digits)?;
    let object = format!(in alloc;
        "{{\"file\":\"{path}\",\"offset\":0,\"severity\":\"error\",\"kind\":\"gzip\",\"path\":\"magic\",\"found\":\"0x1f8b\"}}\n"
    )?;
    expect_objects(rt, alloc, (file.as_slice(), b"\x1f\x8b"), object.as_str())
}

#[test]
fn paths_stand_in_strings(rt: HostRuntime) -> Result<(), ListFault> {
    for row in PATHS.split('\n') {
        if let Some((digits, path)) = row.split_once('|') {
            expect_path(&rt, rt.alloc(), digits, path)?;
        }
    }
    Ok(())
}
