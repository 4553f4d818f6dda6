//! Texts that give no file: nothing of it is written.

use devices::SliceSink;
use nc_base::Version;
use ncgen::{GenFault, generate, prepare};
use std::alloc::{AllocError, Global};
use std::process::Abort;
use std::test::*;
use test_files::char_bytes;

/// Fails unless the text gives the fault of these words where it is prepared, and where it is generated, with nothing written.
fn is_refused(rt: &impl Abort, alloc: Global, version: Version, text: &[u8], words: &str) {
    let mut into = [0; 16];
    let mut sink = SliceSink::new(&mut into, 16);
    let fault = prepare(alloc, text, version).err();
    let answer = generate(alloc, text, version, &mut sink).err();
    assert!(rt; has_words(alloc, fault, words), "{words} in {version:?}");
    let is_same = answer == fault && sink.taken().is_empty();
    assert!(rt; is_same, "{words} in {version:?}");
}

/// Returns true if there is a fault, which is displayed as these words.
fn has_words(alloc: Global, fault: Option<GenFault>, words: &str) -> bool {
    match fault {
        Some(fault) => format!(in alloc; "{fault}").is_ok_and(|said| said.as_str() == words),
        None => false,
    }
}

/// Returns true if the text is prepared.
fn is_prepared(alloc: Global, text: &[u8], version: Version) -> bool {
    prepare(alloc, text, version).is_ok()
}

/// Texts with a fault in each version: the words of the fault, and the text, with `^` for a line feed.
const FAULTS: &str = r#"
line 5: bad number|netcdf t {^dimensions: x = 3 ;^variables: short s(x) ;^data:^ s = 1.5 ;^}^
line 5: number out of range|netcdf t {^dimensions: x = 3 ;^variables: short s(x) ;^data:^ s = 40000 ;^}^
line 5: too many values|netcdf t {^dimensions: x = 3 ;^variables: short s(x) ;^data:^ s = 1, 2, 3, 4 ;^}^
line 4: string too long|netcdf t {^dimensions: x = 2, y = 1 ;^variables: char c(x, y) ;^data: c = "a", "ab" ;^}^
line 2: zero dimension|netcdf t {^dimensions: x = 0 ;^data: q = 1 ;^}^
# the second variable would begin past the offsets of CDF-1
line 4: number out of range|netcdf t {^dimensions: x = 2147483647 ;^variables: byte a(x), b(x) ;^data: a = 128 ;^}^
line 4: too large|netcdf t {^dimensions: x = 2147483647 ;^variables: byte a(x), b(x), c(x, x) ;^}^
"#;

#[test]
fn texts_that_give_no_file(rt: HostRuntime) -> Result<(), AllocError> {
    // 116 bytes of header: after 2147483528 bytes of values the next ones begin at 2147483644, and after 4 more at 2^31
    const LAST: &[u8] = b"netcdf t { dimensions: x = 2147483528 ; variables: byte a(x), b(x) ; }";
    const NEXT: &[u8] = b"netcdf t { dimensions: x = 2147483529 ; variables: byte a(x), b(x) ; }";
    let alloc = rt.alloc();
    for row in FAULTS.split('\n') {
        if let Some((words, text)) = row.split_once('|') {
            let text = char_bytes(alloc, text)?;
            for version in [Version::Cdf1, Version::Cdf2, Version::Cdf5] {
                is_refused(&rt, alloc, version, text.as_slice(), words);
            }
        }
    }
    is_refused(&rt, alloc, Version::Cdf1, NEXT, "offset too large");
    assert!(rt; is_prepared(alloc, LAST, Version::Cdf1));
    assert!(rt; is_prepared(alloc, NEXT, Version::Cdf2));
    Ok(())
}
