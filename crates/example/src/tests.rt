//! Variables that are opened by their names.

use crate::open::open_variable;
use crate::variable_fault::VariableFault;
use devices::{DripSource, FailWhen, MemSource, Source};
use nc_base::FormatFault;
use nc_file::HeadFault;
use std::alloc::{AllocError, Global};

/// Returns the index of the variable of this name, and how many bytes its values have.
fn opened<S: Source>(
    alloc: Global,
    source: &mut S,
    name: &[u8],
) -> Result<(usize, usize), VariableFault> {
    let mut buf = [0; 16];
    let variable = open_variable(alloc, source, &mut buf, name)?;
    let mut walk = variable.walk(source.len(), &mut buf);
    let mut len: usize = 0;
    for _ in 0..1000 {
        match walk.next(source) {
            Ok(Some(chunk)) => len = len.saturating_add(chunk.len()),
            _ => break,
        }
    }
    Ok((variable.index, len))
}

#[test]
fn variables_by_their_names(rt: HostRuntime) {
    const CUT: Result<(usize, usize), VariableFault> = Err(VariableFault::Header(HeadFault::Format(
        FormatFault::HeaderTruncated,
    )));
    const NONE: Result<(usize, usize), VariableFault> = Err(VariableFault::NoSuchVariable);
    static ROWS: &[(&[u8], &[u8], Result<(usize, usize), VariableFault>)] = &[
        (test_files::ONE_VARIABLE, b"s", Ok((0, 6))),
        // two records of an int, two of four ints, and an int
        (test_files::THREE_VARIABLES, b"a", Ok((0, 8))),
        (test_files::THREE_VARIABLES, b"b", Ok((1, 32))),
        (test_files::THREE_VARIABLES, b"c", Ok((2, 4))),
        // names of dimensions, and no name at all
        (test_files::THREE_VARIABLES, b"t", NONE),
        (test_files::THREE_VARIABLES, b"", NONE),
        (test_files::THREE_VARIABLES, b"ab", NONE),
        (b"CDF\x01\0\0", b"a", CUT),
    ];
    for (file, name, want) in ROWS {
        let found = opened(rt.alloc(), &mut MemSource::new(*file), *name);
        assert!(rt; found == *want, "{name:?}");
    }
    // each read of a header fails in turn
    for n in 0..80 {
        let mut source = DripSource::new(test_files::ONE_VARIABLE, 1, FailWhen::Read(n));
        let found = opened(rt.alloc(), &mut source, b"s");
        let failed = VariableFault::Header(HeadFault::ReadFailed);
        assert!(rt; found == Err(failed));
    }
}

/// Returns true if these are the words of the fault.
fn has_words(alloc: Global, fault: VariableFault, words: &str) -> Result<bool, AllocError> {
    Ok(format!(in alloc; "{fault}")?.as_str() == words)
}

/// The words stand in a contract, but it allows a call that errs.
#[test]
fn faults_of_variables_are_displayed(rt: HostRuntime) -> Result<(), AllocError> {
    let cut = VariableFault::Header(HeadFault::Format(FormatFault::HeaderTruncated));
    assert!(rt; has_words(rt.alloc(), cut, "header truncated")?);
    assert!(rt;
        has_words(
            rt.alloc(),
            VariableFault::NoSuchVariable,
            "no such variable"
        )?
    );
    Ok(())
}
