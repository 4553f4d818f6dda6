//! Checks of files.

use devices::{DripSource, FailWhen};
use nc_fields::ListFault;
use nc_report::{Kind, check};
use std::alloc::AllocError;

/// A file with two variables of one name, which is longer than what is kept without an allocation.
const FILE: &[u8] = b"CDF\x01\0\0\0\0\
    \0\0\0\x0a\0\0\0\x01\
    \0\0\0\x01x\0\0\0\0\0\0\x03\
    \0\0\0\0\0\0\0\0\
    \0\0\0\x0b\0\0\0\x02\
    \0\0\0\x11station_elevation\0\0\0\
    \0\0\0\x01\0\0\0\0\0\0\0\0\0\0\0\0\0\0\0\x04\0\0\0\x0c\0\0\0\x94\
    \0\0\0\x11station_elevation\0\0\0\
    \0\0\0\x01\0\0\0\0\0\0\0\0\0\0\0\0\0\0\0\x04\0\0\0\x0c\0\0\0\xa0\
    \0\0\0\0\0\0\0\0\0\0\0\0\
    \0\0\0\0\0\0\0\0\0\0\0\0";

#[test]
fn check_of_equal_names(rt: HostRuntime) -> Result<(), AllocError> {
    let mut source = DripSource::new(FILE, 7, FailWhen::Never);
    match check(rt.alloc(), &mut source, &mut [0; 16]) {
        Ok(report) => {
            let findings = report.findings.as_slice();
            assert!(rt; findings.len() == 1);
            assert!(rt; findings[0].fact.kind() == Kind::DuplicateName);
            Ok(())
        }
        Err(fault) => {
            assert!(rt; fault == ListFault::OutOfMemory);
            Err(AllocError)
        }
    }
}
