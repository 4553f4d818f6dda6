//! Files that are made of others.

use std::alloc::{AllocError, Global};

/// The file with these bytes in place of its own from an offset on.
pub fn patched(alloc: Global, file: &[u8], at: usize, patch: &[u8]) -> Result<Vec<u8>, AllocError> {
    let mut all = Vec::from_slice(alloc, file)?;
    for (i, byte) in patch.iter().enumerate() {
        if let Some(place) = all.as_mut_slice().get_mut(at.saturating_add(i)) {
            *place = *byte;
        }
    }
    Ok(all)
}

/// A file that has this count, and then as many of a variable, after other bytes.
pub fn repeated(
    alloc: Global,
    before: &[u8],
    variable: &[u8],
    count: u32,
) -> Result<Vec<u8>, AllocError> {
    let mut bytes = Vec::from_slice(alloc, before)?;
    bytes.extend_from_slice(&count.to_be_bytes())?;
    for _ in 0..count {
        bytes.extend_from_slice(variable)?;
    }
    Ok(bytes)
}
