//! Files and bytes that the rows of a text say.

use crate::characters::*;
use crate::checked::*;
use crate::headers::*;
use crate::made::patched;
use crate::records::*;
use crate::values::*;
use std::alloc::{AllocError, Global};
use std::str;

/// Files that texts name.
static FILES: &[(&str, &[u8])] = &[
    ("ALL_NULS", ALL_NULS),
    ("CLEAN", CLEAN),
    ("COORDINATES", COORDINATES),
    ("EMPTY_LISTS", EMPTY_LISTS),
    ("ESCAPED_CHARACTERS", ESCAPED_CHARACTERS),
    ("ESCAPED_NAMES", ESCAPED_NAMES),
    ("FILLED_ROWS", FILLED_ROWS),
    ("FILLED_SHORTS", FILLED_SHORTS),
    ("FILL_OF_ANOTHER_TYPE", FILL_OF_ANOTHER_TYPE),
    ("FILL_OF_BYTES", FILL_OF_BYTES),
    ("HELD_NULS", HELD_NULS),
    ("HOSTILE_COUNT", HOSTILE_COUNT),
    ("LARGE_SLAB", LARGE_SLAB),
    ("LONGER_RECORDS", LONGER_RECORDS),
    ("LONG_LINE", LONG_LINE),
    ("LONG_ROW", LONG_ROW),
    ("LOW_BYTE", LOW_BYTE),
    ("MANY_HELD_NULS", MANY_HELD_NULS),
    ("NO_RECORDS", NO_RECORDS),
    ("ODD_HEADER", ODD_HEADER),
    ("ONE_VARIABLE", ONE_VARIABLE),
    ("ONE_VARIABLE_CDF2", ONE_VARIABLE_CDF2),
    ("ONE_VARIABLE_CDF5", ONE_VARIABLE_CDF5),
    ("PADDED_RECORDS", PADDED_RECORDS),
    ("RECORDS_OFF_BOUNDARY", RECORDS_OFF_BOUNDARY),
    ("RECORD_BYTES", RECORD_BYTES),
    ("RECORD_DIMS_APART", RECORD_DIMS_APART),
    ("ROWS_OF_NULS", ROWS_OF_NULS),
    ("ROWS_OF_NULS_AND_FILL", ROWS_OF_NULS_AND_FILL),
    ("SECOND_ROW_LACKING", SECOND_ROW_LACKING),
    ("SHORT_LINE", SHORT_LINE),
    ("SMALLEST", SMALLEST),
    ("SMALLEST_CDF5", SMALLEST_CDF5),
    ("STREAMED_HEADER", STREAMED_HEADER),
    ("STREAMED_RECORDS", STREAMED_RECORDS),
    ("TEXT_ATTRIBUTE", TEXT_ATTRIBUTE),
    ("THREE_VARIABLES", THREE_VARIABLES),
    ("TWO_RECORDS", TWO_RECORDS),
    ("TWO_RECORD_DIMS", TWO_RECORD_DIMS),
    ("UNPADDED_BESIDE_FIXED", UNPADDED_BESIDE_FIXED),
    ("UNSIGNED_FILLS", UNSIGNED_FILLS),
    ("UNSIGNED_RECORDS", UNSIGNED_RECORDS),
];

/// The file of some words, which have a space between two: its name, and what is changed in it, one change after the other. `4=80ff` puts
/// these bytes, in hexadecimal, at an offset, up to a greater length or not, and `..28` leaves this many bytes, with zeros for those that
/// it lacks.
pub fn file_of(alloc: Global, words: &str) -> Result<Vec<u8>, AllocError> {
    let mut bytes = Vec::new(alloc);
    for word in words.split(' ') {
        if let Some(len) = word.strip_prefix("..") {
            bytes.resize(len.parse().unwrap_or(0), 0)?;
        } else if let Some((at, digits)) = word.split_once('=') {
            let (at, change) = (at.parse().unwrap_or(0), hex_bytes(alloc, digits)?);
            bytes.resize(bytes.len().max(change.len().saturating_add(at)), 0)?;
            bytes = patched(alloc, bytes.as_slice(), at, change.as_slice())?;
        } else {
            let named = FILES.iter().find(|(name, _)| *name == word);
            bytes = Vec::from_slice(alloc, named.map_or(b"no such file", |(_, file)| *file))?;
        }
    }
    Ok(bytes)
}

/// The bytes that digits spell in hexadecimal. There may be spaces between them.
pub fn hex_bytes(alloc: Global, digits: &str) -> Result<Vec<u8>, AllocError> {
    let mut bytes = Vec::new(alloc);
    for word in digits.split(' ') {
        for pair in word.as_bytes().chunks(2) {
            let pair = str::from_utf8(pair).unwrap_or("");
            bytes.push(u8::from_str_radix(pair, 16).unwrap_or(0))?;
        }
    }
    Ok(bytes)
}

/// The bytes that the characters stand for, each for one: the mark `^` for a line feed, and `~` for a tab.
pub fn char_bytes(alloc: Global, chars: &str) -> Result<Vec<u8>, AllocError> {
    let mut bytes = Vec::new(alloc);
    for char in chars.chars() {
        bytes.push(match char {
            '^' => b'\n',
            '~' => b'\t',
            _ => (char as u32 % 256) as u8,
        })?;
    }
    Ok(bytes)
}
