//! The parts of texts.

use std::alloc::{AllocError, Global};

/// The first six cells of a row, which has this mark between two. Those that it lacks are empty.
pub fn cells_of(row: &str, mark: char) -> [&str; 6] {
    let mut cells = [""; 6];
    for (i, part) in row.split(mark).enumerate() {
        if i < 6 {
            cells[i] = part;
        }
    }
    cells
}

/// The parts of a text, which has this mark between two, such as the words of a command line.
pub fn parts_of<'a>(alloc: Global, text: &'a str, mark: char) -> Result<Vec<&'a str>, AllocError> {
    let mut parts = Vec::new(alloc);
    for part in text.split(mark) {
        parts.push(part)?;
    }
    Ok(parts)
}
