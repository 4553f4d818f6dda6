//! What texts give: a fault, or a dataset, which is written line by line so that it can be compared with a text.

use cdl_parse::{CdlKind, parse};
use nc_base::{Att, Dataset, Dim, Sequence, Var, Version};
use std::alloc::{AllocError, Global};
use std::process::Abort;

/// The versions.
pub const VERSIONS: &[Version] = &[Version::Cdf1, Version::Cdf2, Version::Cdf5];

/// The versions without the five types of CDF-5.
pub const OLD_VERSIONS: &[Version] = &[Version::Cdf1, Version::Cdf2];

/// The version with all types.
pub const CDF5: &[Version] = &[Version::Cdf5];

/// Texts that differ in one part. A row has the part, the mark `|`, and what is said of the text; in both, the mark `^` stands for a line
/// feed. A line that begins with `# ` is a comment. (One text is proved in a tenth of the time that a slice of rows takes.)
#[derive(Clone, Copy)]
pub struct Texts {
    pub versions: &'static [Version],
    /// What stands before the part and after it.
    pub around: (&'static str, &'static str),
    /// What is said of a dataset before and after what the row of its part says.
    pub said: (&'static str, &'static str),
    /// Rows of texts that give a dataset.
    pub given: &'static [u8],
    /// Rows of texts that are refused, with the line and the kind of the fault.
    pub refused: &'static [u8],
}

/// No texts. Each part would be a whole text of all versions.
pub const WHOLE: Texts = Texts {
    versions: VERSIONS,
    around: ("", ""),
    said: ("", ""),
    given: b"",
    refused: b"",
};

/// Fails unless each of the texts gives what its row says.
pub fn check(rt: &impl Abort, alloc: Global, all: &[Texts]) -> Result<(), AllocError> {
    for texts in all {
        check_rows(rt, alloc, texts, texts.said, texts.given)?;
        check_rows(rt, alloc, texts, ("", ""), texts.refused)?;
    }
    Ok(())
}

/// Fails unless the texts of these rows give what the rows say, with this before and after it.
fn check_rows(
    rt: &impl Abort,
    alloc: Global,
    texts: &Texts,
    said: (&str, &str),
    rows: &[u8],
) -> Result<(), AllocError> {
    for row in rows.split(|byte| *byte == b'\n') {
        if let Some((part, want)) = halves(rt, row) {
            let text = between(alloc, texts.around, part)?;
            let want = between(alloc, said, want)?;
            gives_in_each(rt, alloc, texts.versions, text.as_slice(), want.as_slice())?;
        }
    }
    Ok(())
}

/// The part of a row and what is said of it; or none if the row is empty or a comment. Fails on any other row.
pub fn halves<'a>(rt: &impl Abort, row: &'a [u8]) -> Option<(&'a [u8], &'a [u8])> {
    let Some(at) = row.iter().position(|byte| *byte == b'|') else {
        assert!(rt; row.is_empty() || row.starts_with(b"# "), "{row:?}");
        return None;
    };
    Some((&row[..at], &row[at + 1..]))
}

/// The part of a row, with line feeds for its marks, between two texts.
pub fn between(alloc: Global, around: (&str, &str), part: &[u8]) -> Result<Vec<u8>, AllocError> {
    let mut text = Vec::from_slice(alloc, around.0.as_bytes())?;
    for byte in part {
        text.push(if *byte == b'^' { b'\n' } else { *byte })?;
    }
    text.extend_from_slice(around.1.as_bytes())?;
    Ok(text)
}

/// Fails unless the text gives this in each of these versions.
pub fn gives_in_each(
    rt: &impl Abort,
    alloc: Global,
    versions: &[Version],
    text: &[u8],
    want: &[u8],
) -> Result<(), AllocError> {
    for version in versions {
        gives(rt, alloc, *version, text, want)?;
    }
    Ok(())
}

/// Fails unless the text gives this, as `said` says it.
pub fn gives(
    rt: &impl Abort,
    alloc: Global,
    version: Version,
    text: &[u8],
    want: &[u8],
) -> Result<(), AllocError> {
    let found = said(alloc, version, text)?;
    assert!(rt; found.as_bytes() == want, "{found}, {version:?}: {text:?}");
    Ok(())
}

/// The parts, one after the other.
pub fn joined(alloc: Global, parts: &[&str]) -> Result<String, AllocError> {
    let mut text = String::new(alloc);
    for part in parts {
        text.push_str(*part)?;
    }
    Ok(text)
}

/// Appends the word, after a space if it isn't the first one.
pub fn push_word(said: &mut String, word: &str) -> Result<(), AllocError> {
    if !said.is_empty() {
        said.push(' ')?;
    }
    Ok(said.push_str(word)?)
}

/// What the text gives: its dataset, or its fault with its line.
fn said(alloc: Global, version: Version, text: &[u8]) -> Result<String, AllocError> {
    match parse(alloc, text, version) {
        Ok(dataset) if dataset.header.version == version => dataset_said(alloc, &dataset),
        Ok(_) => String::from_str(alloc, "another version"),
        Err(fault) => fault_said(alloc, fault.line, fault.kind),
    }
}

/// The fault: its line and its kind.
pub fn fault_said(alloc: Global, line: u64, kind: CdlKind) -> Result<String, AllocError> {
    format!(in alloc; "{line} {kind:?}")
}

/// The dataset: its number of records, its dimensions, its attributes, its variables and their values, each on a line of its own.
fn dataset_said(alloc: Global, dataset: &Dataset) -> Result<String, AllocError> {
    let header = &dataset.header;
    let mut said = format!(in alloc; "{:?}", header.numrecs)?;
    push_dims(alloc, &mut said, header.dims.as_slice())?;
    push_atts(alloc, &mut said, b"", header.gatts.as_slice())?;
    push_vars(alloc, &mut said, header.vars.as_slice())?;
    push_arrays(alloc, &mut said, dataset.arrays.as_slice())?;
    Ok(said)
}

/// Appends the dimensions: the name of each and its length, which is 0 for the record dimension.
fn push_dims(alloc: Global, said: &mut String, dims: &[Dim]) -> Result<(), AllocError> {
    for dim in dims {
        let name = dim.name.as_slice().escape_ascii();
        let line = format!(in alloc; "\n{name} = {}", dim.len)?;
        said.push_str(line.as_str())?;
    }
    Ok(())
}

/// Appends the attributes of the variable of this name, or of the dataset if the name is empty.
fn push_atts(alloc: Global, said: &mut String, of: &[u8], atts: &[Att]) -> Result<(), AllocError> {
    for att in atts {
        let of = of.escape_ascii();
        let name = att.name.as_slice().escape_ascii();
        let vals = att.vals.as_slice().escape_ascii();
        let line = format!(in alloc; "\n{of}:{name} {:?} \"{vals}\"", att.ty)?;
        said.push_str(line.as_str())?;
    }
    Ok(())
}

/// Appends the variables, each with its attributes.
fn push_vars(alloc: Global, said: &mut String, vars: &[Var]) -> Result<(), AllocError> {
    for var in vars {
        let shape = shape_said(alloc, var)?;
        said.push_str(shape.as_str())?;
        push_atts(alloc, said, var.name.as_slice(), var.atts.as_slice())?;
    }
    Ok(())
}

/// The variable without its attributes.
fn shape_said(alloc: Global, var: &Var) -> Result<String, AllocError> {
    let name = var.name.as_slice().escape_ascii();
    let dimids = var.dimids.as_slice();
    match var.begin_at {
        0 => format!(in alloc; "\n{name} {:?} {dimids:?}", var.ty),
        at => format!(in alloc; "\n{name} begins at {at}"),
    }
}

/// Appends the values of the variables.
fn push_arrays(
    alloc: Global,
    said: &mut String,
    arrays: &[Sequence<u8>],
) -> Result<(), AllocError> {
    for array in arrays {
        let line = format!(in alloc; "\n= \"{}\"", array.as_slice().escape_ascii())?;
        said.push_str(line.as_str())?;
    }
    Ok(())
}
