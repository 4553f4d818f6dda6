//! What the tests have in common: runs over files in memory, and the lines of a block.

use devices::{CountedRead, Opener, SliceSink};
use nccheck::run_with;
use std::alloc::{AllocError, Global};
use std::io;
use std::io::{ErrorKind, Read};

/// How many bytes standard output takes where it doesn't fail.
pub const ROOM: usize = 1024;

/// The words of a command line, how many bytes standard output takes, the status of the run, and what it writes to standard output and to
/// standard error.
pub type Run<'a> = (&'a [&'a str], usize, u8, &'a [u8], &'a [u8]);

/// Standard input: bytes, three a read, and after them the end, or an error.
#[derive(Clone, Copy)]
pub struct Input<'a> {
    pub bytes: &'a [u8],
    pub fails: bool,
}

impl Read for Input<'_> {
    fn read(&mut self, into: &mut [u8]) -> io::Result<usize> {
        if self.bytes.is_empty() && self.fails {
            return Err(ErrorKind::Other.into());
        }
        let n = into.len().min(3).min(self.bytes.len());
        let (first, rest) = self.bytes.split_at(n);
        into[..n].copy_from_slice(first);
        self.bytes = rest;
        Ok(n)
    }
}

/// Standard input of a run that doesn't read it.
pub const UNREAD: Input<'static> = Input {
    bytes: b"names\0",
    fails: false,
};

/// Returns true if the run over the files of this opener ends as wanted.
pub fn ends<P: Opener>(alloc: Global, files: &mut P, run: &Run<'_>, input: Input<'_>) -> bool {
    let (words, room, status, lines, trouble) = *run;
    let mut line_space = [0; ROOM];
    let mut trouble_space = [0; 512];
    let mut out = SliceSink::new(&mut line_space[..room.min(ROOM)], 7);
    let mut err = SliceSink::new(&mut trouble_space, 5);
    let mut input = CountedRead::new(input);
    let ended = run_with(files, alloc, words, &mut input, &mut out, &mut err);
    let lines = lines.get(..room).unwrap_or(lines);
    ended == status && out.taken() == lines && err.taken() == trouble
}

/// The lines of a block that begin so, each with a line feed, as they are.
pub fn lines_with(alloc: Global, block: &str, start: &str) -> Result<String, AllocError> {
    let mut text = String::new(alloc);
    for line in block.split('\n') {
        if line.starts_with(start) {
            text.push_str(line)?;
            text.push('\n')?;
        }
    }
    Ok(text)
}

/// The words of the file of a block: its first line that begins neither so nor with `#`.
pub fn words_of<'a>(block: &'a str, start: &str) -> &'a str {
    for line in block.split('\n') {
        if !line.is_empty() && !line.starts_with('#') && !line.starts_with(start) {
            return line;
        }
    }
    ""
}
