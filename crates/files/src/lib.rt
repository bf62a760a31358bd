// What the programs share: PROGRAM SHEET JOURNAL, and PROGRAM WORKLIST with numbers.
//
// The first 33,959 bytes of a sheet decide as the whole does. A journal has at most 262,143 bytes, and so has a worklist; a longer one fills
// its buffer, and is refused whole.
//
// Nothing here allocates. What a program says of a failure goes to the writer `err`, its standard error; where that cannot be written,
// nobody is told.
#![tactic(auto)]

ghost use Rattle.std.specs.Prelude.{◌<◌, ◌≤◌, ◌≡◌, length, IfSome};

use std::env::{Env, FillError};
use std::io::{Read, Write};
use std::{fs, io, str};
use text::put_pair;

pub const SHEET: usize = 33959;

pub const JOURNAL: usize = 262144;

// Linux's number for an argument that is longer than any path.
const NAME_TOO_LONG: i32 = 36;

// How many bytes of each file were read.
#[derive(Clone, Copy)]
pub struct Files {
    pub sheet: usize,
    pub journal: usize,
}

// Zeros, for a journal, a worklist, or a text as long.
pub fn buffer() -> [u8; JOURNAL]
    ensures { 262144 ≡ length result }
{
    [0; JOURNAL]
}

// Writes a line: what failed, a colon and why. The library puts the system's number behind its words, and that is left out.
fn fail<E: Write>(err: &mut E, what: &[u8], error: &io::Error) {
    let mut text = [0u8; 128];
    let mut rest: &mut [u8] = &mut text;
    let _ = write!(rest, "{error}");
    let words = str::from_utf8(&text).unwrap_or("");
    let words = match words.split_once(" (os error ") {
        Some((words, _)) => words,
        None => words.trim_end_matches('\0'),
    };
    let _ = err.write_all(what);
    let _ = err.write_all(b": ");
    let _ = err.write_all(words.as_bytes());
    let _ = err.write_all(b"\n");
}

// Opens a file. A path is text.
fn open_path<R: fs::Files>(rt: &R, path: &[u8]) -> io::Result<R::File> {
    match str::from_utf8(path) {
        Ok(path) => fs::open(rt, path),
        Err(_) => Err(io::Error::from(io::ErrorKind::InvalidFilename)),
    }
}

// Opens the file that argument i names. Where there is no such argument it says the usage, and where the file cannot be opened why.
fn open<R: fs::Files + Env, E: Write>(
    rt: &R,
    err: &mut E,
    program: &[u8],
    usage: &[u8],
    i: usize,
) -> Option<R::File> {
    let mut path = [0u8; 4096];
    let length = match rt.arg(i, &mut path) {
        Ok(length) => length,
        Err(FillError::NotPresent) => {
            let _ = err.write_all(usage);
            return None;
        }
        Err(FillError::TooLong) => {
            fail(err, program, &io::Error::from_raw_os_error(NAME_TOO_LONG));
            return None;
        }
    };
    match open_path(rt, &path[..length]) {
        Ok(file) => Some(file),
        Err(error) => {
            fail(err, &path[..length], &error);
            None
        }
    }
}

// Reads until the text is full, the input ends or a read fails. Answers how many bytes it read. Kept a `while`: how far a read gets is the
// reader's, which no range or iterator gives.
pub fn read_full<R: Read>(reader: &mut R, text: &mut [u8]) -> usize
    ensures { result ≤ length text.old }
{
    let mut done = 0;
    while done < text.len() {
        match reader.read(&mut text[done..]) {
            Ok(count) if count > 0 => done += count,
            _ => break,
        }
    }
    done
}

// `read_full` ends at a read that fails as it does at the file's end: says why the next read fails, where it does.
fn is_readable<R: Read, E: Write>(err: &mut E, program: &[u8], file: &mut R) -> bool {
    let mut next = [0u8; 1];
    match file.read(&mut next) {
        Ok(_) => true,
        Err(error) => {
            fail(err, program, &error);
            false
        }
    }
}

// Reads an open file, as far as it fits, and answers how many bytes it read. Where it cannot be read, says why on standard error.
fn read_open<R: Read + Drop, E: Write>(
    err: &mut E,
    program: &[u8],
    mut file: R,
    text: &mut [u8],
) -> Option<usize>
    ensures { IfSome result (λ count. count ≤ length text.old) }
{
    let count = read_full(&mut file, text);
    is_readable(err, program, &mut file).then_some(count)
}

// Reads the file that argument i names, likewise.
pub fn read_file<R: fs::Files + Env, E: Write>(
    rt: &R,
    err: &mut E,
    program: &[u8],
    usage: &[u8],
    i: usize,
    text: &mut [u8],
) -> Option<usize>
    ensures { IfSome result (λ count. count ≤ length text.old) }
{
    let file = open(rt, err, program, usage, i)?;
    read_open(err, program, file, text)
}

// Reads the files that the first two arguments name. Both are opened before one is read, and both are read before one that cannot be read
// counts.
pub fn read_both<R: fs::Files + Env, E: Write>(
    rt: &R,
    err: &mut E,
    program: &[u8],
    usage: &[u8],
    sheet: &mut [u8],
    journal: &mut [u8],
) -> Option<Files>
    ensures { IfSome result
        (λ files. (files.sheet ≤ length sheet.old) × (files.journal ≤ length journal.old)) }
{
    let sheet_file = open(rt, err, program, usage, 1)?;
    let journal_file = open(rt, err, program, usage, 2)?;
    let sheet = read_open(err, program, sheet_file, sheet);
    let journal = read_open(err, program, journal_file, journal);
    Some(Files {
        sheet: sheet?,
        journal: journal?,
    })
}

// Prints a text on `out`, the standard output; where that fails, says why.
pub fn put<O: Write, E: Write>(out: &mut O, err: &mut E, program: &[u8], text: &[u8]) {
    if let Err(error) = out.write_all(text) {
        fail(err, program, &error);
    }
}

// Prints one line, a refusal's number and its line, on the file.
pub fn refuse<W: Write>(file: &mut W, refusal: u32, line: u32)
    requires { (refusal < 1000000) × (line < 1000000) }
{
    let mut row = [0u8; 13];
    put_pair(&mut row, refusal, line);
    let _ = file.write_all(&row);
}
