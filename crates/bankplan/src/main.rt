// The program: a sheet on standard input, and on standard output its listing, or one line with the refusal's number and line.
//
// What is printed is proved: `print` gives the program's text for the bytes read, and the first 33,959 bytes of a file give the
// same text as the whole file (`program-bounded`). That the bytes come from standard input and go to standard output is not: no
// contract speaks of that. `read_full` reads on until its buffer is full or the input ends, and `write_all` writes all.
#![tactic(auto)]

use files::{SHEET, read_full};
use listing::print::print;
use std::io::Write;

fn main(rt: HostRuntime) {
    let mut sheet = [0u8; SHEET];
    let size = read_full(&mut rt.stdin(), &mut sheet);
    let mut text = [0u8; 4096];
    let length = print(&sheet[..size], &mut text);
    let _ = rt.stdout().write_all(&text[..length]);
}
