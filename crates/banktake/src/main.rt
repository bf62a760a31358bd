// The program: a worklist's file, how many instruments there are and the calibration of each, and on standard output the file of the sheet
// that says the same.
//
//   banktake WORKLIST INSTRUMENTS CALIBRATION.. > SHEET
//
// Where something is refused, standard output gets nothing, so that no refusal is ever taken for a sheet; one line with the refusal's
// number and row goes to standard error.
//
// What is printed is proved: `take_into` gives it for the bytes and the numbers read, and every file fits its buffer (`take-fits`). That
// these come from the file and the arguments, and the text goes to standard output, is not: no contract speaks of that.
//
// A worklist of more than 262,143 bytes is refused whole, as 12 with row 0; what is wrong with the numbers comes before that.
#![tactic(auto)]

ghost use Rattle.std.specs.Prelude.{◌≡◌, ◌≤◌, length, IfSome};

use files::{JOURNAL, buffer, put, read_file, refuse};
use std::env::{Env, FillError};
use std::io::Write;
use worklist::row::number_at;
use written::take::take_into;

// How many arguments there are, the program's own name among them.
fn arg_count<R: Env>(rt: &R) -> usize {
    let mut text = [0u8; 1];
    for i in 0..usize::MAX {
        if let Err(FillError::NotPresent) = rt.arg(i, &mut text) {
            return i;
        }
    }
    usize::MAX
}

// Argument i, a number as a worklist has it. One that is missing or very long is none.
fn number_in<R: Env>(rt: &R, i: usize) -> Option<u32> {
    let mut text = [0u8; 4096];
    let length = rt.arg(i, &mut text).ok()?;
    let (value, rest) = number_at(&text[..length])?;
    rest.is_empty().then_some(value)
}

// The calibrations that are kept, and how many they are. Memory is fixed, so an array and its count stand side by side.
#[derive(Clone, Copy)]
struct Given {
    count: usize,
    list: [u32; 25],
}

// The arguments from number 3 on, where all are numbers. 25 are kept: no bank has so many.
fn calibrations<R: Env>(rt: &R, end: usize) -> Option<Given>
    ensures { IfSome result (λ given. (given.count ≤ 25) × (25 ≡ length given.list)) }
{
    let mut list = [0u32; 25];
    let mut count = 0;
    for i in 3..end {
        let value = number_in(rt, i)?;
        if count < list.len() {
            list[count] = value;
            count += 1;
        }
    }
    Some(Given { count, list })
}

// How many bytes of a worklist are judged: none of one that fills the buffer, which is refused like an empty one.
fn fitting(size: usize) -> usize
    requires { size ≤ 262144 }
    ensures { (result ≤ size) × (result ≤ 262143) }
{
    if size == JOURNAL { 0 } else { size }
}

fn main(rt: HostRuntime) {
    let mut out = rt.stdout();
    let mut err = rt.stderr();
    let usage = b"usage: banktake WORKLIST INSTRUMENTS CALIBRATION.. > SHEET\n";
    let (Some(instruments), Some(given)) = (number_in(&rt, 2), calibrations(&rt, arg_count(&rt)))
    else {
        let _ = err.write_all(usage);
        return;
    };
    let mut worklist = buffer();
    let Some(read) = read_file(&rt, &mut err, b"banktake", usage, 1, &mut worklist) else {
        return;
    };
    let mut text = [0u8; 33958];
    let taken = take_into(
        instruments,
        &given.list[..given.count],
        &worklist[..fitting(read)],
        &mut text,
    );
    if taken.refusal != 0 {
        let row = if read == JOURNAL {
            0
        } else {
            taken.line as u32
        };
        refuse(&mut err, taken.refusal, row);
        return;
    }
    put(&mut out, &mut err, b"banktake", &text[..taken.length]);
}
