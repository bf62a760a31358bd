// Reading a journal: one line, and whether all lines are of the form.
ghost use Rattle.std.specs.Prelude.{◌≡◌, ◌+◌, ◌≤◌, MatchOption, length, drop};
ghost use Rattle.rules.specs.Refusal.{malformed};
ghost use Rattle.rules.specs.Read.{gives, refuses, number_at};
ghost use Rattle.rules.specs.Journal.{numbers_at, list_at, call_at, call_line, journal};
ghost use Rattle.journal.specs.Entry.{listed, entry_as, list_as, fault_of};

use fields::{Field, ends_at, field_at};

// A list of instruments, as a call gives it: how many of its numbers are kept, and those, zeros after them, in a row of fixed size since
// there is no heap. The first 25 are kept: a longer list is longer than any sheet takes, and so are they.
#[derive(Clone, Copy)]
pub struct Instruments {
    pub count: usize,
    pub numbers: [u32; 25],
}

impl Instruments {
    // The numbers that are kept.
    pub fn kept(&self) -> &[u32]
        requires { self.now.count ≤ length self.now.numbers }
        ensures { result.now ≡ listed self.now }
    {
        &self.numbers[..self.count]
    }
}

// A call of a journal's line.
#[derive(Clone, Copy)]
pub enum Call {
    Add { minutes: u32, list: Instruments },
    Withdraw(u32),
    Requalify { batch: u32, list: Instruments },
    MoveTo { batch: u32, instrument: u32 },
    Start(u32),
    Review,
    Trial(u32),
    Balance(u32),
    Settle(u32),
}

// The number of the field at at.
fn number_at(s: &[u8], at: usize) -> Option<u32>
    ensures { MatchOption result (number_at (drop at s.now) ≡ refuses malformed)
        (λ v. (number_at (drop at s.now) ≡ gives v (drop (at + 6) s.now)) × (at + 6 ≤ length s.now)) }
{
    match field_at(s, at) {
        Field::Value(number) => Some(number),
        _ => None,
    }
}

// A list of count numbers, from at on, and where what follows starts. Each number is read, and the first 25 are kept.
fn numbers_at(s: &[u8], at: usize, count: usize) -> Option<(Instruments, usize)>
    requires { at ≤ length s.now }
    ensures { result ≡ list_as (length s.now) (numbers_at count (drop at s.now)) }
{
    let mut numbers = [0; 25];
    let mut next = at;
    for k in 0..count {
        let number = number_at(s, next)?;
        if k < 25 {
            numbers[k] = number;
        }
        next += 6;
    }
    let count = count.min(25);
    Some((Instruments { count, numbers }, next))
}

// How many numbers, and those numbers.
fn list_at(s: &[u8], at: usize) -> Option<(Instruments, usize)>
    requires { at ≤ length s.now }
    ensures { result ≡ list_as (length s.now) (list_at (drop at s.now)) }
{
    let count = number_at(s, at)?;
    numbers_at(s, at + 6, count as usize)
}

// A call of a kind, a number in the text, from its own numbers on, and where what follows starts.
fn call_at(s: &[u8], at: usize, kind: u32) -> Option<(Call, usize)>
    requires { at ≤ length s.now }
    ensures { result ≡ entry_as (length s.now) (call_at kind (drop at s.now)) }
{
    match kind {
        1 => {
            let minutes = number_at(s, at)?;
            let (list, next) = list_at(s, at + 6)?;
            Some((Call::Add { minutes, list }, next))
        }
        2 => {
            let batch = number_at(s, at)?;
            Some((Call::Withdraw(batch), at + 6))
        }
        3 => {
            let batch = number_at(s, at)?;
            let (list, next) = list_at(s, at + 6)?;
            Some((Call::Requalify { batch, list }, next))
        }
        4 => {
            let batch = number_at(s, at)?;
            let instrument = number_at(s, at + 6)?;
            Some((Call::MoveTo { batch, instrument }, at + 12))
        }
        5 => Some((Call::Review, at)),
        6 => {
            let level = number_at(s, at)?;
            Some((Call::Trial(level), at + 6))
        }
        7 => {
            let entries = number_at(s, at)?;
            Some((Call::Balance(entries), at + 6))
        }
        8 => {
            let entries = number_at(s, at)?;
            Some((Call::Settle(entries), at + 6))
        }
        9 => {
            let batch = number_at(s, at)?;
            Some((Call::Start(batch), at + 6))
        }
        _ => None,
    }
}

// The call of the line that starts at at, and where the next line starts.
pub fn entry_at(s: &[u8], at: usize) -> Option<(Call, usize)>
    requires { at ≤ length s.now }
    ensures { result ≡ entry_as (length s.now) (call_line (drop at s.now)) }
{
    let kind = number_at(s, at)?;
    let (call, end) = call_at(s, at + 6, kind)?;
    if ends_at(s, end) {
        Some((call, end + 1))
    } else {
        None
    }
}

// The first line that is not of the form.
pub fn fault_line(s: &[u8]) -> Option<usize>
    ensures { result ≡ fault_of (journal s.now) }
{
    let mut at = 0;
    let mut line = 1;
    // Kept a `while`: each line starts where the last one ended, which no range or iterator gives.
    while at < s.len() {
        let Some((_, next)) = entry_at(s, at) else {
            return Some(line);
        };
        at = next;
        line += 1;
    }
    None
}
