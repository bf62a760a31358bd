// An answer's numbers, and the line that it is written as.
ghost use Rattle.std.specs.Prelude.{◌+◌, ◌*◌, ◌≤◌, ◌≡◌, true, length};
ghost use Rattle.std.proofs.Math.Seq.{paste};
ghost use Rattle.journal.specs.Answering.{answer_with, Whole, Extends, line_of, line_length, Fitting, AnswerFits, said};

use text::{put_columns, put_fields, put_line};

// The answer to a call: its numbers, how many they are, and whether they are settle's, of which one is wider. Entries past the last
// number are 0. The array is as long as it must be, since there is no heap: balance of a full sheet has the most numbers, which are 7, a
// group of 24, the count of records, and three for each of 200.
#[derive(Clone, Copy)]
pub struct Answer {
    pub size: usize,
    pub numbers: [u64; 632],
    pub settle: bool,
}

impl Answer {
    // The answer of some numbers.
    pub fn of(settle: bool, first: &[u64]) -> Answer
        requires { length first.now ≤ 632 }
        ensures { result ≡ answer_with first.now settle }
    {
        let mut answer = Answer {
            size: 0,
            numbers: [0; 632],
            settle,
        };
        answer.extend(first);
        answer
    }

    // Adds numbers behind.
    pub fn extend<T: Copy + Into<u64>>(&mut self, part: &[T])
        requires { (self.old.size + length part.now ≤ 632) × Whole self.old }
        ensures { Extends T.converts part.now self.old self.new }
    {
        for x in part {
            self.numbers[self.size] = (*x).into();
            self.size += 1;
        }
    }

    // How many bytes its line has.
    pub fn line_length(&self) -> usize
        requires { self.now.size ≤ 632 }
        ensures { result ≡ line_length self.now.settle self.now.size }
    {
        if self.settle {
            6 * self.size + 7
        } else {
            6 * self.size + 1
        }
    }

    // Writes its line.
    pub fn put(&self, out: &mut [u8], at: usize)
        requires { (at + line_length self.now.settle self.now.size ≤ length out.old) × AnswerFits self.now }
        ensures { out.new
            ≡ paste out.old at (line_of self.now.settle (said self.now)) (line_length self.now.settle self.now.size) }
    {
        let numbers = &self.numbers[..self.size];
        if self.settle {
            put_settle(out, at, numbers);
        } else {
            put_line(out, at, numbers);
        }
    }
}

// Writes the line of settle's answer: twelve columns for the moves.
fn put_settle(out: &mut [u8], at: usize, numbers: &[u64])
    requires { (at + (6 * length numbers.now + 7) ≤ length out.old) × Fitting true numbers.now }
    ensures { out.new
        ≡ paste out.old at (line_of true numbers.now) (6 * length numbers.now + 7) }
{
    put_fields(out, at, &numbers[..2]);
    put_columns(out, at + 12, 12, numbers[2]);
    put_line(out, at + 24, &numbers[3..]);
}
