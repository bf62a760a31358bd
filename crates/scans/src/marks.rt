// Lists of machines as 24 marks, a byte each: whether one lies in another, a word of four marks at a time.
ghost use Rattle.std.specs.Prelude.{◌≡◌, ◌+◌, ◌≤◌, length};
ghost use Rattle.rules.specs.Fold.{pick, list_to};
ghost use Rattle.arrays.specs.Sets.{has};
ghost use Rattle.scans.specs.Marks.{word_at, LiesWithin};

use arrays::MACHINES;
use arrays::sets::is_in;
use std::array;

// How many words of four marks there are.
const WORDS: usize = 6;

// The word of the four marks from `at` on, the first of them lowest.
fn word_at(marks: &[u8], at: usize) -> u32
    requires { at + 4 ≤ length marks.now }
    ensures { result ≡ word_at marks.now at }
{
    u32::from_le_bytes([marks[at], marks[at + 1], marks[at + 2], marks[at + 3]])
}

// No word of the list's marks has a mark outside the group's.
pub fn lies_within(list: &[u8], group: &[u8]) -> bool
    requires { (length list.now ≡ 24) × (length group.now ≡ 24) }
    ensures { LiesWithin list.now group.now result }
{
    (0..WORDS).all(|k| word_at(list, k * 4) & !word_at(group, k * 4) == 0)
}

// The marks of a set of machines.
pub fn marks_of(x: u32) -> [u8; MACHINES]
    ensures { result ≡ list_to 24 (λ i. pick (has x i) 1 0) }
{
    array::from_fn(|i| u8::from(is_in(x, i)))
}
