// Texts of numbers in columns, written into a lent buffer `out` from index `at` on. The two stay apart: a struct of both would hold a loan and
// be made anew for each part of a line, and a writer of the rest alone leaves its caller the same sums of lengths.
#![tactic(auto)]

ghost use Rattle.std.specs.Prelude.{ℕ, ◌≡◌, [], ◌∷◌, ◌++◌, ◌+◌, ◌*◌, ◌^◌, ◌<◌, ◌≤◌, length, drop, All};
ghost use Rattle.std.proofs.Math.Seq.{paste};
ghost use Rattle.rules.specs.Render.{columns, fields, line};
ghost use Rattle.text.specs.Columns.{column};
ghost use Rattle.text.specs.Puts.{Puts};

// What a call with a lent buffer answers: the refusal's number, 0 for none, and its line, 0 for none and for 9; and how many bytes the
// text has, 0 on a refusal. It is of numbers alone, since the exported C functions answer it as it is.
#[repr(C)]
#[derive(Clone, Copy)]
pub struct Hosted {
    pub refusal: u32,
    pub line: usize,
    pub length: usize,
}

// A blank, or the last digit of `rest`, the part of a number before its last `done` columns.
fn next_column(done: usize, rest: u64) -> u8
    ensures { result ≡ column done rest }
{
    if done > 0 && rest == 0 {
        b' '
    } else {
        b'0' + (rest % 10) as u8
    }
}

// Writes `v` right-justified in `width` columns.
pub fn put_columns(out: &mut [u8], at: usize, width: usize, v: u64)
    requires { (at + width ≤ length out.old) × (width ≤ 12) × (v < 10 ^ width) }
    ensures { out.new ≡ paste out.old at (columns width v) width }
{
    let mut rest = v;
    for done in 0..width {
        out[at + width - (done + 1)] = next_column(done, rest);
        rest /= 10;
    }
}

// Ends a line.
pub fn put_end(out: &mut [u8], at: usize)
    requires { at + 1 ≤ length out.old }
    ensures { out.new ≡ paste out.old at (10 ∷ []) 1 }
{
    out[at] = b'\n';
}

// Writes a field for each number: six columns.
pub fn put_fields<T: Copy + Into<u64>>(out: &mut [u8], at: usize, numbers: &[T])
    requires room { at + 6 * length numbers.now ≤ length out.old }
    requires six_columns { All (λ x. (v : ℕ) → T.converts x v → v < 1000000) numbers.now }
    ensures { Puts T.converts fields numbers.now out.old at out.new }
{
    for (i, x) in numbers.iter().enumerate() {
        put_columns(out, at + 6 * i, 6, (*x).into());
    }
}

// Writes a line of numbers, a field each.
pub fn put_line<T: Copy + Into<u64>>(out: &mut [u8], at: usize, numbers: &[T])
    requires room { at + (6 * length numbers.now + 1) ≤ length out.old }
    requires six_columns { All (λ x. (v : ℕ) → T.converts x v → v < 1000000) numbers.now }
    ensures { Puts T.converts line numbers.now out.old at out.new }
{
    put_fields(out, at, numbers);
    put_end(out, at + 6 * numbers.len());
}

// Writes how many instruments a list has, the list, and a line's end.
pub fn put_list(out: &mut [u8], at: usize, list: &[u8])
    requires { (at + (6 * (length list.now + 1) + 1) ≤ length out.old) × (length list.now ≤ 24) }
    ensures { out.new
        ≡ paste out.old at (line (length list.now ∷ list.now)) (6 * (length list.now + 1) + 1) }
{
    put_columns(out, at, 6, list.len() as u64);
    put_line(out, at + 6, list);
}

// Writes a line of two fields at the front of `out`: line 1 of a sheet, or a refusal's number and its line.
pub fn put_pair(out: &mut [u8], a: u32, b: u32)
    requires { (13 ≤ length out.old) × (a < 1000000) × (b < 1000000) }
    ensures { out.new ≡ line (a ∷ b ∷ []) ++ drop 13 out.old }
{
    put_line(out, 0, &[a, b]);
}
