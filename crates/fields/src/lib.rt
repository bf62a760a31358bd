// What a text of numbers is read by: a field of six columns, gone through once from the front, and the LF that ends a line.
#![tactic(auto)]

ghost use Rattle.std.specs.Prelude.{◌≡◌, ◌<◌, drop};
ghost use Rattle.rules.specs.Field.{field};
ghost use Rattle.rules.specs.Read.{blank_zero};
ghost use Rattle.fields.specs.Columns.{coded_field, below, digit_after, column_after, ends_line};

// What a field gives: its number, blank where all its columns are, or the fault that is refusal 1. These are a document's three answers, and
// whether a blank is a fault is the caller's to say, so it is no Option and no Result.
#[derive(Clone, Copy, Debug, PartialEq, Eq)]
pub enum Field {
    // A Result of an Option says the same in two layers, and `Value(t)` would be `Ok(Some(t))` at each caller.
    Value(u32),
    Blank,
    Fault,
}

// Column b where a digit is due, after digits of value v.
fn with_digit(v: u32, b: u8) -> Field
    requires { v < 100000 }
    ensures { result ≡ digit_after v b }
{
    match b {
        b'0'..=b'9' => Field::Value(10 * v + u32::from(b - b'0')),
        _ => Field::Fault,
    }
}

// What columns give, the last of which is b, where those before it give f. A 0 in front stands alone.
fn with_column(f: Field, b: u8) -> Field
    requires { below 100000 f }
    ensures { result ≡ column_after f b }
{
    match f {
        Field::Value(0) | Field::Fault => Field::Fault,
        Field::Value(v) => with_digit(v, b),
        Field::Blank if b == b' ' => Field::Blank,
        Field::Blank => with_digit(0, b),
    }
}

// The field at the front of s, the rest of the sheet.
fn first_field(s: &[u8]) -> Field
    ensures { result ≡ coded_field (field s.now) }
{
    if s.len() < 6 {
        return Field::Fault;
    }
    let mut f = Field::Blank;
    for b in &s[..6] {
        f = with_column(f, *b);
    }
    f
}

// The field at at: what is left of the sheet from there on goes to the reader.
pub fn field_at(s: &[u8], at: usize) -> Field
    ensures { result ≡ coded_field (field (drop at s.now)) }
{
    if s.len() < at {
        return Field::Fault;
    }
    first_field(&s[at..])
}

// The place at at: a blank one is 0, which the document has for none given, written or not.
pub fn place_at(s: &[u8], at: usize) -> Field
    ensures { result ≡ coded_field (blank_zero (field (drop at s.now))) }
{
    match field_at(s, at) {
        Field::Blank => Field::Value(0),
        f => f,
    }
}

// A line's LF stands at at.
pub fn ends_at(s: &[u8], at: usize) -> bool
    ensures { result ≡ ends_line (drop at s.now) }
{
    s.get(at) == Some(&b'\n')
}
