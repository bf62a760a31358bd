// Reading a worklist's rows from the front: the parts of a row, one row, and the whole file. A reader answers what it read and the bytes
// behind it.
ghost use Rattle.std.specs.Prelude.{◌≡◌, ◌≤◌, length};
ghost use Rattle.std.specs.Option.{option_copied};
ghost use Rattle.rules.specs.Csv.{record_end};
ghost use Rattle.rules.specs.Worklist.{worklist};
ghost use Rattle.worklist.specs.Rows.{gives, quoted_or, digits_at, number_at, start, numbers_from, list_at, row_at};
ghost use Rattle.worklist.specs.Read.{front_of, behind, digit_at, plain_at, end_as, then_byte, kept, one_number, kept_row, rows_as};

// The bytes behind the byte b, where it stands in front.
fn behind(s: &[u8], b: u8) -> Option<&[u8]>
    ensures { option_copied result ≡ behind b s.now }
{
    let (x, rest) = s.split_first()?;
    (*x == b).then_some(rest)
}

// The digit in front.
fn digit_at(s: &[u8]) -> Option<(u32, &[u8])>
    ensures { front_of result ≡ digit_at s.now }
{
    let (x, rest) = s.split_first()?;
    if !x.is_ascii_digit() {
        return None;
    }
    Some((u32::from(x - b'0'), rest))
}

// A number from its second digit on, after the first: up to five digits more.
fn digits_at(first: u32, s: &[u8]) -> (u32, &[u8])
    requires { first ≤ 9 }
    ensures { gives result.0 result.1.now ≡ digits_at 5 first s.now }
{
    let mut value = first;
    let mut rest = s;
    for _i in 0..5usize {
        let Some((d, after)) = digit_at(rest) else {
            return (value, rest);
        };
        value = 10 * value + d;
        rest = after;
    }
    (value, rest)
}

// A number: up to six digits, and none after a 0 in front.
pub fn number_at(s: &[u8]) -> Option<(u32, &[u8])>
    ensures { front_of result ≡ number_at s.now }
{
    let (d, rest) = digit_at(s)?;
    if d == 0 {
        return Some((0, rest));
    }
    Some(digits_at(d, rest))
}

// A number; where it may be empty, also nothing, which is 0.
fn plain_at(s: &[u8], empty: bool) -> Option<(u32, &[u8])>
    ensures { front_of result ≡ plain_at empty s.now }
{
    number_at(s).or(empty.then_some((0, s)))
}

// The same in quotes or without.
fn quoted_at(s: &[u8], empty: bool) -> Option<(u32, &[u8])>
    ensures { front_of result ≡ quoted_or (plain_at empty) s.now }
{
    let Some(inner) = behind(s, b'"') else {
        return plain_at(s, empty);
    };
    let (value, rest) = plain_at(inner, empty)?;
    Some((value, behind(rest, b'"')?))
}

// A field that is a number, with the comma behind it.
fn field_at(s: &[u8], empty: bool) -> Option<(u32, &[u8])>
    ensures { front_of result ≡ then_byte 44 (quoted_or (plain_at empty) s.now) }
{
    let (value, rest) = quoted_at(s, empty)?;
    Some((value, behind(rest, b',')?))
}

// The first 25 numbers of a list, and how many they are: no sheet's list is so long. Memory is fixed, so an array and its count stand side
// by side.
#[derive(Clone, Copy)]
struct Members {
    count: usize,
    list: [u32; 25],
}

// A list of one number.
fn one_at(s: &[u8]) -> Option<(Members, &[u8])>
    ensures { front_of result ≡ kept (one_number s.now) }
{
    let (value, rest) = number_at(s)?;
    let mut list = [0u32; 25];
    list[0] = value;
    Some((Members { count: 1, list }, rest))
}

// Numbers separated by commas. Each is read, and the first 25 are kept.
fn numbers_at(s: &[u8]) -> Option<(Members, &[u8])>
    ensures { front_of result ≡ kept (numbers_from start s.now) }
{
    let (mut m, mut rest) = one_at(s)?;
    // Kept a `while`: each number starts where the last one ended, which no range or iterator gives.
    while let Some(next) = behind(rest, b',') {
        let (value, after) = number_at(next)?;
        if m.count < 25 {
            m.list[m.count] = value;
            m.count += 1;
        }
        rest = after;
    }
    Some((m, rest))
}

// One number, or numbers in quotes.
fn list_at(s: &[u8]) -> Option<(Members, &[u8])>
    ensures { front_of result ≡ kept (list_at s.now) }
{
    let Some(inner) = behind(s, b'"') else {
        return one_at(s);
    };
    let (members, rest) = numbers_at(inner)?;
    Some((members, behind(rest, b'"')?))
}

// What follows a row's end: the end of the file, or a CRLF.
fn end_at(s: &[u8]) -> Option<&[u8]>
    ensures { option_copied result ≡ end_as (record_end s.now) }
{
    if s.is_empty() {
        return Some(s);
    }
    let rest = behind(s, b'\r')?;
    behind(rest, b'\n')
}

// A row: its three numbers, and the first 25 of its list with how many they are (memory is fixed).
#[derive(Clone, Copy)]
pub struct Row {
    pub minutes: u32,
    pub place: u32,
    pub mark: u32,
    pub count: usize,
    pub list: [u32; 25],
}

// The row in front.
pub fn row_at(s: &[u8]) -> Option<(Row, &[u8])>
    ensures { front_of result ≡ kept_row (row_at s.now) }
{
    let (minutes, rest) = field_at(s, false)?;
    let (place, rest) = field_at(rest, true)?;
    let (mark, rest) = field_at(rest, false)?;
    let (Members { count, list }, rest) = list_at(rest)?;
    let row = Row {
        minutes,
        place,
        mark,
        count,
        list,
    };
    Some((row, end_at(rest)?))
}

// The first faulty row of a file, by its number from 1.
#[derive(Clone, Copy, Debug, PartialEq, Eq)]
pub struct FaultyRow {
    pub row: usize,
}

// Goes through all rows, and says how many there are. An empty file has one, which is faulty.
pub fn rows_in(s: &[u8]) -> Result<usize, FaultyRow>
    ensures { result ≡ rows_as (worklist s.now) }
{
    if s.is_empty() {
        return Err(FaultyRow { row: 1 });
    }
    let mut count = 0;
    let mut rest = s;
    // Kept a `while`: each row starts where the last one ended, which no range or iterator gives.
    while !rest.is_empty() {
        let (_, after) = row_at(rest).ok_or(FaultyRow { row: count + 1 })?;
        rest = after;
        count += 1;
    }
    Ok(count)
}
