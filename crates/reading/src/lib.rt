// Reading a sheet: lines, and the whole, each up to the first fault it meets.
#![tactic(auto)]

ghost use Rattle.std.specs.Prelude.{◌≡◌, [], ◌≤◌, ◌<◌, eqb, length, take, drop};
ghost use Rattle.rules.specs.Sheet.{ascending};
ghost use Rattle.rules.specs.Read.{calibration_line, batch_line, batch_lines, lines_after, read as reading};
ghost use Rattle.fields.specs.Columns.{ends_line};
ghost use Rattle.sheet.specs.Represent.{padded};
ghost use Rattle.sheet.specs.Answers.{fault, read_as, ReadAnswered};
ghost use Rattle.reading.specs.Lines.{calibrated_as, line_as, bad_end, line_list};

use fields::{Field, ends_at, field_at, place_at};
use sheet::{Fault, Refusal, Sheet, ascends, listed, place_or, within};

// A refusal at a line.
fn refused(refusal: Refusal, line: usize) -> Fault
    ensures { result ≡ fault refusal line }
{
    Fault { refusal, line }
}

// What line 2 gives, and where the next line starts.
#[derive(Clone, Copy, Debug, PartialEq, Eq)]
struct Calibrated {
    calibrations: [u8; 24],
    next: usize,
}

// Line 2, which starts at at: a calibration for each of the m instruments, each judged at its own field, and the LF.
fn calibration_line(s: &[u8], at: usize, m: usize) -> Result<Calibrated, Fault>
    requires { (at ≤ length s.now) × (m ≤ 24) }
    ensures { result ≡ calibrated_as (length s.now) (calibration_line m (drop at s.now)) }
{
    let line = 2;
    let mut calibrations = [0u8; 24];
    let mut next = at;
    for i in 0..m {
        let Field::Value(t) = field_at(s, next) else {
            return Err(refused(Refusal::Malformed, line));
        };
        if Sheet::CALIBRATION < t as usize {
            return Err(refused(Refusal::BadCalibration, line));
        }
        calibrations[i] = t as u8;
        next += 6;
    }
    if !ends_at(s, next) {
        return Err(refused(Refusal::Malformed, line));
    }
    Ok(Calibrated {
        calibrations,
        next: next + 1,
    })
}

// What a batch line gives, and where the next line starts.
#[derive(Clone, Copy, Debug, PartialEq, Eq)]
struct Line {
    minutes: u16,
    place: u8,
    started: u8,
    count: u8,
    list: [u8; 24],
    next: usize,
}

// A batch line may end at at, where the first count entries of list are its instruments; or why not: they do not ascend, or there is no LF.
fn end_refusal(s: &[u8], at: usize, list: &[u8], count: usize) -> Result<(), Refusal>
    requires { (at ≤ length s.now) × (count ≤ length list.now) }
    ensures { result ≡ bad_end (ascending (take count list.now)) (ends_line (drop at s.now)) }
{
    if !ascends(list, count) {
        return Err(Refusal::BadOrder);
    }
    if !ends_at(s, at) {
        return Err(Refusal::Malformed);
    }
    Ok(())
}

// A batch line from its list on: the instruments, each judged at its own field, their order, the LF, and then the place, for which the
// first listed is taken where it is 0 and the batch has not started.
fn line_list(
    s: &[u8],
    at: usize,
    line: usize,
    m: usize,
    minutes: u16,
    place: u32,
    started: u8,
    count: usize,
) -> Result<Line, Fault>
    requires { (at ≤ length s.now) × (m ≤ 24) × (started ≤ 1) × (0 < count) × (count ≤ m) }
    ensures { result ≡ line_as (length s.now) line (line_list m minutes place (eqb started 1) count (drop at s.now)) }
{
    let mut list = [0u8; 24];
    let mut next = at;
    for k in 0..count {
        let Field::Value(x) = field_at(s, next) else {
            return Err(refused(Refusal::Malformed, line));
        };
        if !within(x as usize, m) || listed(&list, 0, k, x) {
            return Err(refused(Refusal::BadList, line));
        }
        list[k] = x as u8;
        next += 6;
    }
    end_refusal(s, next, &list, count).map_err(|refusal| refused(refusal, line))?;
    let p = place_or(place, started, list[0]);
    if !listed(&list, 0, count, p) {
        return Err(refused(Refusal::BadPlace, line));
    }
    Ok(Line {
        minutes,
        place: p as u8,
        started,
        count: count as u8,
        list,
        next: next + 1,
    })
}

// The batch line that starts at at.
fn batch_line(s: &[u8], at: usize, line: usize, m: usize) -> Result<Line, Fault>
    requires { (at ≤ length s.now) × (m ≤ 24) }
    ensures { result ≡ line_as (length s.now) line (batch_line m (drop at s.now)) }
{
    let Field::Value(t) = field_at(s, at) else {
        return Err(refused(Refusal::Malformed, line));
    };
    if !within(t as usize, Sheet::MINUTES) {
        return Err(refused(Refusal::BadLength, line));
    }
    let Field::Value(p) = place_at(s, at + 6) else {
        return Err(refused(Refusal::Malformed, line));
    };
    let Field::Value(v) = field_at(s, at + 12) else {
        return Err(refused(Refusal::Malformed, line));
    };
    if 1 < v {
        return Err(refused(Refusal::Malformed, line));
    }
    let Field::Value(c) = field_at(s, at + 18) else {
        return Err(refused(Refusal::Malformed, line));
    };
    if !within(c as usize, m) {
        return Err(refused(Refusal::BadList, line));
    }
    line_list(s, at + 24, line, m, t as u16, p, v as u8, c as usize)
}

// The n batch lines from at on, the first of which is line 3; nothing may follow. The calibrations stand in the sheet that is read.
fn batch_lines(
    s: &[u8],
    at: usize,
    m: usize,
    n: usize,
    calibrations: [u8; 24],
) -> Result<Sheet, Fault>
    requires { (at ≤ length s.now) × (m ≤ 24) × (n ≤ 200) × (padded 24 (take m calibrations) ≡ calibrations) }
    ensures { result ≡ read_as (batch_lines m (take m calibrations) n 3 [] (drop at s.now)) }
{
    let mut sheet = Sheet::empty(m, calibrations);
    let mut next = at;
    for i in 0..n {
        let b = batch_line(s, next, i + 3, m)?;
        sheet.append(b.minutes, b.place, b.started, b.count, b.list);
        next = b.next;
    }
    if next < s.len() {
        return Err(refused(Refusal::Malformed, n + 3));
    }
    Ok(sheet)
}

// The lines from line 2 on, which starts at at: the calibrations, and n batches.
fn lines_after(s: &[u8], at: usize, m: usize, n: usize) -> Result<Sheet, Fault>
    requires { (at ≤ length s.now) × (m ≤ 24) × (n ≤ 200) }
    ensures { result ≡ read_as (lines_after (record { m = m; n = n }) (drop at s.now)) }
{
    let c = calibration_line(s, at, m)?;
    batch_lines(s, c.next, m, n, c.calibrations)
}

// The sheet that s holds, or the refusal of the first fault and its line. Line 1 has m and n.
pub fn read(s: &[u8]) -> Result<Sheet, Fault>
    ensures { ReadAnswered (reading s.now) result }
{
    let line = 1;
    let Field::Value(m) = field_at(s, 0) else {
        return Err(refused(Refusal::Malformed, line));
    };
    if !within(m as usize, Sheet::INSTRUMENTS) {
        return Err(refused(Refusal::BadSize, line));
    }
    let Field::Value(n) = field_at(s, 6) else {
        return Err(refused(Refusal::Malformed, line));
    };
    if Sheet::BATCHES < n as usize {
        return Err(refused(Refusal::BadSize, line));
    }
    if !ends_at(s, 12) {
        return Err(refused(Refusal::Malformed, line));
    }
    lines_after(s, 13, m as usize, n as usize)
}
