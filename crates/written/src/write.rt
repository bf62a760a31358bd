// The file of a sheet in a lent buffer: of a sheet, and of the sheet that a journal leaves.
ghost use Rattle.std.specs.Prelude.{ℕ, List, ◌+◌, ◌≤◌, ◌≡◌, length, sum_by};
ghost use Rattle.std.proofs.Math.Seq.{paste};
ghost use Rattle.rules.specs.Render.{render_batch};
ghost use Rattle.rules.specs.Rewrite.{written};
ghost use Rattle.rules.specs.Lent.{text, into_buffer};
ghost use Rattle.rules.specs.Journal.{write_host};
ghost use Rattle.sheet.specs.Answers.{hosted_as};
ghost use Rattle.sheet.specs.Represent.{Sound, book_of};
ghost use Rattle.text.specs.Answer.{hosted_of};
ghost use Rattle.written.specs.Lines.{numbered_batch, line_length, batch_lines};

use journal::run::left_by;
use sheet::{Fault, Refusal, Sheet};
use text::{Hosted, put_fields, put_line, put_list, put_pair};

// How many bytes the line of a batch has whose list has count instruments.
fn line_length(count: u8) -> usize
    ensures { (result ≡ line_length count) × (result ≤ 1555) }
{
    6 * usize::from(count) + 25
}

// How many bytes the lines of batches have whose lists have these many instruments.
fn lines_length(counts: &[u8]) -> usize
    requires { length counts.now ≤ 200 }
    ensures { (result ≡ sum_by line_length counts.now) × (result ≤ 311000) }
{
    counts.iter().map(|count| line_length(*count)).sum()
}

// Writes the line of a batch.
fn put_batch(out: &mut [u8], at: usize, minutes: u16, place: u8, started: u8, list: &[u8])
    requires { (at + line_length (length list.now) ≤ length out.old) × (started ≤ 1) × (length list.now ≤ 24) }
    ensures { out.new
        ≡ paste out.old at (render_batch (numbered_batch minutes place started list.now)) (line_length (length list.now)) }
{
    put_fields(out, at, &[minutes, u16::from(place), u16::from(started)]);
    put_list(out, at + 18, list);
}

// Writes the lines of a sheet's batches from `start` on. Batch b's list starts at 24 (b - 1) in the sheet's lists.
fn put_batches(out: &mut [u8], start: usize, sheet: Sheet)
    requires sound { Sound sheet }
    requires room { start + length (batch_lines (book_of sheet)) ≤ length out.old }
    ensures { out.new
        ≡ paste out.old start (batch_lines (book_of sheet)) (length (batch_lines (book_of sheet))) }
{
    let minutes = sheet.minutes();
    let places = sheet.places();
    let started = sheet.started();
    let counts = sheet.counts();
    let lists = sheet.lists();
    let mut at = start;
    for b in 0..sheet.batches() {
        let from = b * Sheet::INSTRUMENTS;
        let list = &lists[from..from + usize::from(counts[b])];
        put_batch(out, at, minutes[b], places[b], started[b], list);
        at += line_length(counts[b]);
    }
}

// Writes the file of a sheet at the front of `out`, where that is long enough; 9 otherwise, and nothing is written. Bytes past the file
// stay.
#[tactic(auto, using(crate::proofs::Writing::few_instruments, crate::proofs::Writing::few_batches))]
pub fn write(sheet: Sheet, out: &mut [u8]) -> Result<usize, Fault>
    requires { Sound sheet }
    ensures { hosted_as result out.new ≡ into_buffer (text (written (book_of sheet))) out.old }
{
    let m = sheet.instruments();
    let n = sheet.batches();
    let start = 6 * m + 14;
    let length = start + lines_length(&sheet.counts()[..n]);
    if out.len() < length {
        return Err(Fault::from(Refusal::BufferShort));
    }
    put_pair(out, m as u32, n as u32);
    let calibrations = sheet.calibrations();
    put_line(out, 13, &calibrations[..m]);
    put_batches(out, start, sheet);
    Ok(length)
}

// What a host is told of that.
pub(crate) fn hosted(answer: Result<usize, Fault>) -> Hosted
    ensures { (buffer : List ℕ) → hosted_of result buffer ≡ hosted_as answer buffer }
{
    match answer {
        Ok(length) => Hosted {
            refusal: 0,
            line: 0,
            length,
        },
        Err(fault) => Hosted {
            refusal: u32::from(fault.refusal),
            line: fault.line,
            length: 0,
        },
    }
}

// Reads a sheet of any bytes, makes the calls of a journal of any bytes on it, one after the other, and writes the file of the sheet that
// they leave at the front of `out`. A refusal of the sheet comes before one of the journal, and both before 9. No refusal writes
// anything; bytes past the file stay.
pub fn write_into(sheet: &[u8], journal: &[u8], out: &mut [u8]) -> Hosted
    ensures { hosted_of result out.new ≡ write_host sheet.now journal.now out.old }
{
    match left_by(sheet, journal) {
        Ok(sheet) => hosted(write(sheet, out)),
        Err(refused) => Hosted::from(refused),
    }
}
