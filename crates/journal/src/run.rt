// The host's call: a sheet's bytes and a journal's in, the answers of its calls in a lent buffer; and the sheet that they leave.
ghost use Rattle.std.specs.Prelude.{◌≤◌, ◌≡◌, ◌++◌, leb, length, drop};
ghost use Rattle.rules.specs.Lent.{text, into_buffer};
ghost use Rattle.rules.specs.Journal.{journal as journal_of, run_host};
ghost use Rattle.sheet.specs.Represent.{Sound, book_of, sheet_of};
ghost use Rattle.text.specs.Answer.{hosted_of};
ghost use Rattle.journal.specs.Running.{Spells, TurnAt, text_of, book_left, told, judged_of, left_of};
ghost use Rattle.journal.specs.declared.run.Refused.TheVariants.{BadSheet};

use crate::answer::Answer;
use crate::call::make;
use crate::entry::{entry_at, fault_line};
use reading::read;
use sheet::{Fault, Refusal, Sheet};
use text::Hosted;

// Why no call is made: a sheet's fault, or the first line of the journal that is not of the form.
#[derive(Clone, Copy, Debug, PartialEq, Eq)]
pub enum Refused {
    BadSheet(Fault),
    BadJournal(usize),
}

impl From<Fault> for Refused {
    ghost from_gives = { λ fault refused. refused ≡ BadSheet fault };

    fn from(fault: Fault) -> Refused {
        Self::BadSheet(fault)
    }
}

// Its number and its line.
impl From<Refused> for Hosted {
    ghost from_gives = { λ refused hosted. hosted ≡ told refused };

    fn from(refused: Refused) -> Hosted {
        let (refusal, line) = match refused {
            Refused::BadSheet(fault) => (fault.refusal.into(), fault.line),
            Refused::BadJournal(line) => (Refusal::BadJournal.into(), line),
        };
        Hosted {
            refusal,
            line,
            length: 0,
        }
    }
}

// Reads a sheet of any bytes and judges a journal of any bytes, whole, before its first call is made. The sheet is as it is read. A
// refusal of the sheet comes before one of the journal.
fn judged(sheet: &[u8], journal: &[u8]) -> Result<Sheet, Refused>
    ensures { result ≡ judged_of sheet.now journal.now }
{
    let sheet = read(sheet)?;
    match fault_line(journal) {
        Some(line) => Err(Refused::BadJournal(line)),
        None => Ok(sheet),
    }
}

// The answer to a line's call, and where the next line starts.
#[derive(Clone, Copy)]
struct Turn {
    answer: Answer,
    next: usize,
}

// Makes the call of the line at at, where there is one: a turn of each loop below. What a loop does with an answer differs in its state, so
// none is plainer with a closure.
fn turn_at(sheet: &mut Sheet, journal: &[u8], at: usize) -> Option<Turn>
    requires { Sound sheet.old × (at ≤ length journal.now) }
    ensures { TurnAt sheet.old journal.now at result sheet.new }
{
    let (call, next) = entry_at(journal, at)?;
    Some(Turn {
        answer: make(sheet, call),
        next,
    })
}

// Whether the answers of all calls have at most room bytes. Makes the calls, and adds up, until they have more.
fn fits(mut sheet: Sheet, journal: &[u8], room: usize) -> bool
    requires { Sound sheet × Spells journal.now }
    ensures { result ≡ leb (length (text_of (book_of sheet) (journal_of journal.now))) room }
{
    let mut at = 0;
    let mut left = room;
    while let Some(turn) = turn_at(&mut sheet, journal, at) {
        let length = turn.answer.line_length();
        if left < length {
            return false;
        }
        left -= length;
        at = turn.next;
    }
    true
}

// Makes all calls, and writes their answers at the front of `out`. Returns how many bytes they have.
fn write_answers(mut sheet: Sheet, journal: &[u8], out: &mut [u8]) -> usize
    requires { Sound sheet × Spells journal.now
        × (length (text_of (book_of sheet) (journal_of journal.now)) ≤ length out.old) }
    ensures value { result ≡ length (text_of (book_of sheet) (journal_of journal.now)) }
    ensures out_after { out.new ≡ text_of (book_of sheet) (journal_of journal.now) ++ drop result out.old }
{
    let mut at = 0;
    let mut to = 0;
    while let Some(Turn { answer, next }) = turn_at(&mut sheet, journal, at) {
        answer.put(out, to);
        to += answer.line_length();
        at = next;
    }
    to
}

// Makes all calls. Returns the sheet that the last one leaves.
fn make_all(mut sheet: Sheet, journal: &[u8]) -> Sheet
    requires { Sound sheet × Spells journal.now }
    ensures { result ≡ sheet_of (book_left (book_of sheet) (journal_of journal.now)) }
{
    let mut at = 0;
    while let Some(line) = turn_at(&mut sheet, journal, at) {
        at = line.next;
    }
    sheet
}

// The answers of a journal's calls on a sheet, at the front of `out`, or 9.
fn run_on(sheet: Sheet, journal: &[u8], out: &mut [u8]) -> Hosted
    requires { Sound sheet × Spells journal.now }
    ensures { hosted_of result out.new
        ≡ into_buffer (text (text_of (book_of sheet) (journal_of journal.now))) out.old }
{
    if !fits(sheet, journal, out.len()) {
        return Hosted {
            refusal: Refusal::BufferShort.into(),
            line: 0,
            length: 0,
        };
    }
    let length = write_answers(sheet, journal, out);
    Hosted {
        refusal: 0,
        line: 0,
        length,
    }
}

// Reads a sheet of any bytes, makes the calls of a journal of any bytes on it, one after the other, and writes their answers at the
// front of `answers`. A refusal of the sheet comes before one of the journal, and both before 9. No refusal writes anything; bytes past
// the answers stay.
pub fn run_into(sheet: &[u8], journal: &[u8], answers: &mut [u8]) -> Hosted
    ensures { hosted_of result answers.new ≡ run_host sheet.now journal.now answers.old }
{
    match judged(sheet, journal) {
        Ok(sheet) => run_on(sheet, journal, answers),
        Err(refused) => refused.into(),
    }
}

// Reads a sheet of any bytes, makes the calls of a journal of any bytes on it, one after the other, and returns the sheet that they
// leave. The refusals are those of `run_into`, but for 9.
pub fn left_by(sheet: &[u8], journal: &[u8]) -> Result<Sheet, Refused>
    ensures { result ≡ left_of sheet.now journal.now }
{
    let sheet = judged(sheet, journal)?;
    Ok(make_all(sheet, journal))
}
