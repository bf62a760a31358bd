// Taking a worklist: what the host gives is judged first, then the form of the whole file, then how many rows it has, and then each row as a
// sheet's line is.
ghost use Rattle.std.specs.Prelude.{◌≤◌, ◌≡◌, IsOkAnd};
ghost use Rattle.rules.specs.Sheet.{size};
ghost use Rattle.rules.specs.Worklist.{worklist, taken};
ghost use Rattle.theory.proofs.Worklist.{rows_on};
ghost use Rattle.sheet.specs.Represent.{Sound, book_of};
ghost use Rattle.sheet.specs.Answers.{read_as, ReadAnswered, fault};
ghost use Rattle.sheet.specs.declared.Refusal.TheVariants.{BadWorklist};
ghost use Rattle.worklist.specs.Read.{rows_as};

use crate::row::{FaultyRow, row_at, rows_in};
use sheet::{Fault, Refusal, Sheet};

// A faulty row is refused with its number.
impl From<FaultyRow> for Fault {
    ghost from_gives = { λ faulty answer. answer ≡ fault BadWorklist faulty.row };

    fn from(faulty: FaultyRow) -> Fault {
        Fault {
            refusal: Refusal::BadWorklist,
            line: faulty.row,
        }
    }
}

// The sheet, which has no batch yet, with the file's rows entered, or the refusal of the first row that is no batch of it.
fn enter(mut sheet: Sheet, s: &[u8]) -> Result<Sheet, Fault>
    requires sound { Sound sheet }
    requires empty { size (book_of sheet) ≡ 0 }
    requires rows { IsOkAnd (rows_as (worklist s.now)) (λ n. n ≤ 200) }
    ensures { result ≡ read_as (rows_on (book_of sheet) (worklist s.now)) }
{
    let mut rest = s;
    let mut i = 0;
    // Kept a `while`: each row starts where the last one ended, which no range or iterator gives.
    while !rest.is_empty() {
        let (row, after) = row_at(rest).unwrap();
        if let Err(refusal) = sheet.with_row(
            row.minutes,
            row.place,
            row.mark,
            &row.list[..row.count],
        ) {
            return Err(Fault {
                refusal,
                line: i + 1,
            });
        }
        rest = after;
        i += 1;
    }
    Ok(sheet)
}

// The sheet that a worklist of any bytes says, on m instruments with these calibrations; or a refusal with line 0 for what the host gives
// and for more than 200 rows, and with its row for a row.
pub fn take(m: u32, calibrations: &[u32], s: &[u8]) -> Result<Sheet, Fault>
    ensures { ReadAnswered (taken m calibrations.now s.now) result }
{
    let sheet = Sheet::bare(m, calibrations)?;
    let count = rows_in(s)?;
    if Sheet::BATCHES < count {
        return Err(Fault::from(Refusal::BadSize));
    }
    enter(sheet, s)
}
