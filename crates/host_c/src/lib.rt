// The calls for hosts in C: those of crate host, under the same names. To C each slice is a pointer and a length.
#![tactic(auto)]

ghost use Rattle.std.specs.Prelude.{◌≡◌};
ghost use Rattle.rules.specs.Listing.{host};
ghost use Rattle.rules.specs.Journal.{run_host, write_host};
ghost use Rattle.rules.specs.Worklist.{take_host};
ghost use Rattle.text.specs.Answer.{hosted_of};
ghost use Rattle.filing.specs.Filed.{BalanceIs, SettleIs};

use filing::{BalanceFiled, SettleFiled};
use moves::Move;
use text::Hosted;

// Plans a sheet of any bytes and writes its listing:
//   Hosted bankplan_plan(const uint8_t *sheet, size_t sheet_length, uint8_t *listing, size_t listing_length);
#[unsafe(no_mangle)]
pub extern "C" fn bankplan_plan(sheet: &[u8], listing: &mut [u8]) -> Hosted
    ensures { hosted_of result listing.new ≡ host sheet.now listing.old }
{
    host::bankplan_plan(sheet, listing)
}

// Makes the calls of a journal of any bytes on a sheet of any bytes, and writes their answers:
//   Hosted bankplan_run(const uint8_t *sheet, size_t sheet_length, const uint8_t *journal, size_t journal_length,
//                    uint8_t *answers, size_t answers_length);
#[unsafe(no_mangle)]
pub extern "C" fn bankplan_run(sheet: &[u8], journal: &[u8], answers: &mut [u8]) -> Hosted
    ensures { hosted_of result answers.new ≡ run_host sheet.now journal.now answers.old }
{
    host::bankplan_run(sheet, journal, answers)
}

// Makes the calls of a journal of any bytes on a sheet of any bytes, and writes the file of the sheet that they leave:
//   Hosted bankplan_write(const uint8_t *sheet, size_t sheet_length, const uint8_t *journal, size_t journal_length,
//                      uint8_t *written, size_t written_length);
#[unsafe(no_mangle)]
pub extern "C" fn bankplan_write(sheet: &[u8], journal: &[u8], written: &mut [u8]) -> Hosted
    ensures { hosted_of result written.new ≡ write_host sheet.now journal.now written.old }
{
    host::bankplan_write(sheet, journal, written)
}

// Takes a worklist of any bytes, with so many instruments and their calibrations, and writes the file of its sheet:
//   Hosted bankplan_take(uint32_t instruments, const uint32_t *calibrations, size_t calibrations_length,
//                     const uint8_t *worklist, size_t worklist_length, uint8_t *sheet, size_t sheet_length);
#[unsafe(no_mangle)]
pub extern "C" fn bankplan_take(
    instruments: u32,
    calibrations: &[u32],
    worklist: &[u8],
    sheet: &mut [u8],
) -> Hosted
    ensures { hosted_of result sheet.new
        ≡ take_host instruments calibrations.now worklist.now sheet.old }
{
    host::bankplan_take(instruments, calibrations, worklist, sheet)
}

// Balances a sheet of any bytes, writes the records of what moved at the front of the list, and the file of the sheet that this leaves:
//   BalanceFiled bankplan_balance(const uint8_t *sheet, size_t sheet_length, Move *moves, size_t moves_length,
//                        uint8_t *written, size_t written_length);
#[unsafe(no_mangle)]
pub extern "C" fn bankplan_balance(
    sheet: &[u8],
    moves: &mut [Move],
    written: &mut [u8],
) -> BalanceFiled
    ensures { BalanceIs sheet.now moves.old written.old result moves.new written.new }
{
    host::bankplan_balance(sheet, moves, written)
}

// Settles a sheet of any bytes, likewise:
//   SettleFiled bankplan_settle(const uint8_t *sheet, size_t sheet_length, Move *moves, size_t moves_length,
//                      uint8_t *written, size_t written_length);
#[unsafe(no_mangle)]
pub extern "C" fn bankplan_settle(
    sheet: &[u8],
    moves: &mut [Move],
    written: &mut [u8],
) -> SettleFiled
    ensures { SettleIs sheet.now moves.old written.old result moves.new written.new }
{
    host::bankplan_settle(sheet, moves, written)
}
