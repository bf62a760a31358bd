// The calls for hosts, as a library; crate host_c exports each to C under its name.
#![tactic(auto)]

ghost use Rattle.std.specs.Prelude.{◌≡◌};
ghost use Rattle.rules.specs.Listing.{host};
ghost use Rattle.rules.specs.Journal.{run_host, write_host};
ghost use Rattle.rules.specs.Worklist.{take_host};
ghost use Rattle.text.specs.Answer.{hosted_of};
ghost use Rattle.filing.specs.Filed.{BalanceIs, SettleIs};

use filing::{BalanceFiled, SettleFiled, balance_file, settle_file};
use journal::run::run_into;
use listing::host::plan_into;
use moves::{Move, fill};
use text::Hosted;
use written::take::take_into;
use written::write::write_into;

// Plans a sheet of any bytes and writes its listing.
pub fn bankplan_plan(sheet: &[u8], listing: &mut [u8]) -> Hosted
    ensures { hosted_of result listing.new ≡ host sheet.now listing.old }
{
    plan_into(sheet, listing)
}

// Makes the calls of a journal of any bytes on a sheet of any bytes, and writes their answers.
pub fn bankplan_run(sheet: &[u8], journal: &[u8], answers: &mut [u8]) -> Hosted
    ensures { hosted_of result answers.new ≡ run_host sheet.now journal.now answers.old }
{
    run_into(sheet, journal, answers)
}

// Makes the calls of a journal of any bytes on a sheet of any bytes, and writes the file of the sheet that they leave.
pub fn bankplan_write(sheet: &[u8], journal: &[u8], written: &mut [u8]) -> Hosted
    ensures { hosted_of result written.new ≡ write_host sheet.now journal.now written.old }
{
    write_into(sheet, journal, written)
}

// Takes a worklist of any bytes, with so many instruments and their calibrations, and writes the file of its sheet.
pub fn bankplan_take(
    instruments: u32,
    calibrations: &[u32],
    worklist: &[u8],
    sheet: &mut [u8],
) -> Hosted
    ensures { hosted_of result sheet.new
        ≡ take_host instruments calibrations.now worklist.now sheet.old }
{
    take_into(instruments, calibrations, worklist, sheet)
}

// Balances a sheet of any bytes, writes the records of what moved at the front of the list, and the file of the sheet that this leaves.
pub fn bankplan_balance(sheet: &[u8], moves: &mut [Move], written: &mut [u8]) -> BalanceFiled
    ensures { BalanceIs sheet.now moves.old written.old result moves.new written.new }
{
    match balance_file(sheet, moves.len(), written) {
        Ok(filing) => {
            fill(moves, filing.planning.change);
            BalanceFiled::from(Ok(filing))
        }
        Err(fault) => BalanceFiled::from(Err(fault)),
    }
}

// Settles a sheet of any bytes, likewise.
// Apart from balance: each is what C calls, and answers a struct of its own.
pub fn bankplan_settle(sheet: &[u8], moves: &mut [Move], written: &mut [u8]) -> SettleFiled
    ensures { SettleIs sheet.now moves.old written.old result moves.new written.new }
{
    match settle_file(sheet, moves.len(), written) {
        Ok(filing) => {
            fill(moves, filing.planning.change);
            SettleFiled::from(Ok(filing))
        }
        Err(fault) => SettleFiled::from(Err(fault)),
    }
}
