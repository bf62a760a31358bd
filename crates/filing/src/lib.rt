// Balance and settle for hosts that keep their sheet as a file: the sheet's bytes in; the figures, the records of moves and the sheet
// written back out. The cores, for a caller whose list has so many entries: what the call answers, with the change from which the
// list is filled.
#![tactic(auto)]

ghost use Rattle.std.specs.Prelude.{◌≡◌};
ghost use Rattle.filing.specs.Filed.{filed_balance, filed_settle, BalanceFilingIs, SettleFilingIs};

use calls::cores::{Planning, balance_for, settle_for};
use planner::{Balanced, Settled};
use reading::read;
use sheet::Fault;
use written::write::write;

// What balance answers: the refusal's number, 0 for none, and its line, 0 for none and for 9; how many bytes the sheet that it leaves has;
// its makespan, the lower bound, the level kept with the lifts and pushes of its trial, and the group of the highest failed level with
// its size; and how many records there are. On a refusal all but the first two are 0.
// Numbers alone, and an array with its size: the exported C function answers it as it is.
#[repr(C)]
#[derive(Clone, Copy)]
pub struct BalanceFiled {
    pub refusal: u32,
    pub line: usize,
    pub length: usize,
    pub makespan: u32,
    pub bound: u32,
    pub level: u32,
    pub lifts: u32,
    pub pushes: u32,
    pub size: usize,
    pub group: [u8; 24],
    pub records: usize,
}

// What settle answers, likewise: its makespan, its moves, and how many records there are.
// The exported C function answers it as it is.
#[repr(C)]
#[derive(Clone, Copy)]
pub struct SettleFiled {
    pub refusal: u32,
    pub line: usize,
    pub length: usize,
    pub makespan: u32,
    pub moves: u64,
    pub records: usize,
}

// A planning whose sheet is written, and how many bytes that has.
#[derive(Clone, Copy)]
pub struct Filing<P> {
    pub planning: Planning<P>,
    pub length: usize,
}

impl From<Result<Filing<Balanced>, Fault>> for BalanceFiled {
    ghost from_gives = { λ answer filed. filed ≡ filed_balance answer };

    fn from(answer: Result<Filing<Balanced>, Fault>) -> BalanceFiled {
        match answer {
            Ok(Filing { planning, length }) => {
                let planned = planning.reply.planned;
                let group = planned.group.list;
                BalanceFiled {
                    refusal: 0,
                    line: 0,
                    length,
                    makespan: planned.makespan,
                    bound: planned.bound,
                    level: planned.level,
                    lifts: planned.lifts,
                    pushes: planned.pushes,
                    size: planned.group.size,
                    group,
                    records: planning.reply.records,
                }
            }
            Err(fault) => BalanceFiled {
                refusal: u32::from(fault.refusal),
                line: fault.line,
                length: 0,
                makespan: 0,
                bound: 0,
                level: 0,
                lifts: 0,
                pushes: 0,
                size: 0,
                group: [0u8; 24],
                records: 0,
            },
        }
    }
}

impl From<Result<Filing<Settled>, Fault>> for SettleFiled {
    ghost from_gives = { λ answer filed. filed ≡ filed_settle answer };

    fn from(answer: Result<Filing<Settled>, Fault>) -> SettleFiled {
        match answer {
            Ok(Filing { planning, length }) => SettleFiled {
                refusal: 0,
                line: 0,
                length,
                makespan: planning.reply.planned.makespan,
                moves: planning.reply.planned.moves,
                records: planning.reply.records,
            },
            Err(fault) => SettleFiled {
                refusal: u32::from(fault.refusal),
                line: fault.line,
                length: 0,
                makespan: 0,
                moves: 0,
                records: 0,
            },
        }
    }
}

// Reads a sheet of any bytes, balances it and writes the sheet that this leaves at the front of `out`. A refusal of the sheet comes first,
// then 9 for a list with fewer entries than it has batches, then 9 for a short buffer. No refusal writes anything; bytes past the
// sheet stay.
pub fn balance_file(sheet: &[u8], entries: usize, out: &mut [u8]) -> Result<Filing<Balanced>, Fault>
    ensures { BalanceFilingIs sheet.now entries out.old result out.new }
{
    let sheet = read(sheet)?;
    let planning = balance_for(sheet, entries)?;
    let length = write(planning.reply.planned.sheet, out)?;
    Ok(Filing { planning, length })
}

// The same for settle: one generic function would have to take the core as a parameter, and the sheet from what it answers.
pub fn settle_file(sheet: &[u8], entries: usize, out: &mut [u8]) -> Result<Filing<Settled>, Fault>
    ensures { SettleFilingIs sheet.now entries out.old result out.new }
{
    let sheet = read(sheet)?;
    let planning = settle_for(sheet, entries)?;
    let after = planning.reply.planned.sheet;
    let length = write(after, out)?;
    Ok(Filing { planning, length })
}
