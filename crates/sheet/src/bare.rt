// A sheet without a batch, from what a host gives.
ghost use Rattle.std.specs.Prelude.{◌≡◌};
ghost use Rattle.rules.specs.Sheet.{good_calibrations};
ghost use Rattle.theory.proofs.Worklist.{given};
ghost use Rattle.sheet.specs.Answers.{read_as};

use crate::{Fault, Refusal, Sheet, row_of, within};

// One for each of the m instruments, each at most 240.
fn good_calibrations(l: &[u32], m: usize) -> bool
    ensures { result ≡ good_calibrations m l.now }
{
    l.len() == m && l.iter().all(|t| *t as usize <= Sheet::CALIBRATION)
}

impl Sheet {
    // A sheet without a batch. Refused, with line 0, where m is not 1 to 24, or where there is not one calibration of at most 240 for each
    // instrument.
    pub fn bare(m: u32, calibrations: &[u32]) -> Result<Sheet, Fault>
        ensures { result ≡ read_as (given m calibrations.now) }
    {
        let size = m as usize;
        if !within(size, Sheet::INSTRUMENTS) {
            return Err(Fault::from(Refusal::BadSize));
        }
        if !good_calibrations(calibrations, size) {
            return Err(Fault::from(Refusal::BadCalibration));
        }
        Ok(Sheet::empty(size, row_of(calibrations)))
    }
}
