// The file of the sheet that a worklist says, in a lent buffer.
ghost use Rattle.std.specs.Prelude.{◌≡◌};
ghost use Rattle.rules.specs.Worklist.{take_host};
ghost use Rattle.text.specs.Answer.{hosted_of};

use crate::write::{hosted, write};
use text::Hosted;
use worklist::take::take;

// Takes a worklist of any bytes, with m instruments and these calibrations, and writes the file of its sheet at the front of `out`. Refusals
// are those of `take`, a row in place of the line, and then 9. No refusal writes anything; bytes past the file stay.
pub fn take_into(m: u32, calibrations: &[u32], worklist: &[u8], out: &mut [u8]) -> Hosted
    ensures { hosted_of result out.new
        ≡ take_host m calibrations.now worklist.now out.old }
{
    match take(m, calibrations, worklist) {
        Ok(sheet) => hosted(write(sheet, out)),
        Err(fault) => hosted(Err(fault)),
    }
}
