// What the program prints.
ghost use Rattle.std.specs.Prelude.{◌<◌, ◌≤◌, ◌≡◌, length, take};
ghost use Rattle.rules.specs.Journal.{run_host};
ghost use Rattle.journal.specs.Running.{printed_of};

use crate::run::run_into;
use text::put_pair;

// Makes the calls of a journal on a sheet, and writes their answers at the front of `out`, or one line with the refusal's number and
// line. Returns how many bytes it wrote.
pub fn print(sheet: &[u8], journal: &[u8], out: &mut [u8]) -> usize
    requires { (13 ≤ length out.old) × (length journal.now < 999999) }
    ensures upper_bound { result ≤ length out.old }
    ensures out_after { take result out.new
        ≡ printed_of (run_host sheet.now journal.now out.old) }
{
    let r = run_into(sheet, journal, out);
    if r.refusal == 0 {
        return r.length;
    }
    put_pair(out, r.refusal, r.line as u32);
    13
}
