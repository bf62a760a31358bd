// What the program prints.
ghost use Rattle.std.specs.Prelude.{◌≡◌, ◌≤◌, length};
ghost use Rattle.rules.specs.Lent.{at_front};
ghost use Rattle.rules.specs.Listing.{program};

use crate::host::plan_into;
use text::put_pair;

// Plans a sheet of any bytes and writes its listing at the front of `out`, or one line with the refusal's number and line. The
// longest listing has 3,994 bytes. Returns how many bytes it wrote.
pub fn print(sheet: &[u8], out: &mut [u8]) -> usize
    requires { 3994 ≤ length out.old }
    ensures value { result ≡ length (program sheet.now) }
    ensures upper_bound { result ≤ 3994 }
    ensures out_after { out.new ≡ at_front (program sheet.now) out.old }
{
    let h = plan_into(sheet, out);
    if h.refusal == 0 {
        return h.length;
    }
    put_pair(out, h.refusal, h.line as u32);
    13
}
