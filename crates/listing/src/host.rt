// The host's call: a sheet's bytes in, its listing in a lent buffer.
ghost use Rattle.std.specs.Prelude.{◌≡◌};
ghost use Rattle.rules.specs.Listing.{host};
ghost use Rattle.sheet.specs.Answers.{hosted_as};
ghost use Rattle.sheet.specs.Represent.{Sound, book_of};
ghost use Rattle.text.specs.Answer.{hosted_of};
ghost use Rattle.listing.specs.Host.{listed_into};

use crate::plan::plan;
use crate::rows::{listing_length, put_listing};
use reading::read;
use sheet::{Fault, Refusal, Sheet};
use text::Hosted;

// Plans a sheet, and writes its listing at the front of `out` where that is long enough. Answers how many bytes it has.
fn list_into(sheet: Sheet, out: &mut [u8]) -> Result<usize, Fault>
    requires { Sound sheet }
    ensures { hosted_as result out.new ≡ listed_into (book_of sheet) out.old }
{
    let p = plan(sheet);
    let n = sheet.batches();
    if out.len() < listing_length(p.balanced.group.size, n) {
        return Err(Fault::from(Refusal::BufferShort));
    }
    let minutes = sheet.minutes();
    let places = p.settled.sheet.places();
    Ok(put_listing(out, &p, &minutes[..n], &places))
}

// Reads a sheet of any bytes, plans it and writes the listing.
fn read_and_list(sheet: &[u8], out: &mut [u8]) -> Result<usize, Fault>
    ensures { hosted_as result out.new ≡ host sheet.now out.old }
{
    let sheet = read(sheet)?;
    list_into(sheet, out)
}

// Reads a sheet of any bytes, plans it and writes the listing at the front of `listing`. A refusal of reading comes before 9, and
// no refusal writes anything; bytes past the listing stay.
pub fn plan_into(sheet: &[u8], listing: &mut [u8]) -> Hosted
    ensures { hosted_of result listing.new ≡ host sheet.now listing.old }
{
    match read_and_list(sheet, listing) {
        Ok(length) => Hosted {
            refusal: 0,
            line: 0,
            length,
        },
        Err(fault) => Hosted {
            refusal: u32::from(fault.refusal),
            line: fault.line,
            length: 0,
        },
    }
}
