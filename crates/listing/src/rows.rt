// The listing's lines, written into a lent buffer.
ghost use Rattle.std.specs.Prelude.{◌≡◌, ◌+◌, ◌*◌, ◌≤◌, length};
ghost use Rattle.std.proofs.Math.Seq.{paste};
ghost use Rattle.rules.specs.Lent.{at_front};
ghost use Rattle.rules.specs.Listing.{first_line};
ghost use Rattle.listing.specs.Rows.{InColumns, figures_of, rows_to, listing_text};

use crate::plan::Planned;
use text::{put_columns, put_end, put_fields, put_line, put_list};

// Writes the listing's first line at the front of `out`.
fn put_first_line(out: &mut [u8], p: &Planned)
    requires { (43 ≤ length out.old) × InColumns (figures_of p.now) }
    ensures { out.new ≡ paste out.old 0 (first_line (figures_of p.now)) 43 }
{
    let balanced = &p.balanced;
    let settled = &p.settled;
    put_fields(
        out,
        0,
        &[
            settled.makespan,
            balanced.bound,
            balanced.level,
            balanced.lifts,
            balanced.pushes,
        ],
    );
    put_columns(out, 30, 12, settled.moves);
    put_end(out, 42);
}

// Writes a line for each batch: number, place, length.
fn put_batch_lines(out: &mut [u8], at: usize, minutes: &[u16], places: &[u8])
    requires { (at + 19 * length minutes.now ≤ length out.old) × (length minutes.now ≤ 200) × (length minutes.now ≤ length places.now) }
    ensures { out.new
        ≡ paste out.old at (rows_to minutes.now places.now (length minutes.now)) (19 * length minutes.now) }
{
    for (b, length) in minutes.iter().enumerate() {
        put_line(
            out,
            at + 19 * b,
            &[b as u16 + 1, u16::from(places[b]), *length],
        );
    }
}

// How many bytes a listing has.
pub(crate) fn listing_length(size: usize, n: usize) -> usize
    requires { (size ≤ 24) × (n ≤ 200) }
    ensures { result ≡ 43 + (6 * (size + 1) + 1) + 19 * n }
{
    43 + (6 * (size + 1) + 1) + 19 * n
}

// Writes the whole listing at the front of `out`, and returns how many bytes it has.
pub(crate) fn put_listing(out: &mut [u8], p: &Planned, minutes: &[u16], places: &[u8]) -> usize
    requires room { 43 + (6 * (p.now.balanced.group.size + 1) + 1) + 19 * length minutes.now ≤ length out.old }
    requires small { InColumns (figures_of p.now) }
    requires group { p.now.balanced.group.size ≤ 24 }
    requires lines { (length minutes.now ≤ 200) × (length minutes.now ≤ length places.now) }
    ensures value { result ≡ length (listing_text (figures_of p.now) minutes.now places.now) }
    ensures out_after { out.new ≡ at_front (listing_text (figures_of p.now) minutes.now places.now) out.old }
{
    let group = &p.balanced.group.list[..p.balanced.group.size];
    put_first_line(out, p);
    put_list(out, 43, group);
    put_batch_lines(out, 43 + (6 * (group.len() + 1) + 1), minutes, places);
    listing_length(group.len(), minutes.len())
}
