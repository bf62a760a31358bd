// Records of the batches whose places differ between two placements, in a list that a caller lends (document 02, C-14).
#![tactic(auto)]

ghost use Rattle.std.specs.Prelude.{◌≡◌, ◌≤◌, length};
ghost use Rattle.rules.specs.Moves.{records};
ghost use Rattle.moves.specs.Filled.{filled_by};

// A batch's number, where it was, and where it is.
#[repr(C)]
#[derive(Clone, Copy)]
pub struct Move {
    pub batch: u32,
    pub from: u32,
    pub to: u32,
}

// Two placements of the first n batches. Answers hold it by value, in fixed memory, so it has arrays and how many entries of them count.
#[derive(Clone, Copy)]
pub struct Change {
    pub old: [u8; 200],
    pub new: [u8; 200],
    pub n: usize,
}

// How many records there are.
pub fn count(c: Change) -> usize
    requires { c.n ≤ 200 }
    ensures { (result ≡ length (records c.n c.old c.new)) × (result ≤ c.n) }
{
    // A `for`: with `filter` and `count` the proof did not close.
    let mut k = 0;
    for j in 0..c.n {
        if c.old[j] != c.new[j] {
            k += 1;
        }
    }
    k
}

// Writes the records at the front of `moves`, ascending by batch. What lies past them stays.
pub fn fill(moves: &mut [Move], c: Change)
    requires { (c.n ≤ 200) × (c.n ≤ length moves.old) }
    ensures { moves.new ≡ filled_by c moves.old }
{
    let mut k = 0;
    for b in 0..c.n {
        let from = c.old[b];
        let to = c.new[b];
        if from != to {
            moves[k] = Move {
                batch: b as u32 + 1,
                from: u32::from(from),
                to: u32::from(to),
            };
            k += 1;
        }
    }
}
