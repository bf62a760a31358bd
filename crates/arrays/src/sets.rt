// Sets of machines in a word: machine i is bit i - 1.
ghost use Rattle.std.specs.Prelude.{◌≡◌, suc, ◌+◌, ◌-◌, ◌<◌, ◌≤◌, ◌^◌, length, get_or, leb, eqb};
ghost use Rattle.rules.specs.Fold.{◌and◌, ◌or◌};
ghost use Rattle.arrays.specs.Sets.{has, SetOf, SetsOf};

use crate::{JOBS, MACHINES};

// The set `x` and machine `i`.
pub fn with(x: u32, i: usize) -> u32
    requires { (x < 2 ^ 24) × (0 < i) × (i ≤ 24) }
    ensures { SetOf (λ j. eqb j i or has x j) result }
{
    1 << (i - 1) | x
}

// The machines 1 to `m` that a job may run on, one byte a machine from `base` on.
pub fn mask_at(eligible: &[u8], base: usize, m: usize) -> u32
    requires { (m ≤ 24) × (base + m ≤ length eligible.now) }
    ensures { SetOf (λ j. leb j m and eqb (get_or eligible.now (base + (j - 1)) 0) 1) result }
{
    let mut x = 0;
    for j in 0..m {
        if eligible[base + j] == 1 {
            x = with(x, j + 1);
        }
    }
    x
}

// The machines that each of n jobs may run on, as sets, from a byte for each machine, 24 to a job.
pub fn masks_of(eligible: &[u8], n: usize, m: usize) -> [u32; JOBS]
    requires { (n ≤ 224) × (m ≤ 24) × (length eligible.now ≡ 5376) }
    ensures { SetsOf eligible.now m n result }
{
    let mut masks = [0u32; JOBS];
    for b in 0..n {
        masks[b] = mask_at(eligible, b * MACHINES, m);
    }
    masks
}

// The machine at index i is in the set.
pub fn is_in(x: u32, i: usize) -> bool
    requires { i < 24 }
    ensures { result ≡ has x (suc i) }
{
    (x >> i) % 2 == 1
}
