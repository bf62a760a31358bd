// The minutes of jobs and the loads of machines, and the most of them, on lent arrays. Each is one chain or loop over slices of any length
// and how many entries count: a struct would ask more of callers, and a common function for both types of number is no plainer.
ghost use Rattle.std.specs.Prelude.{◌≡◌, ℕ, ◌<◌, ◌≤◌, length, eqb};
ghost use Rattle.rules.specs.Fold.{pick, at, max_to, sum_to};

use crate::MACHINES;

// The minutes of the first n jobs.
pub fn total_of(minutes: &[u16], n: usize) -> u32
    requires { (n ≤ 224) × (n ≤ length minutes.now) }
    ensures { result ≡ sum_to n (λ b. at minutes.now b) }
{
    minutes[..n].iter().map(|x| u32::from(*x)).sum()
}

// The longest of the first n jobs' lengths.
pub fn longest_of(minutes: &[u16], n: usize) -> u32
    requires { n ≤ length minutes.now }
    ensures { result ≡ max_to n (λ b. at minutes.now b) }
{
    u32::from(minutes[..n].iter().copied().max().unwrap_or(0))
}

// The most load of a machine.
pub fn largest_load(loads: &[u32], m: usize) -> u32
    requires { m ≤ length loads.now }
    ensures { result ≡ max_to m (λ i. at loads.now i) }
{
    loads[..m].iter().copied().max().unwrap_or(0)
}

// The load of each machine: entry i for machine i, 0 past machine `m`.
pub fn loads_of(minutes: &[u16], places: &[u8], n: usize, m: usize) -> [u32; MACHINES]
    requires { (n ≤ 224) × (n ≤ length minutes.now) × (n ≤ length places.now) × (m ≤ 24) }
    ensures { ((i : ℕ) → 0 < i → i ≤ m → at result i ≡ sum_to n (λ b. pick (eqb (at places.now b) i) (at minutes.now b) 0))
        × ((i : ℕ) → m < i → i ≤ 24 → at result i ≡ 0) }
{
    let mut loads = [0u32; MACHINES];
    for b in 0..n {
        let p = usize::from(places[b]);
        if p != 0 && p <= m {
            loads[p - 1] += u32::from(minutes[b]);
        }
    }
    loads
}
