// What a step looks for, on lent arrays: an index, or none. Each is one chain; a common function that takes the test as a closure would be
// no plainer. They take slices of any length and how many entries count, since a struct would ask more of callers.
ghost use Rattle.std.specs.Prelude.{◌≡◌, suc, ◌<◌, ◌≤◌, length, leb, ltb, eqb};
ghost use Rattle.rules.specs.Fold.{◌and◌, at, first_to, any_to, least_to};
ghost use Rattle.theory.proofs.View.{None};
ghost use Rattle.arrays.specs.Found.{found};
ghost use Rattle.arrays.specs.Sets.{has};
ghost use Rattle.scans.specs.Waits.{waits};

use arrays::sets::is_in;

// Some machine is underloaded.
pub fn some_underloaded(loads: &[u32], low: &[u32], m: usize) -> bool
    requires { (m ≤ length loads.now) × (m ≤ length low.now) }
    ensures { result ≡ any_to m (λ i. leb (at loads.now i) (at low.now i)) }
{
    (0..m).any(|i| loads[i] <= low[i])
}

// The lowest overloaded machine.
pub fn first_overloaded(loads: &[u32], high: &[u32], m: usize) -> Option<usize>
    requires { (m ≤ length loads.now) × (m ≤ length high.now) }
    ensures { result ≡ found (first_to m (λ i. ltb (at high.now i) (at loads.now i))) }
{
    (0..m).find(|&i| high[i] < loads[i])
}

// The lowest overloaded machine of height `top` at most.
pub fn first_able(loads: &[u32], heights: &[u8], high: &[u32], m: usize, top: u8) -> Option<usize>
    requires { (m ≤ length loads.now) × (m ≤ length high.now) × (m ≤ length heights.now) }
    ensures { result ≡ found (first_to m (λ i. ltb (at high.now i) (at loads.now i) and leb (at heights.now i) top)) }
{
    (0..m).find(|&i| high[i] < loads[i] && heights[i] <= top)
}

// The lowest job without a place that some machine may run. None is among the first `from`.
pub fn first_waiting(places: &[u8], masks: &[u32], from: usize, n: usize) -> Option<usize>
    requires { (from ≤ n) × (n ≤ length places.now) × (n ≤ length masks.now) × None from (λ b. waits places.now masks.now b) }
    ensures { result ≡ found (first_to n (λ b. waits places.now masks.now b)) }
{
    (from..n).find(|&b| places[b] == 0 && masks[b] > 0)
}

// The lowest job on machine `i` that stands just below height `h`.
pub fn job_below(places: &[u8], jobs: &[u8], n: usize, i: u8, h: u8) -> Option<usize>
    requires { (n ≤ length places.now) × (n ≤ length jobs.now) }
    ensures { result ≡ found (first_to n (λ b. eqb (at places.now b) i and eqb h (suc (at jobs.now b)))) }
{
    (0..n).find(|&b| places[b] == i && u32::from(h) == u32::from(jobs[b]) + 1)
}

// The lowest machine of a set that stands just below height `h`.
pub fn machine_below(machines: &[u8], mask: u32, m: usize, h: u8) -> Option<usize>
    requires { (m ≤ 24) × (m ≤ length machines.now) }
    ensures { result ≡ found (first_to m (λ i. has mask i and eqb h (suc (at machines.now i)))) }
{
    (0..m).find(|&i| is_in(mask, i) && u32::from(h) == u32::from(machines[i]) + 1)
}

// The lowest of the jobs on machine `i` of least height.
pub fn least_job(places: &[u8], jobs: &[u8], n: usize, i: u8) -> Option<usize>
    requires { (n ≤ length places.now) × (n ≤ length jobs.now) }
    ensures { result ≡ found (least_to n (λ b. eqb (at places.now b) i) (λ b. at jobs.now b)) }
{
    (0..n).filter(|&b| places[b] == i).min_by_key(|&b| jobs[b])
}

// The lowest of the machines of a set of least height.
pub fn least_machine(machines: &[u8], mask: u32, m: usize) -> Option<usize>
    requires { (m ≤ 24) × (m ≤ length machines.now) }
    ensures { result ≡ found (least_to m (λ i. has mask i) (λ i. at machines.now i)) }
{
    (0..m)
        .filter(|&i| is_in(mask, i))
        .min_by_key(|&i| machines[i])
}
