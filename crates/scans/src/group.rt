// Groups of machines: as words the closure of a machine and all machines; a group's list; and by marks the lower bound that it shows.
ghost use Rattle.std.specs.Prelude.{◌≡◌, List, ℕ, suc, ◌+◌, ◌*◌, ◌<◌, ◌≤◌, ◌^◌, length, take, leb};
ghost use Rattle.rules.specs.Fold.{pick, at, mem, any_to, those_to};
ghost use Rattle.rules.specs.Instance.{Instance};
ghost use Rattle.rules.specs.Group.{reach, closure};
ghost use Rattle.rules.specs.LowerBound.{confined, ceil_div, lower_bound};
ghost use Rattle.rules.specs.Load as Load;
ghost use Rattle.rules.specs.Marks.{marks_of};
ghost use Rattle.theory.proofs.Closure.{IsGroup};
ghost use Rattle.arrays.specs.Sets.{has, SetOf};
ghost use Rattle.arrays.specs.Reads.{Reads};
ghost use Rattle.scans.specs.Grouping.{among, group_by, HoldsList};
ghost use Rattle.scans.specs.Marks.{Marked};

use crate::marks::lies_within;
use crate::scan::some_underloaded;
use arrays::sets::{is_in, with};
use arrays::{Jobs, MACHINES};

// The machines that a job adds: its set where its place is in `g`, none otherwise.
fn added(g: u32, m: usize, place: u8, mask: u32) -> u32
    requires { m ≤ 24 }
    ensures { result ≡ pick (among g m place) mask 0 }
{
    let p = usize::from(place);
    if p != 0 && p <= m && is_in(g, p - 1) {
        mask
    } else {
        0
    }
}

// One round: the machines of `g`, and every machine that a job on `g` may run on.
fn reach_once(places: &[u8], masks: &[u32], n: usize, m: usize, g: u32) -> u32
    requires { (m ≤ 24) × (n ≤ length places.now) × (n ≤ length masks.now) }
    ensures { (I : Instance) (lengths list : List ℕ) → Reads I m n lengths masks.now → IsGroup I list → SetOf (λ i. mem i list) g
        → SetOf (λ i. mem i (reach I (take n places.now) list)) result }
{
    let mut x = g;
    for b in 0..n {
        x |= added(g, m, places[b], masks[b]);
    }
    x
}

// The closure of machine `i`: rounds until one adds nothing, at most `m`. It takes slices of any length, since `Jobs` would ask more of
// callers.
pub fn closure_of(places: &[u8], masks: &[u32], n: usize, m: usize, i: usize) -> u32
    requires { (m ≤ 24) × (n ≤ length places.now) × (n ≤ length masks.now) × (0 < i) × (i ≤ m) }
    ensures { (I : Instance) (lengths : List ℕ) → Reads I m n lengths masks.now
        → SetOf (λ j. mem j (closure I (take n places.now) i)) result }
{
    let mut g = with(0, i);
    for _ in 0..m {
        let wider = reach_once(places, masks, n, m, g);
        if wider == g {
            return g;
        }
        g = wider;
    }
    g
}

// The machines 1 to `m`.
pub fn all_machines(m: usize) -> u32
    requires { m ≤ 24 }
    ensures { SetOf (λ i. leb i m) result }
{
    (1 << m) - 1
}

// The group of a trial of these jobs that failed with these loads and places, where the machine at index `over` is the lowest overloaded
// one: all machines where none is underloaded, otherwise the closure of that one.
// An inner function, so it takes `Jobs`, whose invariants say what its clause said.
pub fn group_of(loads: &[u32], places: &[u8], jobs: &Jobs, low: &[u32], over: usize) -> u32
    requires { (jobs.now.m ≤ length loads.now) × (jobs.now.n ≤ length places.now) × (jobs.now.m ≤ length low.now) × (over < jobs.now.m) }
    ensures { (I : Instance) (lengths : List ℕ) → Reads I jobs.now.m jobs.now.n lengths jobs.now.masks.now
        → SetOf (λ j. mem j (group_by I (take jobs.now.n places.now) (suc over)
        (any_to jobs.now.m (λ i. leb (at loads.now i) (at low.now i))))) result }
{
    if some_underloaded(loads, low, jobs.m) {
        closure_of(places, jobs.masks, jobs.n, jobs.m, over + 1)
    } else {
        all_machines(jobs.m)
    }
}

// A list of machines: `size` of them, and zeros after them, in an array, since nothing is on the heap.
#[derive(Clone, Copy)]
pub struct Members {
    pub list: [u8; MACHINES],
    pub size: usize,
}

// The machines 1 to `m` of a set, ascending. A number up to 24 fits `u8`: `try_from` would bring a failure that cannot be.
pub fn members_of(x: u32, m: usize) -> Members
    requires { m ≤ 24 }
    ensures { HoldsList (those_to m (λ i. has x i)) result.list result.size }
{
    let mut list = [0u8; MACHINES];
    let mut size = 0;
    for i in 0..m {
        if is_in(x, i) {
            list[size] = (i + 1) as u8;
            size += 1;
        }
    }
    Members { list, size }
}

// The minutes of the jobs whose machines all lie in the group, by 24 marks for each job and those of the group.
pub fn confined_of(minutes: &[u16], marks: &[u8], n: usize, group: &[u8]) -> u32
    requires { (n ≤ 224) × (n ≤ length minutes.now) × (n * 24 ≤ length marks.now) × (length group.now ≡ 24) }
    ensures upper_bound { result ≤ 14679840 }
    ensures value { (I : Instance) (m : ℕ) (sets list : List ℕ) → Reads I m n minutes.now sets → Marked I n marks.now
        → group.now ≡ marks_of list → result ≡ confined I list }
{
    (0..n)
        .filter(|&b| lies_within(&marks[b * MACHINES..(b + 1) * MACHINES], group))
        .map(|b| u32::from(minutes[b]))
        .sum()
}

// Minutes shared out over `size` machines, rounded up.
pub fn share_of(confined: u32, size: u32) -> u32
    requires { 0 < size }
    ensures { result ≡ ceil_div confined size }
{
    confined.div_ceil(size)
}

// The lower bound by a group of `size` machines, by the longest length alone where it has none.
pub fn bound_of(
    longest: u32,
    minutes: &[u16],
    marks: &[u8],
    n: usize,
    group: &[u8],
    size: u32,
) -> u32
    requires { (size ≤ 24) × (n ≤ 224) × (n ≤ length minutes.now) × (n * 24 ≤ length marks.now) × (length group.now ≡ 24) }
    ensures { (I : Instance) (m : ℕ) (sets list : List ℕ) → Reads I m n minutes.now sets → Marked I n marks.now
        → group.now ≡ marks_of list → size ≡ length list → longest ≡ Load.longest I → result ≡ lower_bound I list }
{
    if size == 0 {
        return longest;
    }
    longest.max(share_of(confined_of(minutes, marks, n, group), size))
}
