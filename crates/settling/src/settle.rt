// Settling: one move after another until no job would finish earlier elsewhere. Contracts number machines and jobs from 1, with 0
// for none; the code has their indices.
ghost use Rattle.std.specs.Prelude.{◌≡◌, ℕ, suc, ◌+◌, ◌-◌, ◌<◌, ◌≤◌, ◌^◌, take, get_or, set};
ghost use Rattle.rules.specs.Fold.{at, least_to};
ghost use Rattle.rules.specs.Instance.{Instance};
ghost use Rattle.rules.specs.Settle.{mover};
ghost use Rattle.arrays.specs.Found.{found};
ghost use Rattle.arrays.specs.Jobs.{Says};
ghost use Rattle.settling.specs.Settling.{other, placed, Placing, Known, shifted, Due, Moved, SettledTo};

use crate::improve::{is_other, job_improves};
use arrays::{Jobs, Placement};
use std::cmp::Reverse;

// Where settling ends, and how many moves it took.
#[derive(Clone, Copy)]
pub struct Settled {
    pub end: Placement,
    pub moves: u64,
}

// The job that moves next: the longest that would finish earlier elsewhere, the lowest on a tie.
pub fn mover(jobs: &Jobs, places: &[u8], loads: &[u32]) -> Option<usize>
    requires { Known jobs.now (placed places.now loads.now) }
    ensures { (I : Instance) → Says I jobs.now → Placing I jobs.now (placed places.now loads.now)
        → result ≡ found (mover I (take jobs.now.n places.now)) }
{
    (0..jobs.n)
        .filter(|b| job_improves(jobs, places, loads, *b))
        .min_by_key(|b| Reverse(jobs.minutes[*b]))
}

// Of the other machines that the job at index b may run on, the one of least load, the lowest on a tie.
fn least_other(jobs: &Jobs, placement: &Placement, b: usize) -> Option<usize>
    requires { b < jobs.now.n }
    ensures { result ≡ found (least_to jobs.now.m
        (λ i. other (at jobs.now.masks.now (suc b)) (at placement.now.places (suc b)) i) (λ i. at placement.now.loads i)) }
{
    let mask = jobs.masks[b];
    let place = placement.places[b];
    (0..jobs.m)
        .filter(|i| is_other(mask, place, *i))
        .min_by_key(|i| placement.loads[*i])
}

// The job at index k goes to the machine at index j, and the loads with it.
fn shift(jobs: &Jobs, placement: &mut Placement, k: usize, j: usize)
    requires on_a_machine { (k < jobs.now.n) × (0 < get_or placement.old.places k 0) × (get_or placement.old.places k 0 ≤ 24) × (j < 24) }
    requires loaded { get_or jobs.now.minutes.now k 0 ≤ get_or placement.old.loads (get_or placement.old.places k 0 - 1) 0 }
    requires room { get_or placement.old.loads j 0 + get_or jobs.now.minutes.now k 0 < 2 ^ 32 }
    ensures places_after { placement.new.places ≡ set placement.old.places k (j + 1) }
    ensures loads_after { placement.new.loads
        ≡ shifted placement.old.loads (get_or placement.old.places k 0 - 1) j (get_or jobs.now.minutes.now k 0) }
{
    let i = usize::from(placement.places[k]) - 1;
    let w = u32::from(jobs.minutes[k]);
    placement.loads[i] -= w;
    placement.loads[j] += w;
    placement.places[k] = (j + 1) as u8;
}

// The job at index k, the one that moves next, goes to the least loaded of its other machines.
fn relocate(jobs: &Jobs, placement: &mut Placement, k: usize)
    requires { Due jobs.now placement.old (suc k) }
    ensures { (I : Instance) → Says I jobs.now → Placing I jobs.now placement.old
        → mover I (take jobs.now.n placement.old.places) ≡ suc k → Moved I jobs.now placement.old placement.new (suc k) }
{
    let j = least_other(jobs, placement, k).unwrap();
    shift(jobs, placement, k, j);
}

// One move after another until no job would finish earlier elsewhere. The loads are those of the places.
pub fn settle(jobs: &Jobs, placement: Placement) -> Settled
    requires { Known jobs.now placement }
    ensures { (I : Instance) → Says I jobs.now → Placing I jobs.now placement
        → SettledTo I jobs.now placement result.end result.moves }
{
    let mut end = placement;
    let mut moves: u64 = 0;
    while let Some(k) = mover(jobs, &end.places, &end.loads) {
        relocate(jobs, &mut end, k);
        moves += 1;
    }
    Settled { end, moves }
}
