// Who would finish earlier elsewhere. Contracts number machines and jobs from 1, with 0 for none; the code has their indices.
ghost use Rattle.std.specs.Prelude.{◌≡◌, ℕ, suc, ◌<◌, take};
ghost use Rattle.rules.specs.Fold.{first_to};
ghost use Rattle.rules.specs.Instance.{Instance};
ghost use Rattle.rules.specs.Load.{improves};
ghost use Rattle.arrays.specs.Found.{found};
ghost use Rattle.arrays.specs.Jobs.{Says};
ghost use Rattle.arrays.specs.Reads.{Reads};
ghost use Rattle.settling.specs.Settling.{other, placed, Placed, Placing, Known, KnownIn};

use arrays::Jobs;
use arrays::sets::is_in;

// The machine at index i is another one of the set than `place`.
pub fn is_other(mask: u32, place: u8, i: usize) -> bool
    requires { i < 24 }
    ensures { result ≡ other mask place (suc i) }
{
    is_in(mask, i) && i + 1 != usize::from(place)
}

// The job at index b would finish earlier on another machine. It takes slices of any length, and a caller need not have how many jobs
// there are: `Jobs` would ask for that.
pub fn improves(
    loads: &[u32],
    places: &[u8],
    minutes: &[u16],
    masks: &[u32],
    m: usize,
    b: usize,
) -> bool
    requires { (n : ℕ) × KnownIn m n minutes.now masks.now places.now loads.now × (b < n) }
    ensures { (I : Instance) (n : ℕ) → Reads I m n minutes.now masks.now → Placed I m n places.now loads.now
        → b < n → result ≡ improves I (take n places.now) (suc b) }
{
    let w = u32::from(minutes[b]);
    let mask = masks[b];
    let place = places[b];
    let top = loads[usize::from(place) - 1];
    (0..m).any(|i| loads[i] + w < top && is_other(mask, place, i))
}

// The same of a job of `jobs`, for the searches below.
pub(crate) fn job_improves(jobs: &Jobs, places: &[u8], loads: &[u32], b: usize) -> bool
    requires { Known jobs.now (placed places.now loads.now) × (b < jobs.now.n) }
    ensures within { b < jobs.now.n }
    ensures same { (I : Instance) → Says I jobs.now → Placing I jobs.now (placed places.now loads.now)
        → result ≡ improves I (take jobs.now.n places.now) (suc b) }
{
    improves(loads, places, jobs.minutes, jobs.masks, jobs.m, b)
}

// The lowest job that would.
pub fn first_improving(jobs: &Jobs, places: &[u8], loads: &[u32]) -> Option<usize>
    requires { Known jobs.now (placed places.now loads.now) }
    ensures { (I : Instance) → Says I jobs.now → Placing I jobs.now (placed places.now loads.now)
        → result ≡ found (first_to jobs.now.n (λ b. improves I (take jobs.now.n places.now) b)) }
{
    (0..jobs.n).find(|b| job_improves(jobs, places, loads, *b))
}
