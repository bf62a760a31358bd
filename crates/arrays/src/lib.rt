// Sums and the greatest over plain arrays, and sets of machines in words.
#![tactic(auto)]

ghost use Rattle.std.specs.Prelude.{◌≤◌, length};

pub mod scan;
pub mod sets;

// The most machines and the most jobs of an instance, as the lengths of arrays: 24 instruments; 200 batches, and a calibration for each
// instrument. And the marks of all jobs, one for each machine.
pub const MACHINES: usize = 24;

pub const JOBS: usize = 224;

pub const MARKS: usize = JOBS * MACHINES;

// The jobs of an instance: how many, each one's minutes, and the machines that it may run on as a set; and how many machines there are.
#[derive(Clone, Copy)]
pub struct Jobs<'a> {
    pub m: usize,
    pub n: usize,
    pub minutes: &'a [u16],
    pub masks: &'a [u32],
    ghost few_machines: { m ≤ 24 },
    ghost few_jobs: { n ≤ 224 },
    ghost timed: { n ≤ length minutes.now },
    ghost listed: { n ≤ length masks.now },
}

// The place of each job, 0 for none, with the load of each machine.
// Arrays as long as an instance can be, since nothing is on the heap, and 0 in place of an Option, as the rules' assignment has it.
#[derive(Clone, Copy)]
pub struct Placement {
    pub places: [u8; JOBS],
    pub loads: [u32; MACHINES],
}
