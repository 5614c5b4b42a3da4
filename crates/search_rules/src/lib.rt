// The job that searches every pair of levels: its record. The rules of start and step, what a call hands back, and the theorem over
// whole runs stand in specs/ and proofs/; the code is the crate `search`.
#![tactic(auto)]

// What a start sets.
#[derive(Clone, Copy)]
pub struct Settings {
    // how many hues
    pub k: usize,
    // how far apart the two levels must be, less 1; from 40 up where a job is begun, and in one kept from before that rule from 0 up
    pub gap: f32,
}

// The best so far; its hues stand beside it in the job. An enum of its own and no `Option`: document 01 names this form, "None or Found
// with an f32 chroma and two level indices".
#[derive(Clone, Copy)]
pub enum Best {
    // none so far
    None,
    // a chroma, with the dark and the light level index
    Found(f32, usize, usize),
}

// A search, as it stands after some of its steps.
// Sixteen hues and a count in its settings: document 01 hands them out so.
#[derive(Clone, Copy)]
pub struct Job {
    pub settings: Settings,
    // how many levels the table has
    pub levels: usize,
    // how many pairs were gone through
    pub position: usize,
    pub best: Best,
    // zeros after the first k, and all zero where there is none so far
    pub hues: [u16; 16],
    // the smallest gap of these hues round the circle, in positions, the closing one included; 0 where there is none so far. Whoever
    // lends a job from before there was this field fills it in; no call does, and number 15 asks for its range alone
    pub tightest: usize,
}
