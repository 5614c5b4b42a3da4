// What a placement of k hues on a ring hands back. The rule, and what it means, stand in specs/ and proofs/; the code is the crate
// `placement`.
#![tactic(auto)]

// The hues that are placed.
#[derive(Clone, Copy)]
pub struct Placement {
    // zeros after the first k
    pub hues: [u16; 16],
    // the smallest gap of the first k round the ring, in positions, the closing one included
    pub tightest: usize,
}
