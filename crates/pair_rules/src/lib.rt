// What the best of a pair hands back, and that of a set of levels. The rule, over any number of rows, and what it means stand in
// specs/ and proofs/; the code is the crates `pair` and `level_set`.
#![tactic(auto)]

// The best of a pair, of one row, or of a set of levels.
#[derive(Clone, Copy)]
pub struct Chosen {
    // the last chroma placed
    pub chroma: f32,
    // its sixteen hues, zeros after the first k
    pub hues: [u16; 16],
    // their smallest gap round the ring, in positions, the closing one included
    pub tightest: usize,
}
