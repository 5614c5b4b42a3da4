// How good a job is already: what a look ahead hands back. The rule and the theorems about the finished job stand in specs/ and proofs/;
// the code is the crate `ceiling`.
#![tactic(auto)]

use search_rules::Best;

// What a look ahead says.
#[derive(Clone, Copy)]
pub struct Outlook {
    // the best so far
    pub best: Best,
    // the ceiling of the pairs still to come; none where no qualifying pair is left
    pub ceiling: Option<f32>,
}
