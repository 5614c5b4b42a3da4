// The best chroma of a set of levels: what is right, and what it means, in specs/ and proofs/; the code is the crate `level_set`. What is
// handed back is `Chosen` of `pair_rules`.
#![tactic(auto)]
