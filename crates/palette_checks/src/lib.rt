// What a palette is derived from, and what derivation and back-off refuse: numbers 1, 3, 9, 11 and 12.
// Its cases are in `palette_cases`.
#![tactic(auto)]

ghost use Rattle.std.specs.Prelude.{◌≡◌, leb, take};
ghost use Rattle.std.specs.List.{list_all};
ghost use Rattle.limits.specs.Answers.{value};
ghost use Rattle.limits.specs.Lent.{directions_said};
ghost use Rattle.palette_checks.specs.Designs.{design_checked};

use gamut::Gamut;
use limits::{Directions, Refusal};

// What a palette is derived from, but for its chroma.
// Sixteen hues and a count, as document 01 hands them out.
#[derive(Clone, Copy)]
pub struct Design {
    // how many hues
    pub k: usize,
    // the index of the dark level
    pub dark: usize,
    // the index of the light level
    pub light: usize,
    // the hue indices; those after the first k may be anything
    pub hues: [u16; 16],
}

// Whether the first k of sixteen hue indices are at most 719.
fn takes_hues(k: usize, hues: [u16; 16]) -> bool
    ensures { result ≡ list_all (λ h. leb h 719) (take k hues) }
{
    hues.iter().take(k).all(|hue| *hue <= 719)
}

// The directions, or the first refusal of 1, 3, 9, 11 and 12.
// Kept as two slices: it is this call that refuses them.
#[tactic(auto, using(crate::proofs::Hues::all_taken), unfolding(crate::specs::Designs::design_checked, crate::specs::Designs::levels_taken))]
pub fn check_design<'a>(
    design: Design,
    chroma: f32,
    cos: &'a [f32],
    sin: &'a [f32],
) -> Result<Directions<'a>, Refusal>
    ensures { directions_said result ≡ design_checked design chroma cos.now sin.now (value (cos.now, sin.now)) }
{
    if !limits::takes_hue_count(design.k) {
        return Err(Refusal::HueCount);
    }
    if !limits::takes_chroma(chroma) {
        return Err(Refusal::Chroma);
    }
    let directions = Directions::new(cos, sin)?;
    if design.dark >= Gamut::LEVELS || design.light >= Gamut::LEVELS {
        return Err(Refusal::LevelIndex);
    }
    if !takes_hues(design.k, design.hues) {
        return Err(Refusal::HueIndex);
    }
    Ok(directions)
}
