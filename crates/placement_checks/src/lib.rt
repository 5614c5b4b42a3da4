// What a placement refuses, numbers 1, 3, 4, 5, 7 and 8, and the step for k.
// Its cases are in `placement_cases`.
#![tactic(auto)]

ghost use Rattle.std.specs.Prelude.{◌≡◌};
ghost use Rattle.limits.specs.Answers.{value};
ghost use Rattle.limits.specs.Refusals.{said};
ghost use Rattle.placement_rules.specs.Placing.{checked, step_says};

use limits::Refusal;

// How far apart k hues must be, in half degrees: ceil(600 / k) + 1, a line for each k, to be read beside the written separation rule.
#[tactic(auto, unfolding(placement_rules::specs::Placing::step_says, placement_rules::specs::Placing::step_for, limits::specs::Taken::hue_count_taken))]
pub fn step_for(k: usize) -> Result<usize, Refusal>
    ensures { said result ≡ step_says k }
{
    match k {
        1 => Ok(601),
        2 => Ok(301),
        3 => Ok(201),
        4 => Ok(151),
        5 => Ok(121),
        6 => Ok(101),
        7 => Ok(87),
        8 => Ok(76),
        9 => Ok(68),
        10 => Ok(61),
        11 => Ok(56),
        12 => Ok(51),
        13 => Ok(48),
        14 => Ok(44),
        15 => Ok(41),
        16 => Ok(39),
        0 | 17.. => Err(Refusal::HueCount),
    }
}

// The first refusal that applies to a placement, of 1, 3, 4, 5, 7 and 8.
// k and step are kept apart: it is this call that refuses each.
#[tactic(auto, unfolding(placement_rules::specs::Placing::checked, placement_rules::specs::Placing::work_needed))]
pub fn check(m: &[f32], c: f32, k: usize, step: usize, room: usize) -> Result<(), Refusal>
    ensures { said result ≡ checked k step c m.now room (value tt) }
{
    let n = m.len();
    if !limits::takes_hue_count(k) {
        return Err(Refusal::HueCount);
    }
    if !limits::takes_chroma(c) {
        return Err(Refusal::Chroma);
    }
    if !(1..=720).contains(&n) {
        return Err(Refusal::RingLength);
    }
    if !(1..=n).contains(&step) {
        return Err(Refusal::Spacing);
    }
    if !limits::takes_entries(m) {
        return Err(Refusal::Entry);
    }
    if room < n {
        return Err(Refusal::WorkBuffer);
    }
    Ok(())
}
