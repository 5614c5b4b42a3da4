// The best chroma where one hue is fixed: `best_at_orientation` of xtask/src/palette.rs, for a hue index in place of the angle.
// Its cases are in `orientation_cases`.
#![tactic(auto)]

ghost use Rattle.std.specs.Prelude.{◌≡◌, [], ◌∷◌, replicate};
ghost use Rattle.limits.specs.Answers.{value};
ghost use Rattle.limits.specs.Refusals.{said};
ghost use Rattle.gamut.specs.Table.{row_at};
ghost use Rattle.pair_rules.specs.Rows.{value_at};
ghost use Rattle.orientation_rules.specs.Orientation.{replaces, over_partners, best_fixed, orientation_checked, orientation_says, Gives};
ghost use Rattle.orientation.specs.Inner.{best_of, There, Paired, Taken, Lit, Passed, Handed};

use comparing::lesser;
use gamut::Gamut;
use limits::Refusal;
pub use orientation_rules::Oriented;

// The first refusal of a call, of 2, 6, 7 over the whole table and 12.
#[tactic(auto, unfolding(orientation_rules::specs::Orientation::orientation_checked))]
fn check(gap: f32, table: &[f32], hue: usize) -> Result<(), Refusal>
    ensures { said result ≡ orientation_checked gap table.now hue (value tt) }
{
    if !limits::takes_gap(gap) {
        return Err(Refusal::Gap);
    }
    gamut::check_table(table)?;
    if Gamut::HUES <= hue {
        return Err(Refusal::HueIndex);
    }
    Ok(())
}

// The best so far.
#[derive(Clone, Copy)]
struct Kept {
    chroma: f32,
    // the dark and the light level index
    dark: usize,
    light: usize,
    partner: usize,
}

// Whether a chroma replaces the best so far.
fn replaces(chroma: f32, best: Option<Kept>) -> bool
    ensures { result ≡ replaces chroma (best_of best) }
{
    match best {
        None => 35.0 <= chroma,
        Some(kept) => kept.chroma < chroma,
    }
}

// What a hue has at two levels.
// The two indices are kept apart, as document 01 names them in `Best::Found`.
fn value_at(table: &[f32], dark: usize, light: usize, hue: usize) -> f32
    requires { There table.now dark light hue }
    ensures { result ≡ value_at (row_at table.now dark ∷ row_at table.now light ∷ []) hue }
{
    lesser(
        table[dark * Gamut::HUES + hue],
        table[light * Gamut::HUES + hue],
    )
}

// The best so far after the partners of the fixed hue on two levels, in their order. Where what the fixed hue itself has would not
// replace it, no partner does.
// The two indices are kept apart, as document 01 names them in `Best::Found`.
fn over_partners(
    table: &[f32],
    hue: usize,
    dark: usize,
    light: usize,
    mut best: Option<Kept>,
) -> Option<Kept>
    requires { Paired table.now hue dark light (best_of best) }
    ensures { best_of result ≡ over_partners table.now hue dark light (best_of best) }
{
    let own = value_at(table, dark, light, hue);
    if !replaces(own, best) {
        return best;
    }
    for on in 301..420 {
        let partner = (hue + on) % Gamut::HUES;
        let chroma = lesser(own, value_at(table, dark, light, partner));
        if replaces(chroma, best) {
            best = Some(Kept {
                chroma,
                dark,
                light,
                partner,
            });
        }
    }
    best
}

// The best so far after the light levels of a dark one, in their order.
fn over_light(
    gap: f32,
    table: &[f32],
    hue: usize,
    dark: usize,
    mut best: Option<Kept>,
) -> Option<Kept>
    requires { Lit gap table.now hue dark (best_of best) }
    ensures { Passed gap table.now hue dark (best_of best) (best_of result) }
{
    for light in 0..table.len() / Gamut::HUES {
        if search_checks::far_enough(gap, dark as u16, light as u16) {
            best = over_partners(table, hue, dark, light, best);
        }
    }
    best
}

// The best of all dark levels, in their order.
fn over_dark(gap: f32, table: &[f32], hue: usize) -> Option<Kept>
    requires { Taken gap table.now hue }
    ensures { best_of result ≡ best_fixed gap table.now hue }
{
    let mut best = None;
    for dark in 0..table.len() / Gamut::HUES {
        best = over_light(gap, table, hue, dark, best);
    }
    best
}

// Sixteen hues of which two stand for something.
fn two_hues(hue: u16, partner: u16) -> [u16; 16]
    ensures { result ≡ hue ∷ partner ∷ replicate 14 0 }
{
    let mut hues = [0u16; 16];
    hues[0] = hue;
    hues[1] = partner;
    hues
}

// The best of all with its hues.
fn handed(best: Option<Kept>, hue: usize) -> Option<Oriented>
    requires { Handed (best_of best) hue }
    ensures { Gives (Ok result) hue (value (best_of best)) }
{
    let kept = best?;
    Some(Oriented {
        chroma: kept.chroma,
        dark: kept.dark,
        light: kept.light,
        hues: two_hues(hue as u16, kept.partner as u16),
    })
}

// The best chroma of a table where one hue is fixed and its partner lies 301 to 419 positions on, on two levels at least gap + 1 apart:
// the greatest there is, at the first such levels and partner in the order of the loops.
pub fn best_at_orientation(gap: f32, table: &[f32], hue: usize) -> Result<Option<Oriented>, Refusal>
    ensures { Gives result hue (orientation_says gap table.now hue) }
{
    check(gap, table, hue)?;
    Ok(handed(over_dark(gap, table, hue), hue))
}
