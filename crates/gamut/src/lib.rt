// The table of what a panel can show: for each lightness and hue the chroma that 40 halvings over the gamut test of sRGB end at.
// `Gamut` and `max_chroma` of xtask/src/palette.rs, with lent directions and one row filled at a call.
// Its cases are in `gamut_cases`.
#![tactic(auto)]

ghost use Rattle.std.specs.Prelude.{◌≡◌, length};
ghost use Rattle.limits.specs.Answers.{value};
ghost use Rattle.limits.specs.Refusals.{said};
ghost use Rattle.gamut.specs.Gamut.{level_of, max_chroma, fill_says, row_after, row_of};
ghost use Rattle.gamut.specs.Table.{table_taken, table_checked};

use limits::{Directions, Refusal};

// The shape of a table: rows of 720 entries, one for each level, lent as one slice. The calls take the slice itself; the type is where
// the table constants stand.
#[derive(Clone, Copy)]
pub struct Gamut {
    // how many levels it has
    pub levels: usize,
}

impl Gamut {
    // The lowest level's lightness.
    pub const L_MIN: f32 = 12.0;
    // How far apart two levels are.
    pub const L_STEP: f32 = 0.5;
    // How many hues a row has, half a degree apart.
    pub const HUES: usize = 720;
    // How many levels a table may have, up to a lightness of 96.
    pub const LEVELS: usize = 169;
    // The chroma up to which is looked.
    pub const C_PROBE: f32 = 200.0;

    // The lightness of a level. Nothing is refused: any number of half units above the lowest level has a lightness.
    pub fn l_of(li: u16) -> f32
        ensures { result ≡ level_of li }
    {
        Gamut::L_MIN + li as f32 * Gamut::L_STEP
    }
}

// Whether a slice is taken as a table, by its length.
#[tactic(auto, unfolding(crate::specs::Table::table_taken, crate::specs::Table::levels_in))]
pub fn takes_table(table: &[f32]) -> bool
    ensures { result ≡ table_taken table.now }
{
    let levels = table.len() / Gamut::HUES;
    table.len() == levels * Gamut::HUES && (1..=Gamut::LEVELS).contains(&levels)
}

// The first refusal of a table that is read whole, of 6 and 7.
#[tactic(auto, unfolding(crate::specs::Table::table_checked))]
pub fn check_table(table: &[f32]) -> Result<(), Refusal>
    ensures { said result ≡ table_checked table.now (value tt) }
{
    if !takes_table(table) {
        return Err(Refusal::TableLength);
    }
    if !limits::takes_entries(table) {
        return Err(Refusal::Entry);
    }
    Ok(())
}

// The chroma at lightness l in the direction (cos, sin) that 40 halvings from 0 to 200 end at, or 200 where that is in gamut. More may
// be in gamut beyond a part that is not. A round whose midpoint is an end and moves nothing is the last.
pub fn max_chroma(l: f32, cos: f32, sin: f32) -> f32
    ensures { result ≡ max_chroma l cos sin }
{
    if color::lch_in_gamut(l, Gamut::C_PROBE, cos, sin) {
        return Gamut::C_PROBE;
    }
    let mut lo = 0.0f32;
    let mut hi = Gamut::C_PROBE;
    for _ in 0..40u32 {
        let mid = halving::midpoint(lo, hi);
        if color::lch_in_gamut(l, mid, cos, sin) {
            if mid.to_bits() == lo.to_bits() {
                return lo;
            }
            lo = mid;
        } else {
            if mid.to_bits() == hi.to_bits() {
                return lo;
            }
            hi = mid;
        }
    }
    lo
}

// Writes the entries of the row at lightness l.
#[tactic(auto, using(limits::proofs::Long::directions_long))]
fn fill(l: f32, directions: &Directions<'_>, row: &mut [f32])
    requires { length row.old ≡ 720 }
    ensures { row.new ≡ row_of l directions.now.cos.now directions.now.sin.now }
{
    for (j, entry) in row.iter_mut().enumerate() {
        *entry = max_chroma(l, directions.cos[j], directions.sin[j]);
    }
}

// Fills the row of one level, by 720 lent directions. Refused by 9, 10 or 11, and then the row is as before.
// Kept as two slices: it is this call that refuses them.
#[tactic(auto, unfolding(crate::specs::Gamut::fill_says, crate::specs::Gamut::row_after))]
pub fn fill_row(level: usize, cos: &[f32], sin: &[f32], row: &mut [f32]) -> Result<(), Refusal>
    ensures { (said result ≡ fill_says level cos.now sin.now row.old)
        × (row.new ≡ row_after level cos.now sin.now row.old) }
{
    let directions = Directions::new(cos, sin)?;
    if row.len() != Gamut::HUES {
        return Err(Refusal::RowLength);
    }
    if level >= Gamut::LEVELS {
        return Err(Refusal::LevelIndex);
    }
    fill(Gamut::l_of(level as u16), &directions, row);
    Ok(())
}
