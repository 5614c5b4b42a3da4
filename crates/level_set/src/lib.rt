// One chroma and its hues for a set of levels: `best_for_level_set` of xtask/src/palette.rs, over a lent table.
// Its cases are in `level_set_cases`.
#![tactic(auto)]

ghost use Rattle.std.specs.Prelude.{◌≡◌, length};
ghost use Rattle.limits.specs.Answers.{value, Untouched};
ghost use Rattle.limits.specs.Refusals.{said};
ghost use Rattle.gamut.specs.Table.{row_at};
ghost use Rattle.pair_rules.specs.Rows.{least_row};
ghost use Rattle.pair_rules.specs.Pair.{entries_taken, Gives};
ghost use Rattle.level_set_rules.specs.Set.{rows_at, indices_taken, named_checked, set_says};
ghost use Rattle.level_set.specs.Inner.{LevelOf, Named, Long, Endless, Lowered};

use gamut::Gamut;
use limits::Refusal;
pub use pair_rules::Chosen;

// Whether each index is below n.
fn takes_indices(levels: &[usize], n: usize) -> bool
    ensures { result ≡ indices_taken n levels.now }
{
    levels.iter().all(|&level| level < n)
}

// The row of a level of the table.
#[tactic(auto, using(gamut::proofs::Table::part_row))]
fn row_at(table: &[f32], level: usize) -> &[f32]
    requires { LevelOf table.now level }
    ensures { result.now ≡ row_at table.now level }
{
    let from = level * Gamut::HUES;
    &table[from..from + Gamut::HUES]
}

// Whether each entry of each row named is taken.
fn takes_rows(table: &[f32], levels: &[usize]) -> bool
    requires { Named table.now levels.now }
    ensures { result ≡ entries_taken (rows_at table.now levels.now) }
{
    levels
        .iter()
        .all(|&level| limits::takes_entries(row_at(table, level)))
}

// The first refusal of a call whose hue count is taken, of 6, 8, 18, 11 and, over the rows named, 7.
#[tactic(auto, unfolding(level_set_rules::specs::Set::named_checked, level_set_rules::specs::Set::list_taken, gamut::specs::Table::levels_in, placement_rules::specs::Placing::work_needed))]
fn check(table: &[f32], levels: &[usize], room: usize) -> Result<(), Refusal>
    ensures { said result ≡ named_checked table.now levels.now room (value tt) }
{
    if !gamut::takes_table(table) {
        return Err(Refusal::TableLength);
    }
    if room < Gamut::HUES {
        return Err(Refusal::WorkBuffer);
    }
    if levels.is_empty() || 8 < levels.len() {
        return Err(Refusal::LevelList);
    }
    if !takes_indices(levels, table.len() / Gamut::HUES) {
        return Err(Refusal::LevelIndex);
    }
    if !takes_rows(table, levels) {
        return Err(Refusal::Entry);
    }
    Ok(())
}

// Lowers each number of a row to the entry of another where that is less, by a comparison made here, so that the
// compiler takes several entries at once; `f32::min` leaves open which of two zeros it gives.
fn lower(by: &[f32], row: &mut [f32])
    requires { Long by.now row.old }
    ensures { Lowered by.now row.old row.new }
{
    for (i, value) in row.iter_mut().enumerate() {
        let entry = by[i];
        *value = if *value < entry { *value } else { entry };
    }
}

// Lowers a row that is endless throughout by each row named, the last one first.
fn lower_all(table: &[f32], levels: &[usize], row: &mut [f32])
    requires { Named table.now levels.now × Endless row.old }
    ensures { row.new ≡ least_row (rows_at table.now levels.now) }
{
    for &level in levels.iter().rev() {
        lower(row_at(table, level), row);
    }
}

// The best chroma at which k hues, at least the step for k apart all round, have an entry of at least it at each level named, to within
// 2^-15, by 30 halvings from 0; none where no hue has a value above 0. With the hues comes their smallest gap round the circle. Indices
// may repeat. The work buffer's content is left free where the call is accepted, and does not matter.
pub fn best_for_level_set(
    table: &[f32],
    levels: &[usize],
    k: usize,
    work: &mut [u16],
) -> Result<Option<Chosen>, Refusal>
    ensures gives { Gives 720 k result (set_says k table.now levels.now (length work.old)) }
    ensures untouched { Untouched (set_says k table.now levels.now (length work.old)) work.old work.new }
{
    let step = placement_checks::step_for(k)?;
    check(table, levels, work.len())?;
    let mut row = [f32::INFINITY; 720];
    lower_all(table, levels, &mut row);
    if 0.0 < pair::largest(&row) {
        return pair::best_for_row(&row, k, step, 0.0, work);
    }
    Ok(None)
}
