// How good a job is already: its best so far, and the ceiling of the pairs still to come.
// Its cases are in `ceiling_cases`.
#![tactic(auto)]

ghost use Rattle.std.specs.Prelude.{◌≡◌, cond, ◌<◌};
ghost use Rattle.limits.specs.Answers.{value};
ghost use Rattle.limits.specs.Refusals.{said};
ghost use Rattle.pair_rules.specs.Rows.{lesser, largest};
ghost use Rattle.search_rules.specs.Job.{qualifies};
ghost use Rattle.ceiling_rules.specs.Ceiling.{at_most, raised, ceiling_of, outlook_checked, outlook_says, ceiling_said, outlook_said};
ghost use Rattle.ceiling.specs.Inner.{Row, Rows, Tops, Passed};

pub use ceiling_rules::Outlook;
use gamut::Gamut;
use limits::Refusal;
use search_rules::{Job, Settings};

// The first refusal of a call, of 15, 6 and 7 over the whole table.
#[tactic(auto, unfolding(ceiling_rules::specs::Ceiling::outlook_checked))]
fn check(job: Job, table: &[f32]) -> Result<(), Refusal>
    ensures { said result ≡ outlook_checked job table.now (value tt) }
{
    if !search_checks::is_unbroken(job) {
        return Err(Refusal::Broken);
    }
    if table.len() != job.levels * Gamut::HUES {
        return Err(Refusal::TableLength);
    }
    if !limits::takes_entries(table) {
        return Err(Refusal::Entry);
    }
    Ok(())
}

// The largest entry of a row. Entries that are taken are in the order of their patterns, and of whole numbers several can be compared at
// once.
fn largest_of(row: &[f32]) -> f32
    requires { Row row.now }
    ensures { result ≡ largest row.now }
{
    let mut most = 0;
    for x in row {
        most = most.max(x.to_bits());
    }
    f32::from_bits(most)
}

// The largest entry of each row, each in the place of its level.
fn tops_of(table: &[f32]) -> [f32; 169]
    requires { Rows table.now }
    ensures { Tops table.now result }
{
    let mut tops = [0.0; 169];
    for (i, row) in table.chunks_exact(Gamut::HUES).enumerate() {
        tops[i] = largest_of(row);
    }
    tops
}

// The ceiling so far with one more number, by one comparison: `f32::max` leaves open which of two zeros it gives.
#[tactic(auto, unfolding(pair_rules::specs::Rows::greater))]
fn raised(x: f32, so: Option<f32>) -> f32
    ensures { at_most result ≡ raised x (ceiling_said so) }
{
    match so {
        Some(y) if !(y < x) => y,
        _ => x,
    }
}

// The ceiling so far with one more pair of levels, of which the dark row's largest entry is a and the light row's b.
// The two indices are kept apart, as document 01 names them in `Best::Found`.
fn with_pair(
    settings: Settings,
    dark: usize,
    light: usize,
    a: f32,
    b: f32,
    so: Option<f32>,
) -> Option<f32>
    requires { (dark < 169) × (light < 169) }
    ensures { ceiling_said result ≡ cond (qualifies settings dark light) (raised (lesser a b) (ceiling_said so)) (ceiling_said so) }
{
    if !search_checks::qualifies(settings, dark as u16, light as u16) {
        return so;
    }
    Some(raised(comparing::lesser(a, b), so))
}

// The ceiling of a job that is not broken, over a table of its levels.
fn ceiling_of(job: Job, table: &[f32]) -> Option<f32>
    requires { Passed job table.now }
    ensures { ceiling_said result ≡ ceiling_of job table.now }
{
    let tops = tops_of(table);
    let mut ceiling = None;
    for p in job.position..job.levels * job.levels {
        let dark = p / job.levels;
        let light = p % job.levels;
        ceiling = with_pair(job.settings, dark, light, tops[dark], tops[light], ceiling);
    }
    ceiling
}

// The best so far of a job, with the ceiling of what it may still find over its table, or that no qualifying pair is left. A finished
// job is not refused.
pub fn look_ahead(job: Job, table: &[f32]) -> Result<Outlook, Refusal>
    ensures { outlook_said result ≡ outlook_says job table.now }
{
    check(job, table)?;
    Ok(Outlook {
        best: job.best,
        ceiling: ceiling_of(job, table),
    })
}
