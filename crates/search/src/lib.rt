// The job that searches every pair of levels, a step at a time: `search` of xtask/src/palette.rs, with stepping added.
// Its cases are in `search_cases`.
#![tactic(auto)]

ghost use Rattle.std.specs.Prelude.{◌≡◌, length};
ghost use Rattle.limits.specs.Answers.{Untouched};
ghost use Rattle.pair_rules.specs.Pair as pair;
ghost use Rattle.search_rules.specs.Job.{begun, start_says, floor_of, beats, searched, step_says, steps_from, search_says, Gives};
ghost use Rattle.search.specs.Inner.{pair_given, Stepped};

use gamut::Gamut;
use limits::Refusal;
use pair::Chosen;
pub use search_rules::{Best, Job, Settings};

// The job at the beginning of a search. With 0 levels it is a blank one, to be lent where nothing of it is read.
pub fn begin(settings: Settings, levels: usize) -> Job
    ensures { result ≡ begun settings levels }
{
    Job {
        settings,
        levels,
        position: 0,
        best: Best::None,
        hues: [0; 16],
        tightest: 0,
    }
}

// Begins a search over a table, with a gap from 40 up. Nothing of the job that is lent is read; where the call is refused it is as it
// was.
pub fn start(settings: Settings, table: &[f32], job: &mut Job) -> Result<(), Refusal>
    ensures { Gives result job.old job.new (start_says settings table.now) }
{
    search_checks::check_start(settings, table)?;
    *job = begin(settings, table.len() / Gamut::HUES);
    Ok(())
}

// The chroma that a pair must reach.
fn floor_of(best: Best) -> f32
    ensures { result ≡ floor_of best }
{
    match best {
        Best::None => 35.0,
        Best::Found(c, ..) => c,
    }
}

// Whether a chroma replaces the best so far.
fn beats(chroma: f32, best: Best) -> bool
    ensures { result ≡ beats chroma best }
{
    match best {
        Best::None => true, // anything replaces it
        Best::Found(c, ..) => c < chroma,
    }
}

// The best of one pair of levels, from the job's floor.
// The two indices are kept apart, as document 01 names them in `Best::Found`.
fn best_of(
    table: &[f32],
    work: &mut [u16],
    job: &Job,
    dark: usize,
    light: usize,
) -> Result<Option<Chosen>, Refusal>
    requires { Stepped job.now table.now (length work.old) dark light }
    ensures gives { pair.Gives 720 job.now.settings.k result (pair_given job.now table.now dark light) }
    ensures untouched { Untouched (pair_given job.now table.now dark light) work.old work.new }
{
    let k = job.settings.k;
    let step = placement_checks::step_for(k)?;
    let from = dark * Gamut::HUES;
    let other = light * Gamut::HUES;
    pair::best_for_levels(
        &table[from..from + Gamut::HUES],
        &table[other..other + Gamut::HUES],
        k,
        step,
        floor_of(job.best),
        work,
    )
}

// Goes through one pair of levels.
// The two indices are kept apart, as document 01 names them in `Best::Found`.
fn go_through(
    table: &[f32],
    work: &mut [u16],
    job: &mut Job,
    dark: usize,
    light: usize,
) -> Result<(), Refusal>
    requires { Stepped job.old table.now (length work.old) dark light }
    ensures gives { Gives result job.old job.new (searched job.old table.now dark light) }
    ensures untouched { Untouched (searched job.old table.now dark light) work.old work.new }
{
    if search_checks::qualifies(job.settings, dark as u16, light as u16) {
        if let Some(chosen) = best_of(table, work, job, dark, light)? {
            let Chosen {
                chroma,
                hues,
                tightest,
            } = chosen;
            if beats(chroma, job.best) {
                let best = Best::Found(chroma, dark, light);
                *job = Job {
                    best,
                    hues,
                    tightest,
                    ..*job
                };
            }
        }
    }
    job.position += 1;
    Ok(())
}

// One step of a search over the table that it was begun with, whatever gap it was begun with. Where the call is refused the job is as it
// was, and so is the work buffer; else that buffer's content is left free, and does not matter.
pub fn step(table: &[f32], work: &mut [u16], job: &mut Job) -> Result<(), Refusal>
    ensures gives { Gives result job.old job.new (step_says job.old table.now (length work.old)) }
    ensures untouched { Untouched (step_says job.old table.now (length work.old)) work.old work.new }
{
    search_checks::check_step(*job, table.len(), work.len())?;
    let dark = job.position / job.levels;
    let light = job.position % job.levels;
    go_through(table, work, job, dark, light)
}

// So many steps, one after the other. A refused one leaves the job as it was; of those of a search that was begun none is refused
// (`steps_go` of search_rules/proofs/Goes).
fn take_steps(table: &[f32], work: &mut [u16], job: &mut Job, count: usize)
    ensures { job.new ≡ steps_from count job.old table.now (length work.old) }
{
    for _ in 0..count {
        let _ = step(table, work, job);
    }
}

// A whole search: a start, with a gap from 40 up, and all its steps. Where it is refused the job and the work buffer are as they were.
pub fn search(
    settings: Settings,
    table: &[f32],
    work: &mut [u16],
    job: &mut Job,
) -> Result<(), Refusal>
    ensures gives { Gives result job.old job.new (search_says settings table.now (length work.old)) }
    ensures untouched { Untouched (search_says settings table.now (length work.old)) work.old work.new }
{
    search_checks::check_start(settings, table)?;
    if work.len() < Gamut::HUES {
        return Err(Refusal::WorkBuffer);
    }
    let levels = table.len() / Gamut::HUES;
    *job = begin(settings, levels);
    take_steps(table, work, job, levels * levels);
    Ok(())
}
