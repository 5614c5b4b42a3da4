// What a start and a step refuse before they read a row, numbers 1, 2, 6, 7 and 15, 14, 6, 8, whether a record is broken, and whether
// a pair of levels is far enough apart to be read.
// Its cases are in `search_cases`.
#![tactic(auto)]

ghost use Rattle.std.specs.Prelude.{◌≡◌};
ghost use Rattle.limits.specs.Answers.{value};
ghost use Rattle.limits.specs.Refusals.{said};
ghost use Rattle.search_rules.specs.Job.{gap_starts, start_checked, best_held, handed, hues_held, tightest_held, unbroken, step_checked, far_enough, qualifies};

use gamut::Gamut;
use limits::Refusal;
use search_rules::{Best, Job, Settings};

// Whether a job may be begun with this gap: one that number 2 of document 01 takes, and from 40 up.
fn starts_gap(gap: f32) -> bool
    ensures { result ≡ gap_starts gap }
{
    limits::takes_gap(gap) && 40.0 <= gap
}

// The first refusal of a start, of 1, 2, 6 and 7 over the whole table.
#[tactic(auto, unfolding(search_rules::specs::Job::start_checked_by))]
pub fn check_start(settings: Settings, table: &[f32]) -> Result<(), Refusal>
    ensures { said result ≡ start_checked settings table.now (value tt) }
{
    if !limits::takes_hue_count(settings.k) {
        return Err(Refusal::HueCount);
    }
    if !starts_gap(settings.gap) {
        return Err(Refusal::Gap);
    }
    gamut::check_table(table)
}

// Whether the first n hues are at most 719 and the others zero.
fn holds_hues(n: usize, hues: [u16; 16]) -> bool
    ensures { result ≡ hues_held n hues }
{
    hues.iter().take(n).all(|hue| *hue <= 719) && hues.iter().skip(n).all(|hue| *hue == 0)
}

// Whether a best so far is in its ranges, in a table of so many levels.
fn holds_best(levels: usize, best: Best) -> bool
    ensures { result ≡ best_held levels best }
{
    match best {
        Best::None => true,
        Best::Found(c, d, l) => 35.0 <= c && c <= 200.0 && d < levels && l < levels,
    }
}

// How many hues stand for something beside a best so far.
fn handed(k: usize, best: Best) -> usize
    ensures { result ≡ handed k best }
{
    match best {
        Best::None => 0,
        Best::Found(..) => k,
    }
}

// Whether the smallest gap beside a best so far is in its range, or 0 where there is none.
fn holds_tightest(best: Best, tightest: usize) -> bool
    ensures { result ≡ tightest_held best tightest }
{
    match best {
        Best::None => tightest == 0,
        Best::Found(..) => (1..=Gamut::HUES).contains(&tightest),
    }
}

// Whether no field of a job is out of its range.
#[tactic(auto, unfolding(search_rules::specs::Job::unbroken))]
pub fn is_unbroken(job: Job) -> bool
    ensures { result ≡ unbroken job }
{
    limits::takes_hue_count(job.settings.k)
        && limits::takes_gap(job.settings.gap)
        && (1..=Gamut::LEVELS).contains(&job.levels)
        && job.position <= job.levels * job.levels
        && holds_best(job.levels, job.best)
        && holds_hues(handed(job.settings.k, job.best), job.hues)
        && holds_tightest(job.best, job.tightest)
}

// The first refusal of a step before it reads a row, of 15, 14, 6 and 8.
#[tactic(auto, unfolding(search_rules::specs::Job::step_checked, placement_rules::specs::Placing::work_needed))]
pub fn check_step(job: Job, length: usize, room: usize) -> Result<(), Refusal>
    ensures { said result ≡ step_checked job length room (value tt) }
{
    if !is_unbroken(job) {
        return Err(Refusal::Broken);
    }
    if job.levels * job.levels <= job.position {
        return Err(Refusal::Finished);
    }
    if length != job.levels * Gamut::HUES {
        return Err(Refusal::TableLength);
    }
    if room < Gamut::HUES {
        return Err(Refusal::WorkBuffer);
    }
    Ok(())
}

// Whether the light level minus the dark one is not below gap + 1, one f32 sum. With a NaN gap it never is below; whoever asks has
// refused that gap before.
pub fn far_enough(gap: f32, dark: u16, light: u16) -> bool
    ensures { result ≡ far_enough gap dark light }
{
    !(Gamut::l_of(light) - Gamut::l_of(dark) < gap + 1.0)
}

// Whether a job with these settings searches a pair of levels.
#[tactic(auto, unfolding(search_rules::specs::Job::qualifies))]
pub fn qualifies(settings: Settings, dark: u16, light: u16) -> bool
    ensures { result ≡ qualifies settings dark light }
{
    far_enough(settings.gap, dark, light)
}
