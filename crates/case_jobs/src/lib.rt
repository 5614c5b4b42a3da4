// Job records by the words of a line, in an answer and in a digest.
#![tactic(auto)]

use case_lines::answers::Answer;
use case_lines::{digest, hues};
use cases::Line;
use patterns::float_of;
use search_rules::{Best, Job, Settings};

// The job of a list in which no line sets one: all its numbers are 0.
pub fn blank() -> Job {
    Job {
        settings: Settings { k: 0, gap: 0.0 },
        levels: 0,
        position: 0,
        best: Best::None,
        hues: [0; 16],
        tightest: 0,
    }
}

// The settings by two words.
pub fn settings_of(k: u32, gap: u32) -> Settings {
    Settings {
        k: k as usize,
        gap: float_of(gap),
    }
}

// Takes a line that sets a job.
pub fn take_line(line: &Line, job: &mut Job) -> Option<()> {
    match (line.operation(), line.words()) {
        // job k gap levels position tightest h ..: a job with none so far, zeros after the last hue
        (b"job", [k, gap, levels, position, tightest, hues @ ..]) if hues.len() <= 16 => {
            *job = Job {
                settings: settings_of(*k, *gap),
                levels: *levels as usize,
                position: *position as usize,
                best: Best::None,
                hues: hues::sixteen(hues),
                tightest: *tightest as usize,
            };
        }

        // best chroma dark light tightest: the job has this best and this tightest gap
        (b"best", [chroma, dark, light, tightest]) => {
            job.best = Best::Found(float_of(*chroma), *dark as usize, *light as usize);
            job.tightest = *tightest as usize;
        }
        _ => return None,
    }
    Some(())
}

// An answer with a best: 1, its chroma and its level indices, or 0 where there is none.
pub fn shown_best(to: Answer, best: Best) -> Answer {
    match best {
        Best::None => to.with(0),
        Best::Found(chroma, dark, light) => to
            .with(1)
            .with_float(chroma)
            .with_size(dark)
            .with_size(light),
    }
}

// An answer with a job: its hue count, gap, levels, position and tightest gap, its best, and its sixteen hues.
pub fn shown(to: Answer, job: &Job) -> Answer {
    let first = to
        .with_size(job.settings.k)
        .with_float(job.settings.gap)
        .with_size(job.levels)
        .with_size(job.position)
        .with_size(job.tightest);
    shown_best(first, job.best).with_hues(job.hues)
}

// A digest with a number, which counts as the greatest word where it is greater.
fn with_number(sum: u64, n: usize) -> u64 {
    let word = u32::try_from(n).unwrap_or(u32::MAX);
    digest::with_pattern(sum, word)
}

// A digest with a float by its pattern.
fn with_float(sum: u64, x: f32) -> u64 {
    digest::with_pattern(sum, patterns::pattern_of(x))
}

// A digest with a best: a byte that says whether there is one, and if so its chroma and its level indices.
fn digested_best(sum: u64, best: Best) -> u64 {
    match best {
        Best::None => digest::with_byte(sum, 0),
        Best::Found(chroma, dark, light) => {
            let first = with_float(digest::with_byte(sum, 1), chroma);
            with_number(with_number(first, dark), light)
        }
    }
}

// A digest with a job: its hue count, gap, levels and position, its best, its hues, and its tightest gap.
pub fn digested(sum: u64, job: &Job) -> u64 {
    let first = with_float(with_number(sum, job.settings.k), job.settings.gap);
    let second = with_number(with_number(first, job.levels), job.position);
    let third = digest::with_pairs(digested_best(second, job.best), &job.hues);
    with_number(third, job.tightest)
}
