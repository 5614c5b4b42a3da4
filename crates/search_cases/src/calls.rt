// Starts, steps and whole searches, each of the job that it changes.
use case_lines::answers::{Answer, number_of};
use case_lines::{digest, work_buffer};
use limits::Refusal;
use search::{Job, Settings};

// What came out of a call: its number and the job after it.
fn came_out(outcome: Result<(), Refusal>, job: &Job) -> Answer {
    case_jobs::shown(Answer::after(&outcome), job)
}

// What comes out of a start.
pub fn start(settings: Settings, table: &[f32], job: &mut Job) -> Answer {
    let outcome = search::start(settings, table, job);
    came_out(outcome, job)
}

// What comes out of a step, for the line with this number, in a work buffer of this length.
pub fn step(number: u64, room: u32, table: &[f32], job: &mut Job) -> Option<Answer> {
    work_buffer::lend(room as usize, work_buffer::seed_of(number), |work| {
        let outcome = search::step(table, work, job);
        came_out(outcome, job).with_left(&outcome, work)
    })
}

// What comes out of a whole search, for the line with this number, in a work buffer of this length.
pub fn search(
    number: u64,
    settings: Settings,
    room: u32,
    table: &[f32],
    job: &mut Job,
) -> Option<Answer> {
    work_buffer::lend(room as usize, work_buffer::seed_of(number), |work| {
        let outcome = search::search(settings, table, work, job);
        came_out(outcome, job).with_left(&outcome, work)
    })
}

// What comes out of so many steps in this work buffer: the digest of them all, and that of the work buffers after those that were
// refused; after an accepted one what it holds is free.
fn stepped(count: u32, seed: u32, table: &[f32], work: &mut [u16], job: &mut Job) -> Answer {
    let mut sum = digest::START;
    let mut left = digest::START;
    for _ in 0..count {
        work_buffer::fill(work, seed);
        let outcome = search::step(table, work, job);
        sum = case_jobs::digested(digest::with_byte(sum, u32::from(number_of(&outcome))), job);
        if outcome.is_err() {
            left = digest::with_pairs(left, work);
        }
    }
    Answer::new().with_digest(sum).with_digest(left)
}

// What comes out of so many steps, for the line with this number, in a work buffer of this length.
pub fn steps(number: u64, count: u32, room: u32, table: &[f32], job: &mut Job) -> Option<Answer> {
    let seed = work_buffer::seed_of(number);
    work_buffer::lend(room as usize, seed, |work| {
        stepped(count, seed, table, work, job)
    })
}
