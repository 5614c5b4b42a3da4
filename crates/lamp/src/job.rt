// The search, step by step, with lines of progress.
use crate::numbers::exact;
use limits::Refusal;
use search::{Best, Job, Settings};

// How many pairs of levels there are.
const PAIRS: usize = 28561;

// How many of them lie between two lines of progress.
const BETWEEN: usize = 2873;

// Writes how far a job is, and its best so far, where it is time for a line.
fn progress(rt: &impl Print, job: &Job) {
    if job.position % BETWEEN != 0 && job.position != PAIRS {
        return;
    }
    let _ = print!(rt; "searched {} of {PAIRS}: ", job.position);
    let _ = match job.best {
        Best::None => println!(rt; "none so far"),
        Best::Found(chroma, _, _) => println!(rt; "{}", exact(chroma)),
    };
}

// Searches a table.
pub fn search_in(rt: &impl Print, table: &[f32], settings: Settings) -> Result<Job, Refusal> {
    let mut job = search::begin(settings, 0);
    search::start(settings, table, &mut job)?;
    for _ in 0..PAIRS {
        let mut work = [0; 720];
        search::step(table, &mut work, &mut job)?;
        progress(rt, &job);
    }
    Ok(job)
}
