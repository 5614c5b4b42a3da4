// Answers a list of cases for the crates `search` and `search_checks`: starts, steps and whole searches with the job after them, all
// steps of a run by a digest, and the work buffer after a refusal. `compare/driver/lists/search.rs` says what the list holds.
#![tactic(auto)]

mod calls;

use case_jobs::settings_of;
use case_tables::Table;
use cases::Line;
use search::Job;

// Takes a line, which is answered if it is a case.
fn take_line(rt: &impl Print, line: &Line, table: &mut Table, job: &mut Job) -> Option<()> {
    let answer = match (line.operation(), line.words()) {
        // start k gap = number k gap levels position tightest found chroma dark light h ..: `start`, with the number of its refusal or 0
        // and the job after it: 1 and the best, or 0 alone, and sixteen hues
        (b"start", [k, gap]) => calls::start(settings_of(*k, *gap), table.entries(), job),

        // step room = number k gap .. hi lo: `step` with a work buffer of this length, with the same, and after a refusal the digest of
        // the work buffer
        (b"step", [room]) => calls::step(line.number, *room, table.entries(), job)?,

        // steps n room = hi lo hi lo: n steps: the digest of their numbers and the jobs after them, and that of the work buffers after
        // those that were refused
        (b"steps", [n, room]) => calls::steps(line.number, *n, *room, table.entries(), job)?,

        // search k gap room = number k gap .. hi lo: `search`, with the same as a step
        (b"search", [k, gap, room]) => {
            let settings = settings_of(*k, *gap);
            calls::search(line.number, settings, *room, table.entries(), job)?
        }
        (b"job" | b"best", _) => return case_jobs::take_line(line, job),
        _ => return table.take_line(line),
    };
    answer.write(rt, line);
    Some(())
}

// Answers the list.
fn main(rt: HostRuntime) {
    let mut table = Table::new();
    let mut job = case_jobs::blank();
    case_lines::each_case(&rt, |line| take_line(&rt, line, &mut table, &mut job));
}
