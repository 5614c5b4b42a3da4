// Answers a list of cases for the crate `ceiling`: the best so far of a job with the ceiling of the pairs still to come.
// `compare/driver/lists/ceiling.rs` says what the list holds.
#![tactic(auto)]

use case_lines::answers::Answer;
use case_tables::Table;
use cases::Line;
use ceiling::Outlook;
use limits::Refusal;
use search_rules::Job;

// What came out.
fn came_out(outlook: Result<Outlook, Refusal>) -> Answer {
    let answer = Answer::after(&outlook);
    match outlook {
        Ok(Outlook { best, ceiling }) => {
            let answer = case_jobs::shown_best(answer, best);
            match ceiling {
                Some(ceiling) => answer.with(1).with_float(ceiling),
                None => answer.with(0),
            }
        }
        Err(_) => answer,
    }
}

// Takes a line, which is answered if it is a case.
fn take_line(rt: &impl Print, line: &Line, table: &mut Table, job: &mut Job) -> Option<()> {
    match (line.operation(), line.words()) {
        // ceiling p = number found .. left ..: `look_ahead` for the job at position p: the number of its refusal alone; or 0, the best, 1
        // with its chroma and its level indices or 0 alone, and 1 and the ceiling, or 0 alone where no qualifying pair is left
        (b"ceiling", [p]) => {
            let moved = Job {
                position: *p as usize,
                ..*job
            };
            came_out(ceiling::look_ahead(moved, table.entries())).write(rt, line);
            Some(())
        }
        (b"job" | b"best", _) => case_jobs::take_line(line, job),
        _ => table.take_line(line),
    }
}

// Answers the list.
fn main(rt: HostRuntime) {
    let mut table = Table::new();
    let mut job = case_jobs::blank();
    case_lines::each_case(&rt, |line| take_line(&rt, line, &mut table, &mut job));
}
