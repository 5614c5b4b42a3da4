// Answers a list of cases for the crate `pair`: the best of two rows with its tightest gap, the bits of its chroma, all of its
// sixteen hues and the work buffer after a refusal. `compare/driver/lists/pair.rs` says what the list holds.
#![tactic(auto)]

mod best;
mod rows;

use case_lines::entries::Row;
use cases::Line;

// Takes a line, which is answered if it is a case.
fn take_line(rt: &impl Print, line: &Line, rows: &mut [Row<800>; 2]) -> Option<()> {
    match (line.operation(), line.words()) {
        // best k step floor room = number found chroma tightest h .. hi lo: `best_for_levels` with a work buffer of this length: the
        // number of its refusal or 0, whether something is found, the chroma or 0, the tightest gap and sixteen hues, and after a
        // refusal the digest of the work buffer
        (b"best", [k, step, floor, room]) => {
            let words = [*k, *step, *floor, *room];
            let answer = best::best(line.number, rows[0].entries(), rows[1].entries(), words)?;
            answer.write(rt, line);
            Some(())
        }
        _ => rows::take_line(line, rows),
    }
}

// Answers the list.
fn main(rt: HostRuntime) {
    let mut rows = [Row::new(); 2];
    case_lines::each_case(&rt, |line| take_line(&rt, line, &mut rows));
}
