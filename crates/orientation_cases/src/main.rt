// Answers a list of cases for the crate `orientation`: the best with one hue fixed, with the bits of its chroma, its level indices and
// all of its sixteen hues. `compare/driver/lists/orientation.rs` says what the list holds.
#![tactic(auto)]

use case_lines::answers::Answer;
use case_tables::Table;
use cases::Line;
use limits::Refusal;
use orientation::Oriented;

// What came out.
fn came_out(oriented: Result<Option<Oriented>, Refusal>) -> Answer {
    let answer = Answer::after(&oriented);
    match oriented {
        Ok(Some(best)) => answer
            .with(1)
            .with_float(best.chroma)
            .with_size(best.dark)
            .with_size(best.light)
            .with_hues(best.hues),
        Ok(None) | Err(_) => answer.with_zeros(20),
    }
}

// Takes a line, which is answered if it is a case.
fn take_line(rt: &impl Print, line: &Line, table: &mut Table) -> Option<()> {
    match (line.operation(), line.words()) {
        // orient gap hue = number found chroma dark light h ..: `best_at_orientation` with this hue fixed: the number of its refusal or
        // 0, whether something is found, the chroma and the level indices or zeros, and sixteen hues
        (b"orient", [gap, hue]) => {
            let gap = patterns::float_of(*gap);
            let oriented = orientation::best_at_orientation(gap, table.entries(), *hue as usize);
            came_out(oriented).write(rt, line);
            Some(())
        }
        _ => table.take_line(line),
    }
}

// Answers the list.
fn main(rt: HostRuntime) {
    let mut table = Table::new();
    case_lines::each_case(&rt, |line| take_line(&rt, line, &mut table));
}
