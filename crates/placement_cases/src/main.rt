// Answers a list of cases for the crates `placement` and `placement_checks`: steps, placements with their tightest gap, all of their
// sixteen hues and the work buffer after a refusal, and sweeps by their digest. `compare/driver/lists/placement.rs` says what the list
// holds.
#![tactic(auto)]

mod places;
mod sweeps;

use case_lines::entries;
use case_lines::entries::Row;
use cases::Line;

// Takes a line, which is answered if it is a case.
fn take_line(rt: &impl Print, line: &Line, ring: &mut Row<800>) -> Option<()> {
    let answer = match (line.operation(), line.words()) {
        // ring n e ..: the ring has n entries, the first of which are these; the others are as they were
        (b"ring", [n, words @ ..]) if words.len() <= *n as usize => {
            ring.set_length(*n as usize)?;
            return entries::try_put(ring.entries_mut(), 0, words);
        }

        // more i e ..: the ring's entries from i on are these
        (b"more", [i, words @ ..]) if !words.is_empty() => {
            return entries::try_put(ring.entries_mut(), *i as usize, words);
        }

        // step k = number step: `step_for`, with the number of its refusal and 0, or 0 and the step
        (b"step", [k]) => places::step(*k as usize),

        // place k step c room = number placed tightest h .. hi lo: `feasible` with a work buffer of this length: the number of its
        // refusal or 0, whether something is placed, the tightest gap and sixteen hues, and after a refusal the digest of the work
        // buffer
        (b"place", [k, step, c, room]) => {
            places::place(line.number, ring.entries(), [*k, *step, *c, *room])?
        }

        // sweep c .. = hi lo: the digest of `feasible` for each k, each spacing and each of these chromas
        (b"sweep", chromas @ [_, ..]) => sweeps::sweep(line.number, ring.entries(), chromas)?,
        _ => return None,
    };
    answer.write(rt, line);
    Some(())
}

// Answers the list.
fn main(rt: HostRuntime) {
    let mut ring = Row::new();
    case_lines::each_case(&rt, |line| take_line(&rt, line, &mut ring));
}
