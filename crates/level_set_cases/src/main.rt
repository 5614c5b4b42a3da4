// Answers a list of cases for the crate `level_set`: the best of a set of levels with its tightest gap, the bits of its chroma, all of
// its sixteen hues and the work buffer after a refusal. `compare/driver/lists/level_set.rs` says what the list holds.
#![tactic(auto)]

mod sets;

use case_tables::Table;
use cases::Line;
use sets::Levels;

// Takes a line, which is answered if it is a case.
fn take_line(rt: &impl Print, line: &Line, table: &mut Table, levels: &mut Levels) -> Option<()> {
    let answer = match (line.operation(), line.words()) {
        // levels n l ..: the list of the sets from here on has n level indices, which are these
        (b"levels", [n, words @ ..]) if words.len() == *n as usize => return levels.set(words),

        // set k room = number found chroma tightest h .. hi lo: `best_for_level_set` over that list with a work buffer of this length:
        // the number of its refusal or 0, whether something is found, the chroma or 0, the tightest gap and sixteen hues, and after a
        // refusal the digest of the work buffer
        (b"set", [k, room]) => sets::best(
            line.number,
            table.entries(),
            levels.listed(),
            *k,
            *room,
        )?,
        _ => return table.take_line(line),
    };
    answer.write(rt, line);
    Some(())
}

// Answers the list.
fn main(rt: HostRuntime) {
    let mut table = Table::new();
    let mut levels = Levels::new();
    case_lines::each_case(&rt, |line| take_line(&rt, line, &mut table, &mut levels));
}
