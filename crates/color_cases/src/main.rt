// Answers a list of cases for the crates `roots`, `srgb`, `color`, `hue` and `clipping`: roots, conversions, the gamut test, hues and
// clipped colours, by their bits, where every NaN is the same. `compare/driver/lists/color.rs` says what the list holds.
#![tactic(auto)]

mod conversions;
mod hues;
mod operations;

use case_tables::directions::Lending;
use cases::Line;

// Takes a line, which is answered if it is a case.
fn take_line(rt: &impl Print, line: &Line, lending: &mut Lending) -> Option<()> {
    let answer = match (line.operation(), line.words()) {
        // hue L a b = number h: `Lab::hue_deg`, or the number of its refusal and 0
        (b"hue", [l, a, b]) => hues::hue(lending.lend(), conversions::lab_of(*l, *a, *b)),
        (operation, words) => match operations::came_out(operation, words) {
            Some(answer) => answer,
            None => return lending.take_line(line),
        },
    };
    answer.write(rt, line);
    Some(())
}

// Answers the list.
fn main(rt: HostRuntime) {
    let mut lending = Lending::new(720, None);
    case_lines::each_case(&rt, |line| take_line(&rt, line, &mut lending));
    lending.finish(&rt);
}
