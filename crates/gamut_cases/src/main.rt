// Answers a list of cases for the crate `gamut`: entries, chromas found and lightnesses by their bits, and rows by their digest.
// `compare/driver/lists/gamut.rs` says what the list holds.
#![tactic(auto)]

mod digest;
mod rows;
mod values;

use case_tables::directions::Lending;
use cases::Line;

// Takes a line, which is answered if it is a case.
fn take_line(rt: &impl Print, line: &Line, lending: &mut Lending) -> Option<()> {
    let answer = match (line.operation(), line.words()) {
        // row level = number hi lo: `fill_row`, with the number of its refusal or 0, and the digest of the row after it
        (b"row", [level]) => rows::row(*level as usize, lending.lend())?,

        // ent level j = r: `max_chroma` at a level in direction j
        (b"ent", [level, j]) => values::entry(*level, *j as usize, &lending.directions)?,

        // maxc l cos sin = r: `max_chroma`
        (b"maxc", [l, cos, sin]) => values::chroma(*l, *cos, *sin),

        // lof i = l: `Gamut::l_of`
        (b"lof", [i]) => values::lightness(*i)?,
        _ => return lending.take_line(line),
    };
    answer.write(rt, line);
    Some(())
}

// Answers the list.
fn main(rt: HostRuntime) {
    let mut lending = Lending::new(720, Some(800));
    case_lines::each_case(&rt, |line| take_line(&rt, line, &mut lending));
    lending.finish(&rt);
}
