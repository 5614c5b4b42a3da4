// The lines that set the rows.
use case_lines::entries;
use case_lines::entries::Row;
use cases::Line;

// Takes a line that sets one of the two rows.
pub fn take_line(line: &Line, rows: &mut [Row<800>; 2]) -> Option<()> {
    match (line.operation(), line.words()) {
        // row w n: row w, which is 0 or 1, has n entries, which are as they were
        (b"row", [w, n]) => rows.get_mut(*w as usize)?.set_length(*n as usize),

        // more w i e ..: the entries of row w from i on are these
        (b"more", [w, i, words @ ..]) if !words.is_empty() => {
            let row = rows.get_mut(*w as usize)?;
            entries::try_put(row.entries_mut(), *i as usize, words)
        }

        // same w i n e: n entries of row w, from i on, are all this one
        (b"same", [w, i, n, e]) => {
            let row = rows.get_mut(*w as usize)?;
            let entry = patterns::float_of(*e);
            entries::try_put_same(row.entries_mut(), *i as usize, *n as usize, entry)
        }
        _ => None,
    }
}
