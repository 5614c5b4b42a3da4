// The lines that set a table. It is kept in one array, of which the first entries are lent.
#![tactic(auto)]

pub mod directions;

use crate::directions::Directions;
use case_lines::entries;
use case_lines::entries::Row;
use cases::Line;

// How many entries a table can have, those refused among them.
const STORED: usize = 122400;

// How many hues a row has.
const HUES: usize = 720;

// Sets so many entries from a place on to those from another on, one after the other, if there are so many.
fn copy(table: &mut [f32], at: usize, from: usize, count: usize) -> Option<()> {
    if at.checked_add(count)? > table.len() || from.checked_add(count)? > table.len() {
        return None;
    }
    // by the index: where both overlap, entries that were set are copied on, which `copy_within` does not do
    for i in 0..count {
        table[at + i] = table[from + i];
    }
    Some(())
}

// The row at a place among the rows, if the table has all of it.
fn row_at(table: &mut [f32], place: usize) -> Option<&mut [f32]> {
    let at = place.checked_mul(HUES)?;
    let end = at.checked_add(HUES)?;
    table.get_mut(at..end)
}

// The table that the lines so far have set.
#[derive(Clone, Copy)]
pub struct Table {
    directions: Directions,
    rows: Row<STORED>,
}

impl Table {
    // No line has come yet.
    pub fn new() -> Table {
        Table {
            directions: Directions::new(),
            rows: Row::new(),
        }
    }

    // Its entries.
    pub fn entries(&self) -> &[f32] {
        self.rows.entries()
    }

    // Fills the first rows for so many levels from one of them on, as far as that can be done.
    fn fill_rows(&mut self, first: usize, count: usize) -> Option<()> {
        let Directions { cos, sin } = &self.directions;
        for place in 0..count {
            let level = first.checked_add(place)?;
            let row = row_at(self.rows.all_mut(), place)?;
            gamut::fill_row(level, cos, sin, row).ok()?;
        }
        Some(())
    }

    // Takes a line that sets something.
    pub fn take_line(&mut self, line: &Line) -> Option<()> {
        match (line.operation(), line.words()) {
            // dir j cos sin: sets direction j
            (b"dir", [j, cos, sin]) => self.directions.try_set(*j, *cos, *sin),

            // table n: the table has n entries, which are as they were
            (b"table", [n]) => self.rows.set_length(*n as usize),

            // more i e ..: the entries from i on are these
            (b"more", [i, words @ ..]) if !words.is_empty() => {
                entries::try_put(self.rows.all_mut(), *i as usize, words)
            }

            // same i n e: n entries, from i on, are all this one
            (b"same", [i, n, e]) => {
                let entry = patterns::float_of(*e);
                entries::try_put_same(self.rows.all_mut(), *i as usize, *n as usize, entry)
            }

            // copy i j n: n entries, from i on, are those from j on
            (b"copy", [i, j, n]) => copy(
                self.rows.all_mut(),
                *i as usize,
                *j as usize,
                *n as usize,
            ),

            // panel i n: the first n rows are filled for the levels from i on
            (b"panel", [i, n]) => self.fill_rows(*i as usize, *n as usize),
            _ => None,
        }
    }
}
