// Entries of a ring, a row or a table, set by the words of a line.

// A ring, a row or a table: its first entries up to its length, which is `LONGEST` at most.
// An array and a count, as there is no heap here.
#[derive(Clone, Copy)]
pub struct Row<const LONGEST: usize> {
    entries: [f32; LONGEST],
    length: usize,
}

impl<const LONGEST: usize> Row<LONGEST> {
    // The empty row.
    pub fn new() -> Row<LONGEST> {
        Row {
            entries: [0.0; LONGEST],
            length: 0,
        }
    }

    // The entries up to its length.
    pub fn entries(&self) -> &[f32] {
        &self.entries[..self.length.min(LONGEST)]
    }

    // The same, to be written.
    pub fn entries_mut(&mut self) -> &mut [f32] {
        &mut self.entries[..self.length.min(LONGEST)]
    }

    // All that it has room for, to be written.
    pub fn all_mut(&mut self) -> &mut [f32] {
        &mut self.entries
    }

    // Takes another length, if a row can have it.
    pub fn set_length(&mut self, length: usize) -> Option<()> {
        if length > LONGEST {
            return None;
        }
        self.length = length;
        Some(())
    }
}

// So many entries from a place on, if there are so many.
fn part(row: &mut [f32], at: usize, count: usize) -> Option<&mut [f32]> {
    row.get_mut(at..at.checked_add(count)?)
}

// Sets the entries from a place on to the floats of words, if there are so many.
pub fn try_put(row: &mut [f32], at: usize, words: &[u32]) -> Option<()> {
    let part = part(row, at, words.len())?;
    for (entry, word) in part.iter_mut().zip(words) {
        *entry = patterns::float_of(*word);
    }
    Some(())
}

// Sets so many entries from a place on to the same, if there are so many.
pub fn try_put_same(row: &mut [f32], at: usize, count: usize, entry: f32) -> Option<()> {
    part(row, at, count)?.fill(entry);
    Some(())
}
