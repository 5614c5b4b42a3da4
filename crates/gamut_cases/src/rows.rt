// The rows, filled by the directions.
use crate::digest;
use case_lines::answers::Answer;
use case_tables::directions::Lent;

// Sets every entry to the float that stands for its place.
fn mark(row: &mut [f32]) {
    for (entry, bits) in row.iter_mut().zip(0x3f80_0000..) {
        *entry = patterns::float_of(bits);
    }
}

// What comes out of a row of the length that is lent, in the first cosines and sines.
pub fn row(level: usize, lent: Lent) -> Option<Answer> {
    let mut row = [0.0; 800];
    let row = row.get_mut(..lent.entries)?;
    mark(row);
    let filling = gamut::fill_row(level, lent.cos(), lent.sin(), row);
    Some(Answer::after(&filling).with_digest(digest::of(row)))
}
