// The table of what the panel can show, filled a level at a time.
use crate::input::Asked;
use gamut::Gamut;
use limits::Refusal;

// How many entries it has.
pub const ENTRIES: usize = 121680;

// Fills the row of every level, up to the first refusal.
pub fn fill(table: &mut [f32; ENTRIES], asked: &Asked) -> Result<(), Refusal> {
    for (level, row) in table.chunks_exact_mut(Gamut::HUES).enumerate() {
        gamut::fill_row(level, &asked.cos, &asked.sin, row)?;
    }
    Ok(())
}
