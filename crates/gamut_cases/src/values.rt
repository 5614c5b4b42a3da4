// Cases that give one float.
use case_lines::answers::Answer;
use case_tables::directions::Directions;
use gamut::Gamut;
use patterns::float_of;

// The lightness of a level that is below 65536.
fn lightness_of(level: u32) -> Option<f32> {
    let level = u16::try_from(level).ok()?;
    Some(Gamut::l_of(level))
}

// The entry of a level in a direction, if there is one.
pub fn entry(level: u32, j: usize, directions: &Directions) -> Option<Answer> {
    let cos = directions.cos.get(j)?;
    let sin = directions.sin.get(j)?;
    let entry = gamut::max_chroma(lightness_of(level)?, *cos, *sin);
    Some(Answer::new().with_float(entry))
}

// The chroma found at a lightness in a direction.
pub fn chroma(l: u32, cos: u32, sin: u32) -> Answer {
    let chroma = gamut::max_chroma(float_of(l), float_of(cos), float_of(sin));
    Answer::new().with_float(chroma)
}

// The lightness of a level, if it has one.
pub fn lightness(level: u32) -> Option<Answer> {
    Some(Answer::new().with_float(lightness_of(level)?))
}
