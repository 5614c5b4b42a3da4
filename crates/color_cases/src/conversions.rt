// Words as colours, and what comes out as words.
use case_lines::answers::Answer;
use color::Lab;
use limits::Refusal;
use patterns::float_of;
use srgb::{Linear, Srgb8};

// Three words as a colour by its floats.
pub fn linear_of(r: u32, g: u32, b: u32) -> Linear {
    Linear::new(float_of(r), float_of(g), float_of(b))
}

// Three words as a Lab colour.
pub fn lab_of(l: u32, a: u32, b: u32) -> Lab {
    Lab::new(float_of(l), float_of(a), float_of(b))
}

// Three words as XYZ.
pub fn xyz_of(x: u32, y: u32, z: u32) -> [f32; 3] {
    [float_of(x), float_of(y), float_of(z)]
}

// Three words as codes, if they are codes.
pub fn codes_of(r: u32, g: u32, b: u32) -> Option<Srgb8> {
    let r = u8::try_from(r).ok()?;
    let g = u8::try_from(g).ok()?;
    let b = u8::try_from(b).ok()?;
    Some(Srgb8 { r, g, b })
}

// A float.
pub fn float(x: f32) -> Answer {
    Answer::new().with_float(x)
}

// Three floats.
pub fn floats(x: f32, y: f32, z: f32) -> Answer {
    float(x).with_float(y).with_float(z)
}

// A colour by its floats.
pub fn linear(c: Linear) -> Answer {
    floats(c.r, c.g, c.b)
}

// A Lab colour.
pub fn lab(c: Lab) -> Answer {
    floats(c.l, c.a, c.b)
}

// XYZ.
pub fn xyz([x, y, z]: [f32; 3]) -> Answer {
    floats(x, y, z)
}

// Three codes.
pub fn codes(c: Srgb8) -> Answer {
    Answer::new().with_byte(c.r).with_byte(c.g).with_byte(c.b)
}

// 0 and a float, or the number of its refusal and 0.
pub fn float_or_refusal(x: Result<f32, Refusal>) -> Answer {
    Answer::after(&x).with_float(x.unwrap_or(0.0))
}

// A clipped colour with its chroma.
pub fn clipped(l: u32, c: u32, cos: u32, sin: u32) -> Answer {
    let clipped = clipping::lch_to_srgb8_gamut_clipped(
        float_of(l),
        float_of(c),
        float_of(cos),
        float_of(sin),
    );
    codes(clipped.color).with_float(clipped.chroma)
}
