// Floats by their bit patterns, as the lists of cases say them: every NaN's pattern stands for the NaN.
#![tactic(auto)]

ghost use Rattle.std.specs.Prelude.{◌≡◌};
ghost use Rattle.std.specs.Float.{binary32};
ghost use Rattle.std.specs.Float.Ieee.{nan_bits, of_bits};

// Whether a pattern is a NaN's.
fn is_nan_pattern(bits: u32) -> bool
    ensures { result ≡ nan_bits binary32 bits }
{
    0x7f80_0000 < bits % 0x8000_0000
}

// The float of a pattern, of which every NaN's gives the NaN.
pub fn float_of(bits: u32) -> f32
    ensures { result ≡ of_bits binary32 bits }
{
    if is_nan_pattern(bits) {
        f32::NAN
    } else {
        f32::from_bits(bits)
    }
}

// The pattern of a float, which is the same for every NaN.
pub fn pattern_of(x: f32) -> u32 {
    if x.is_nan() { 0x7fc0_0000 } else { x.to_bits() }
}
