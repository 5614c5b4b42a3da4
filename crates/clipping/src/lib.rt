// A colour by lightness, chroma and direction, brought into the gamut of sRGB: `lch_to_srgb8_gamut_clipped` of
// crates/lcr-core/src/color.rs.
// Its cases are in `color_cases`.
#![tactic(auto)]

ghost use Rattle.std.specs.Prelude.{◌≡◌};
ghost use Rattle.clipping.specs.Clip.{clipped_of};

use srgb::Srgb8;

// An 8-bit colour, and the chroma it ended at.
#[derive(Clone, Copy)]
pub struct Clipped {
    pub color: Srgb8,
    pub chroma: f32,
}

// Polar CIELAB to 8-bit sRGB. A colour out of gamut is taken at the chroma that 24 halvings end at, and clamped.
pub fn lch_to_srgb8_gamut_clipped(l: f32, c: f32, cos: f32, sin: f32) -> Clipped
    ensures { result ≡ clipped_of l c cos sin }
{
    if color::lch_in_gamut(l, c, cos, sin) {
        return Clipped {
            color: srgb::linear_to_srgb8(color::lab_to_linear(color::lch_to_lab(l, c, cos, sin))),
            chroma: c,
        };
    }
    let mut lo = 0.0f32;
    let mut hi = c;
    for _ in 0..24u32 {
        let mid = halving::midpoint(lo, hi);
        if color::lch_in_gamut(l, mid, cos, sin) {
            lo = mid;
        } else {
            hi = mid;
        }
    }
    Clipped {
        color: srgb::linear_to_srgb8(color::lab_to_linear(color::lch_to_lab(
            l, lo, cos, sin,
        )).clamped()),
        chroma: lo,
    }
}
