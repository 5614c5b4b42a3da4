// The cases that a list may have and that turn on the line's words alone, each with its words and what comes out.
use crate::conversions::{
    clipped, codes, codes_of, float, float_or_refusal, lab, lab_of, linear, linear_of, xyz, xyz_of,
};
use case_lines::answers::Answer;
use patterns::float_of;

// What comes out of a case.
pub fn came_out(operation: &[u8], words: &[u32]) -> Option<Answer> {
    let answer = match (operation, words) {
        // sqrt x = number r: the square root, or the number of its refusal and 0
        (b"sqrt", [x]) => float_or_refusal(roots::sqrt(float_of(*x))),

        // cbrt x = number r: the cube root, likewise
        (b"cbrt", [x]) => float_or_refusal(roots::cbrt(float_of(*x))),

        // labf t = r: `lab_f`
        (b"labf", [t]) => float(color::lab_f(float_of(*t))),

        // labfinv t = r: `lab_f_inv`
        (b"labfinv", [t]) => float(color::lab_f_inv(float_of(*t))),

        // s2l r g b = R G B: codes to linear light
        (b"s2l", [r, g, b]) => linear(srgb::srgb8_to_linear(codes_of(*r, *g, *b)?)),

        // l2s R G B = r g b: linear light to codes
        (b"l2s", [r, g, b]) => codes(srgb::linear_to_srgb8(linear_of(*r, *g, *b))),

        // l2x R G B = X Y Z: linear light to XYZ
        (b"l2x", [r, g, b]) => xyz(color::linear_to_xyz(linear_of(*r, *g, *b))),

        // x2l X Y Z = R G B: XYZ to linear light
        (b"x2l", [x, y, z]) => linear(color::xyz_to_linear(xyz_of(*x, *y, *z))),

        // x2lab X Y Z = L a b: XYZ to Lab
        (b"x2lab", [x, y, z]) => lab(color::xyz_to_lab(xyz_of(*x, *y, *z))),

        // lab2x L a b = X Y Z: Lab to XYZ
        (b"lab2x", [l, a, b]) => xyz(color::lab_to_xyz(lab_of(*l, *a, *b))),

        // l2lab R G B = L a b: linear light to Lab
        (b"l2lab", [r, g, b]) => lab(color::linear_to_lab(linear_of(*r, *g, *b))),

        // lab2l L a b = R G B: Lab to linear light
        (b"lab2l", [l, a, b]) => linear(color::lab_to_linear(lab_of(*l, *a, *b))),

        // s2lab r g b = L a b: codes to Lab
        (b"s2lab", [r, g, b]) => lab(color::srgb8_to_lab(codes_of(*r, *g, *b)?)),

        // clamp R G B = R G B: `Linear::clamped`
        (b"clamp", [r, g, b]) => linear(linear_of(*r, *g, *b).clamped()),

        // gamut R G B = t: `Linear::in_gamut`
        (b"gamut", [r, g, b]) => Answer::new().with_bool(linear_of(*r, *g, *b).in_gamut()),

        // chroma L a b = c: `Lab::chroma`
        (b"chroma", [l, a, b]) => float(lab_of(*l, *a, *b).chroma()),

        // clip l c cos sin = r g b chroma: `lch_to_srgb8_gamut_clipped`
        (b"clip", [l, c, cos, sin]) => clipped(*l, *c, *cos, *sin),
        _ => return None,
    };
    Some(answer)
}
