// The colour conversions of CIE 15 in the form document 01 gives them: linear light, CIEXYZ under D65 and CIELAB. Names, structure
// and order of operations follow crates/lcr-core/src/color.rs.
// Its cases are in `color_cases`.
#![tactic(auto)]

ghost use Rattle.std.specs.Prelude.{◌≡◌};
ghost use Rattle.color.specs.Color.{root_inside, weigh, linear_to_xyz, xyz_to_linear, lab_f, lab_fInv, xyz_to_lab, lab_to_xyz, linear_to_lab, lab_to_linear, srgb8_to_lab, chroma_of, lch_to_lab, lch_in_gamut};

pub use srgb::{Linear, Srgb8};

// CIELAB under D65.
#[derive(Clone, Copy)]
pub struct Lab {
    pub l: f32,
    pub a: f32,
    pub b: f32,
}

// CIEXYZ (D65) from linear sRGB, one row for each of X, Y and Z.
const TO_XYZ: [[f32; 3]; 3] = [
    [0.4124564, 0.3575761, 0.1804375],
    [0.2126729, 0.7151522, 0.0721750],
    [0.0193339, 0.119192, 0.9503041],
];

// Linear sRGB from CIEXYZ (D65), one row for each channel.
const FROM_XYZ: [[f32; 3]; 3] = [
    [3.2404542, -1.5371385, -0.4985314],
    [-0.969266, 1.8760108, 0.0415560],
    [0.0556434, -0.2040259, 1.0572252],
];

// The white point D65 in XYZ, Y being 1.
const D65: [f32; 3] = [0.95047, 1.0, 1.08883];

// The square root inside a conversion, where nothing is refused: plus infinity and NaN come back as they are.
fn sqrt_inside(x: f32) -> f32
    ensures { result ≡ root_inside 2 x }
{
    roots::sqrt(x).unwrap_or(x)
}

// The cube root inside a conversion, where nothing is refused either.
fn cbrt_inside(x: f32) -> f32
    ensures { result ≡ root_inside 3 x }
{
    roots::cbrt(x).unwrap_or(x)
}

// Three numbers weighted by a row of a matrix.
fn weighted(row: [f32; 3], x: f32, y: f32, z: f32) -> f32
    ensures { result ≡ weigh row x y z }
{
    row[0] * x + row[1] * y + row[2] * z
}

// Linear sRGB to CIEXYZ (D65).
pub fn linear_to_xyz(c: Linear) -> [f32; 3]
    ensures { result ≡ linear_to_xyz c }
{
    [
        weighted(TO_XYZ[0], c.r, c.g, c.b),
        weighted(TO_XYZ[1], c.r, c.g, c.b),
        weighted(TO_XYZ[2], c.r, c.g, c.b),
    ]
}

// CIEXYZ (D65) to linear sRGB, perhaps out of gamut.
pub fn xyz_to_linear(xyz: [f32; 3]) -> Linear
    ensures { result ≡ xyz_to_linear xyz }
{
    let [x, y, z] = xyz;
    Linear {
        r: weighted(FROM_XYZ[0], x, y, z),
        g: weighted(FROM_XYZ[1], x, y, z),
        b: weighted(FROM_XYZ[2], x, y, z),
    }
}

// CIE's f: the cube root, and a line below (6/29) ^ 3.
pub fn lab_f(t: f32) -> f32
    ensures { result ≡ lab_f t }
{
    if t > 216.0 / 24389.0 {
        return cbrt_inside(t);
    }
    t * (841.0 / 108.0) + 4.0 / 29.0
}

// CIE's f the other way: the cube, and the line below 6/29.
pub fn lab_f_inv(t: f32) -> f32
    ensures { result ≡ lab_fInv t }
{
    let delta = 6.0 / 29.0;
    if t > delta {
        return t * t * t;
    }
    3.0 * delta * delta * (t - 4.0 / 29.0)
}

// CIEXYZ (D65) to CIELAB.
pub fn xyz_to_lab(xyz: [f32; 3]) -> Lab
    ensures { result ≡ xyz_to_lab xyz }
{
    let [x, y, z] = xyz;
    let fx = lab_f(x / D65[0]);
    let fy = lab_f(y / D65[1]);
    let fz = lab_f(z / D65[2]);
    Lab {
        l: 116.0 * fy - 16.0,
        a: 500.0 * (fx - fy),
        b: 200.0 * (fy - fz),
    }
}

// CIELAB to CIEXYZ (D65).
pub fn lab_to_xyz(lab: Lab) -> [f32; 3]
    ensures { result ≡ lab_to_xyz lab }
{
    let fy = (lab.l + 16.0) / 116.0;
    let fx = fy + lab.a / 500.0;
    let fz = fy - lab.b / 200.0;
    [
        lab_f_inv(fx) * D65[0],
        lab_f_inv(fy) * D65[1],
        lab_f_inv(fz) * D65[2],
    ]
}

// Linear sRGB to CIELAB.
pub fn linear_to_lab(c: Linear) -> Lab
    ensures { result ≡ linear_to_lab c }
{
    xyz_to_lab(linear_to_xyz(c))
}

// CIELAB to linear sRGB, perhaps out of gamut.
pub fn lab_to_linear(lab: Lab) -> Linear
    ensures { result ≡ lab_to_linear lab }
{
    xyz_to_linear(lab_to_xyz(lab))
}

// 8-bit sRGB to CIELAB.
pub fn srgb8_to_lab(c: Srgb8) -> Lab
    ensures { result ≡ srgb8_to_lab c }
{
    linear_to_lab(srgb::srgb8_to_linear(c))
}

// The colour of lightness l and chroma c in the direction (cos, sin).
pub fn lch_to_lab(l: f32, c: f32, cos: f32, sin: f32) -> Lab
    ensures { result ≡ lch_to_lab l c cos sin }
{
    Lab {
        l,
        a: c * cos,
        b: c * sin,
    }
}

// Whether that colour is in gamut.
pub fn lch_in_gamut(l: f32, c: f32, cos: f32, sin: f32) -> bool
    ensures { result ≡ lch_in_gamut l cos sin c }
{
    lab_to_linear(lch_to_lab(l, c, cos, sin)).in_gamut()
}

impl Lab {
    // From its parts.
    pub fn new(l: f32, a: f32, b: f32) -> Lab
        ensures { (result.l ≡ l) × ((result.a ≡ a) × (result.b ≡ b)) }
    {
        Lab { l, a, b }
    }

    // Chroma: the distance from grey.
    pub fn chroma(self) -> f32
        ensures { result ≡ chroma_of self }
    {
        sqrt_inside(self.a * self.a + self.b * self.b)
    }
}
