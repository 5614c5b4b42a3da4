// What is measured of a palette: the four metrics of `validate` of crates/lcr-core/src/palette.rs. Of the numbers that stand for
// its colours the first k are of the dark level, and the k after them of the light one.
// Its cases are in `palette_cases`.
#![tactic(auto)]

ghost use Rattle.std.specs.Prelude.{◌≡◌, false, take, drop, fold};
ghost use Rattle.std.specs.Float.{inf, binary32};
ghost use Rattle.std.specs.Float.Ieee.{sub};
ghost use Rattle.pair_rules.specs.Rows.{lesser, greater};
ghost use Rattle.metrics.specs.Metrics.{highest, lowest, greatest, least, spread_in, absolute, apart, least_from, least_apart};

use comparing::{greater, lesser};

// What is measured of a palette.
#[derive(Clone, Copy)]
pub struct Metrics {
    // the least lightness of the light level less the greatest of the dark one
    pub gap: f32,
    // how far the lightness ranges within a level
    pub spread: f32,
    // the least distance of two hues of a level, in degrees; plus infinity for one hue
    pub separation: f32,
    // the least chroma; plus infinity for one hue
    pub chroma: f32,
}

// The greatest of `from` and of some numbers.
fn greatest(from: f32, values: &[f32]) -> f32
    ensures { result ≡ fold greater from values.now }
{
    values.iter().fold(from, |hi, v| greater(hi, *v))
}

// The least of `from` and of some numbers.
fn least(from: f32, values: &[f32]) -> f32
    ensures { result ≡ fold lesser from values.now }
{
    values.iter().fold(from, |lo, v| lesser(lo, *v))
}

// How far some numbers range.
fn range(values: &[f32]) -> f32
    ensures { result ≡ spread_in values.now }
{
    greatest(f32::MIN, values) - least(f32::MAX, values)
}

// A number without its sign. Minus zero stays, of which `f32::abs` makes plus zero.
fn absolute(x: f32) -> f32
    ensures { result ≡ absolute x }
{
    if x < 0.0 { -x } else { x }
}

// How far apart two hues are, round the shorter way.
fn apart(a: f32, b: f32) -> f32
    ensures { result ≡ apart a b }
{
    let d = absolute(a - b);
    lesser(d, 360.0 - d)
}

// The least of `from` and the distances from one hue to others.
fn least_from(from: f32, hue: f32, others: &[f32]) -> f32
    ensures { result ≡ fold (λ so g. lesser so (apart hue g)) from others.now }
{
    others
        .iter()
        .fold(from, |lo, other| lesser(lo, apart(hue, *other)))
}

// The least of `from` and the distances of any two of some hues.
fn least_apart(from: f32, hues: &[f32]) -> f32
    ensures { result ≡ least_apart from hues.now }
{
    let mut lo = from;
    for (i, hue) in hues.iter().enumerate() {
        lo = least_from(lo, *hue, &hues[i + 1..]);
    }
    lo
}

// The numbers of the dark level and those of the light one, as far as there are any.
fn both_levels(k: usize, values: &[f32]) -> (&[f32], &[f32])
    ensures dark { result.0.now ≡ take k values.now }
    ensures light { result.1.now ≡ take k (drop k values.now) }
{
    let (dark, rest) = values.split_at(k.min(values.len()));
    (dark, &rest[..k.min(rest.len())])
}

// The gap between the levels, by the lightness of their colours.
pub fn gap_of(k: usize, l: [f32; 32]) -> f32
    ensures { result ≡ sub binary32 (least highest (take k (drop k l))) (greatest lowest (take k l)) }
{
    let (dark, light) = both_levels(k, &l);
    least(f32::MAX, light) - greatest(f32::MIN, dark)
}

// The greater spread of both levels, by the lightness of their colours.
pub fn spread_of(k: usize, l: [f32; 32]) -> f32
    ensures { result ≡ greater (spread_in (take k l)) (spread_in (take k (drop k l))) }
{
    let (dark, light) = both_levels(k, &l);
    greater(range(dark), range(light))
}

// The least distance of two hues of a level, of more than one.
pub fn separation_of(k: usize, h: [f32; 32]) -> f32
    ensures { result ≡ least_apart (least_apart (inf false) (take k h)) (take k (drop k h)) }
{
    let (dark, light) = both_levels(k, &h);
    least_apart(least_apart(f32::INFINITY, dark), light)
}

// The least chroma of both levels.
pub fn chroma_of(k: usize, c: [f32; 32]) -> f32
    ensures { result ≡ least (least (inf false) (take k c)) (take k (drop k c)) }
{
    let (dark, light) = both_levels(k, &c);
    least(least(f32::INFINITY, dark), light)
}
