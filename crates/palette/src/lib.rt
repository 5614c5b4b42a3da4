// Palettes: derivation, validation and back-off. `derive` and `back_off` of xtask/src/palette.rs, `Palette::new` and `validate`
// of crates/lcr-core/src/palette.rs, with lent directions. Colours are brought into the gamut of sRGB and measured there, whatever
// table their levels and hues were searched in.
// Its cases are in `palette_cases`.
#![tactic(auto)]

ghost use Rattle.std.specs.Prelude.{◌≡◌, true, ◌≤◌};
ghost use Rattle.limits.specs.Answers.{value};
ghost use Rattle.limits.specs.Refusals.{said};
ghost use Rattle.limits.specs.Taken.{hue_count_taken, chroma_taken};
ghost use Rattle.hue.specs.Hue.{color_hue};
ghost use Rattle.gamut.specs.Gamut.{level_of};
ghost use Rattle.metrics.specs.Metrics.{lightness_of, chroma_in, metrics_of};
ghost use Rattle.palette.specs.Derivation.{shown, colors_of, derivation_says};
ghost use Rattle.palette.specs.Validation.{findings, first_of, validation_says, verdict_said, validation_said, finding_number};
ghost use Rattle.palette.specs.BackOff.{tried, judge_at, end_of, back_off_says, ending_of, back_off_said, colors_in, colors_said, colors_after};
ghost use Rattle.palette.specs.Inner.{Ready, Measured, Placed, color_at};

use gamut::Gamut;
use limits::{Directions, Refusal};
use metrics::Metrics;
pub use palette_checks::Design;
use srgb::Srgb8;

// What can be wrong with a palette. Its discriminant is document 01's number.
#[derive(Clone, Copy)]
pub enum Finding {
    // gap below 40
    Gap = 1,
    // spread above 12
    Spread = 2,
    // hue separation below 300 / k
    Separation = 3,
    // chroma below 35
    Chroma = 4,
}

// What validation says: the four metrics, and the first finding.
#[derive(Clone, Copy)]
pub struct Validation {
    pub metrics: Metrics,
    pub finding: Option<Finding>,
}

// What back-off ends with.
// Three endings, so neither an `Option` nor a `Result`.
#[derive(Clone, Copy)]
pub enum BackOff {
    // the first chroma without a finding, and its colours
    Passed { chroma: f32, colors: [Srgb8; 32] },
    // no chroma is without: the last finding
    Found(Finding),
    // no chroma was tried
    Untried,
}

impl Finding {
    // Document 01's number of a finding.
    pub fn number(self) -> u8
        ensures { result ≡ finding_number self }
    {
        self as u8
    }
}

// The colour of a level and a hue, by their indices.
#[tactic(auto, using(limits::proofs::Long::directions_long))]
fn color_of(level: usize, hue: u16, chroma: f32, directions: &Directions<'_>) -> Srgb8
    requires { (level ≤ 168) × (hue ≤ 719) }
    ensures { result ≡ shown (level_of level) chroma directions.now.cos.now directions.now.sin.now hue }
{
    let j = hue as usize;
    let l = Gamut::l_of(level as u16);
    clipping::lch_to_srgb8_gamut_clipped(l, chroma, directions.cos[j], directions.sin[j]).color
}

// A design that is taken, with the directions that its colours are shown in.
#[derive(Clone, Copy)]
struct Shown<'a> {
    design: Design,
    directions: Directions<'a>,
    ghost ready: { Ready design },
}

impl Shown<'_> {
    // The colour in place i of the 2k: the first k are dark.
    fn color_at(&self, chroma: f32, i: usize) -> Srgb8
        requires { Placed self.now.design i }
        ensures { result ≡ color_at self.now.design chroma self.now.directions.cos.now self.now.directions.sin.now i }
    {
        let Design {
            k,
            dark,
            light,
            hues,
        } = self.design;
        if i < k {
            return color_of(dark, hues[i], chroma, &self.directions);
        }
        color_of(light, hues[i - k], chroma, &self.directions)
    }

    // The colours of the design at a chroma.
    fn colors_of(&self, chroma: f32) -> [Srgb8; 32]
        ensures { result ≡ colors_of self.now.design chroma self.now.directions.cos.now self.now.directions.sin.now }
    {
        let mut colors = [Srgb8 { r: 0, g: 0, b: 0 }; 32];
        for i in 0..2 * self.design.k {
            colors[i] = self.color_at(chroma, i);
        }
        colors
    }

    // Lowers a chroma by 0.05 while it is tried, until its palette has no finding.
    fn lower_from(&self, chroma: f32) -> BackOff
        requires { chroma_taken chroma ≡ true }
        ensures { (ending_of result ≡ end_of (judge_at self.now.design self.now.directions.cos.now self.now.directions.sin.now) chroma)
            × (colors_in result ≡ colors_after self.now.design self.now.directions.cos.now self.now.directions.sin.now (value (end_of (judge_at self.now.design self.now.directions.cos.now self.now.directions.sin.now) chroma))) }
    {
        let k = self.design.k;
        let mut c = chroma;
        let mut last = BackOff::Untried;
        // no count says how often: the chroma is lowered as long as it is tried
        while tried(c) {
            let colors = self.colors_of(c);
            match first_finding(k, measure(k, colors, &self.directions)) {
                None => return BackOff::Passed { chroma: c, colors },
                Some(found) => last = BackOff::Found(found),
            }
            c -= 0.05;
        }
        last
    }
}

// Derives a palette: dark hues, then light ones, and zeros after the 2k; each colour clipped to the gamut of sRGB, so that it may have
// less chroma than asked. Refused by 1, 3, 9, 11 or 12.
// Kept as two slices: it is this call that refuses them.
pub fn derive(design: Design, chroma: f32, cos: &[f32], sin: &[f32]) -> Result<[Srgb8; 32], Refusal>
    ensures { said result ≡ derivation_says design chroma cos.now sin.now }
{
    let directions = palette_checks::check_design(design, chroma, cos, sin)?;
    let shown = Shown { design, directions };
    Ok(shown.colors_of(chroma))
}

// The hues of the first n colours.
fn hues_in(n: usize, colors: [Srgb8; 32], directions: &Directions<'_>) -> [f32; 32]
    requires { n ≤ 32 }
    ensures { Measured (color_hue directions.now.cos.now directions.now.sin.now) n colors result }
{
    hue::srgb8_hues(n, colors, directions.cos, directions.sin).unwrap()
}

// Lightness and chroma of colours, each in the place of its colour.
#[derive(Clone, Copy)]
struct Parts {
    l: [f32; 32],
    c: [f32; 32],
}

// Those of the first n colours.
fn parts_of(n: usize, colors: [Srgb8; 32]) -> Parts
    requires { n ≤ 32 }
    ensures { Measured lightness_of n colors result.l × Measured chroma_in n colors result.c }
{
    let mut l = [0.0f32; 32];
    let mut c = [0.0f32; 32];
    for i in 0..n {
        let lab = color::srgb8_to_lab(colors[i]);
        l[i] = lab.l;
        c[i] = lab.chroma();
    }
    Parts { l, c }
}

// The four metrics of 2k colours.
fn measure(k: usize, colors: [Srgb8; 32], directions: &Directions<'_>) -> Metrics
    requires { hue_count_taken k ≡ true }
    ensures { result ≡ metrics_of k colors directions.now.cos.now directions.now.sin.now }
{
    let Parts { l, c } = parts_of(2 * k, colors);
    let gap = metrics::gap_of(k, l);
    let spread = metrics::spread_of(k, l);
    if k < 2 {
        return Metrics {
            gap,
            spread,
            separation: f32::INFINITY,
            chroma: f32::INFINITY,
        };
    }
    Metrics {
        gap,
        spread,
        separation: metrics::separation_of(k, hues_in(2 * k, colors, directions)),
        chroma: metrics::chroma_of(k, c),
    }
}

// The first finding, in the order tested.
#[tactic(auto, using(crate::proofs::Findings::finds_gap, crate::proofs::Findings::finds_spread, crate::proofs::Findings::finds_separation, crate::proofs::Findings::finds_chroma, crate::proofs::Findings::passes_one, crate::proofs::Findings::passes_more))]
fn first_finding(k: usize, m: Metrics) -> Option<Finding>
    requires { k ≤ 16 }
    ensures { verdict_said result ≡ first_of (findings k m) }
{
    if m.gap < 40.0 {
        return Some(Finding::Gap);
    }
    if 12.0 < m.spread {
        return Some(Finding::Spread);
    }
    if 2 <= k {
        if m.separation < 300.0 / k as f32 {
            return Some(Finding::Separation);
        }
        if m.chroma < 35.0 {
            return Some(Finding::Chroma);
        }
    }
    None
}

// Validates a palette of 2k colours; `count` says how many of the 32 there are. Refused by 1, 9 or 13.
// Kept as two slices: it is this call that refuses them.
#[tactic(auto, unfolding(crate::specs::Validation::validation_says, crate::specs::Validation::judged))]
pub fn validate(
    k: usize,
    colors: [Srgb8; 32],
    count: usize,
    cos: &[f32],
    sin: &[f32],
) -> Result<Validation, Refusal>
    ensures { validation_said result ≡ validation_says k colors count cos.now sin.now }
{
    if !limits::takes_hue_count(k) {
        return Err(Refusal::HueCount);
    }
    let directions = Directions::new(cos, sin)?;
    if count != 2 * k {
        return Err(Refusal::ColorCount);
    }
    let metrics = measure(k, colors, &directions);
    let finding = first_finding(k, metrics);
    Ok(Validation { metrics, finding })
}

// Whether back-off tries a chroma.
fn tried(c: f32) -> bool
    ensures { result ≡ tried c }
{
    35.0 <= c
}

// The first chroma from the one asked for down, in steps of 0.05, at which the palette of this one design has no finding, as sRGB
// shows it. It is no limit: another design may pass at a greater chroma. Refused by 1, 3, 9, 11 or 12.
// Kept as two slices: it is this call that refuses them.
pub fn back_off(design: Design, chroma: f32, cos: &[f32], sin: &[f32]) -> Result<BackOff, Refusal>
    ensures { (back_off_said result ≡ back_off_says design chroma cos.now sin.now)
        × (colors_said result ≡ colors_after design cos.now sin.now (back_off_says design chroma cos.now sin.now)) }
{
    let directions = palette_checks::check_design(design, chroma, cos, sin)?;
    let shown = Shown { design, directions };
    Ok(shown.lower_from(chroma))
}
