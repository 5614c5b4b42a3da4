// The hue of a colour by lent directions: document 01's stand-in for `atan2`.
// Its cases are in `color_cases`.
#![tactic(auto)]

ghost use Rattle.std.specs.Prelude.{◌≡◌, ◌≤◌, ◌<◌};
ghost use Rattle.limits.specs.Refusals.{said};
ghost use Rattle.hue.specs.Hue.{side_at, changes, hue_of, hue_says, color_hues, hues_says};

use color::Lab;
use limits::{Directions, Refusal};
use srgb::Srgb8;

// On which side of direction j the colour (a, b) lies: not negative on that direction and up to half a turn beyond it.
#[tactic(auto, unfolding(crate::specs::Hue::side_at), using(limits::proofs::Long::directions_long))]
fn side(directions: &Directions<'_>, a: f32, b: f32, j: usize) -> f32
    requires { j < 720 }
    ensures { result ≡ side_at directions.now.cos.now directions.now.sin.now a b j }
{
    directions.cos[j] * b - directions.sin[j] * a
}

// Whether the colour lies between a direction and the next, by its sides of both.
fn changes_side(x: f32, next: f32) -> bool
    ensures { result ≡ changes x next }
{
    0.0 <= x && next < 0.0
}

// The hue of (a, b), by the first direction j with (a, b) between it and the next, and 0 if there is none.
fn hue_of(directions: &Directions<'_>, a: f32, b: f32) -> f32
    ensures { result ≡ hue_of directions.now.cos.now directions.now.sin.now a b }
{
    for j in 0..720u16 {
        let x = side(directions, a, b, j as usize);
        let next = side(directions, a, b, ((j + 1) % 720) as usize);
        if changes_side(x, next) {
            return 0.5 * (j as f32 + x / (x + -next));
        }
    }
    0.0
}

// The hue of a colour in degrees, by 720 lent directions: 360 itself can occur. Refused by 9 for the directions, by 16 for a or b.
// Kept as two slices: it is this call that refuses them.
#[tactic(auto, unfolding(crate::specs::Hue::hue_says))]
pub fn hue_deg(lab: Lab, cos: &[f32], sin: &[f32]) -> Result<f32, Refusal>
    ensures { said result ≡ hue_says cos.now sin.now lab.a lab.b }
{
    let directions = Directions::new(cos, sin)?;
    if !limits::takes_hue_operand(lab.a) || !limits::takes_hue_operand(lab.b) {
        return Err(Refusal::Operand);
    }
    Ok(hue_of(&directions, lab.a, lab.b))
}

// The hues of the first n colours.
fn hues_of(n: usize, colors: [Srgb8; 32], directions: &Directions<'_>) -> [f32; 32]
    requires { n ≤ 32 }
    ensures { result ≡ color_hues directions.now.cos.now directions.now.sin.now n colors }
{
    let mut degrees = [0.0f32; 32];
    for i in 0..n {
        let lab = color::srgb8_to_lab(colors[i]);
        degrees[i] = hue_of(directions, lab.a, lab.b);
    }
    degrees
}

// The hues in degrees of the first n of 32 colours, by 720 lent directions, and zeros after them: every colour has one. Refused by 9 for
// the directions, by 13 for a count above 32.
// Kept as two slices: it is this call that refuses them.
#[tactic(auto, unfolding(crate::specs::Hue::hues_says))]
pub fn srgb8_hues(
    n: usize,
    colors: [Srgb8; 32],
    cos: &[f32],
    sin: &[f32],
) -> Result<[f32; 32], Refusal>
    ensures { said result ≡ hues_says cos.now sin.now n colors }
{
    let lent = Directions::new(cos, sin)?;
    if n > 32 {
        return Err(Refusal::ColorCount);
    }
    Ok(hues_of(n, colors, &lent))
}
