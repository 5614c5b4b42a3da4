// Document 01's stand-ins for `sqrt` and `cbrt`: the f32 nearest the exact root. One code serves both degrees n: the
// operand is normalised by the leading zeros of its fraction bits, and 25 binary digits of the root are taken, one a turn,
// with a running remainder, which keeps the cube root inside 64 bits.
// Its cases are in `color_cases`.
#![tactic(auto)]

ghost use Rattle.std.specs.Prelude.{◌≡◌, ◌⊎◌, ◌+◌, ◌*◌, ◌^◌, ◌≤◌, ◌<◌};
ghost use Rattle.limits.specs.Refusals.{said};
ghost use Rattle.halving.specs.Patterns.{worth, least, half_way};
ghost use Rattle.roots.specs.Roots.{root_says};

use limits::Refusal;

// The operand as significand × 2 ^ exponent, in units of 2 ^ -172.
#[derive(Clone, Copy)]
struct Scaled {
    significand: u64,
    exponent: u32,
}

// The f32 with the pattern `bits`, its significand brought to 24 digits.
fn normalise(bits: u32) -> Scaled
    requires { (0 < bits) × (bits < 2139095040) }
    ensures { (worth bits * 2 ^ 23 ≡ result.significand * 2 ^ result.exponent) × ((8388608 ≤ result.significand) × ((result.significand < 16777216) × (result.exponent < 277))) }
{
    let field = bits / 0x80_0000;
    let fraction = bits % 0x80_0000;
    if field == 0 {
        let zeros = u32::leading_zeros(fraction) - 8;
        return Scaled {
            significand: (fraction as u64) << zeros,
            exponent: 23 - zeros,
        };
    }
    Scaled {
        significand: fraction as u64 + 0x80_0000,
        exponent: field + 22,
    }
}

// How much more (2a + 1) ^ n is than (2a) ^ n.
fn gain(n: u32, a: u64) -> u64
    requires { ((n ≡ 2) ⊎ (n ≡ 3)) × (a < 16777216) }
    ensures { ((2 * a) ^ n + result ≡ (2 * a + 1) ^ n) × (result < 2 ^ 52) }
{
    if n == 2 {
        4 * a + 1
    } else {
        (12 * a + 6) * a + 1
    }
}

// 25 binary digits of a root: the greatest h whose n-th power is at most w × 2 ^ (24 n - 24).
fn root_digits(n: u32, w: u64) -> u64
    requires { ((n ≡ 2) ⊎ (n ≡ 3)) × (w < 2 ^ (24 + n)) }
    ensures { (result ^ n * 2 ^ (24 + n) ≤ w * 2 ^ (25 * n)) × ((w * 2 ^ (25 * n) < (result + 1) ^ n * 2 ^ (24 + n)) × (result < 33554432)) }
{
    let mut root: u64 = 0;
    let mut rest: u64 = 0;
    let mut tail = w;
    for _ in 0..25u32 {
        let more = (rest << n) + tail / 0x100_0000;
        let step = gain(n, root);
        tail = (tail % 0x100_0000) << n;
        if step <= more {
            rest = more - step;
            root = 2 * root + 1;
        } else {
            rest = more;
            root = 2 * root;
        }
    }
    root
}

// How many of the 24 digits of a root come from zeros below the operand's own digits.
fn zeros(n: u32) -> u32
    requires { (n ≡ 2) ⊎ (n ≡ 3) }
    ensures { (n * result + (24 + n) ≡ 24 * n) × (result < 16) }
{
    if n == 2 { 11 } else { 15 }
}

// The pattern of the f32 nearest the n-th root of the f32 with the pattern `bits`.
fn root_bits(n: u32, bits: u32) -> u32
    requires { ((n ≡ 2) ⊎ (n ≡ 3)) × ((0 < bits) × (bits < 2139095040)) }
    ensures { (result ≡ least (half_way n (worth bits) (2 ^ 149)) 31 0) × (result < 2139095040) }
{
    let x = normalise(bits);
    let shift = x.exponent + 149 * (n - 1) - 24;
    let h = root_digits(n, x.significand << (1 + shift % n));
    (shift / n - zeros(n)) * 0x80_0000 + ((h + 1) / 2) as u32
}

// The n-th root of x, refused by 16 where x is not finite or has its sign bit set.
fn root_of(n: u32, x: f32) -> Result<f32, Refusal>
    requires { (n ≡ 2) ⊎ (n ≡ 3) }
    ensures { said result ≡ root_says n x }
{
    if !limits::takes_root_operand(x) {
        return Err(Refusal::Operand);
    }
    let bits = x.to_bits();
    if bits == 0 {
        return Ok(0.0);
    }
    Ok(f32::from_bits(root_bits(n, bits)))
}

// The f32 nearest the square root of x.
pub fn sqrt(x: f32) -> Result<f32, Refusal>
    ensures { said result ≡ root_says 2 x }
{
    root_of(2, x)
}

// The f32 nearest the cube root of x.
pub fn cbrt(x: f32) -> Result<f32, Refusal>
    ensures { said result ≡ root_says 3 x }
{
    root_of(3, x)
}
