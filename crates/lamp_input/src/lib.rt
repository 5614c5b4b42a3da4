// The line `ask k gap` of the input of `lamp`, in decimal: how many hues, and how far apart the two levels must be, less 1.
// Its case is the input of `lamp`.
#![tactic(auto)]

ghost use Rattle.std.specs.Prelude.{◌≡◌, true, List, ◌∷◌, [], ℕ, ◌+◌, ◌-◌, ◌*◌, ◌≤◌, ◌<◌, Some};
ghost use Rattle.ring_reading.specs.Numbers.{is_digit};
ghost use Rattle.lamp_input.specs.Ask.{ask_of, gap_of, goes_on, numbers_of, count_from, gap_from, whole_from, decimals_from};
ghost use Rattle.lamp_input.specs.Inner.{ask_said, rest, Within};

use ring_reading::is_digit;

// What a line asks: so many hues, and this gap.
#[derive(Clone, Copy)]
pub struct Ask {
    pub k: usize,
    pub gap: f32,
}

// What was read of a line so far, behind `ask` and a space.
// A state with more than one case, so no `Option` of a value.
#[derive(Clone, Copy)]
enum Part {
    // nothing
    Start,
    // some digits of k
    Count(u32),
    // k and a space
    Between(u32),
    // k, and some digits of the gap before its point
    Whole(u32, u32),
    // k, the gap in ten-thousandths, and how many of them the next digit counts
    Decimals(u32, u32, u32),
}

// What a digit stands for, as in `ring_reading` but wider: over both types it would need a trait with the sum in it.
#[tactic(auto, using(ring_reading::proofs::Numbers::digit_range))]
fn value(byte: u8) -> u32
    requires { is_digit byte ≡ true }
    ensures { (result ≡ byte - 48) × (result ≤ 9) }
{
    (byte - b'0') as u32
}

// Whether another digit may follow a number so far, which is to stay below ten times `most`.
#[tactic(auto, unfolding(crate::specs::Ask::goes_on))]
fn goes_on(most: u32, n: u32, byte: u8) -> bool
    ensures { result ≡ goes_on most n byte }
{
    is_digit(byte) && 1 <= n && n < most
}

// With one more byte where the first digit of k must stand, if it may stand there; so below.
#[tactic(auto, unfolding(crate::specs::Ask::numbers_of))]
fn after_start(byte: u8) -> Option<Part>
    ensures { (Within result) × ((text : List ℕ) → rest result text ≡ numbers_of (byte ∷ text)) }
{
    if !is_digit(byte) {
        return None;
    }
    Some(Part::Count(value(byte)))
}

// With one more byte behind some digits of k.
#[tactic(auto, unfolding(crate::specs::Ask::count_from), using(crate::proofs::Steps::goes_on_lem))]
fn after_count(k: u32, byte: u8) -> Option<Part>
    ensures { (Within result) × ((text : List ℕ) → rest result text ≡ count_from k (byte ∷ text)) }
{
    if byte == b' ' {
        return Some(Part::Between(k));
    }
    if !goes_on(10, k, byte) {
        return None;
    }
    Some(Part::Count(k * 10 + value(byte)))
}

// With one more byte where the first digit of the gap must stand.
#[tactic(auto, unfolding(crate::specs::Ask::gap_from))]
fn after_between(k: u32, byte: u8) -> Option<Part>
    ensures { (Within result) × ((text : List ℕ) → rest result text ≡ gap_from k (byte ∷ text)) }
{
    if !is_digit(byte) {
        return None;
    }
    Some(Part::Whole(k, value(byte)))
}

// With one more byte behind some digits of the gap, before its point.
#[tactic(auto, unfolding(crate::specs::Ask::whole_from), using(crate::proofs::Steps::goes_on_lem))]
fn after_whole(k: u32, n: u32, byte: u8) -> Option<Part>
    requires { n < 1000 }
    ensures { (Within result) × ((text : List ℕ) → rest result text ≡ whole_from k n (byte ∷ text)) }
{
    if byte == b'.' {
        return Some(Part::Decimals(k, n * 10000, 1000));
    }
    if !goes_on(100, n, byte) {
        return None;
    }
    Some(Part::Whole(k, n * 10 + value(byte)))
}

// With one more byte behind the point.
#[tactic(auto, unfolding(crate::specs::Ask::decimals_from), using(crate::proofs::Steps::adds))]
fn after_point(k: u32, n: u32, unit: u32, byte: u8) -> Option<Part>
    requires { n + 10 * unit ≤ 10000000 }
    ensures { (Within result) × ((text : List ℕ) → rest result text ≡ decimals_from k n unit (byte ∷ text)) }
{
    if is_digit(byte) && 1 <= unit {
        return Some(Part::Decimals(k, n + value(byte) * unit, unit / 10));
    }
    None
}

// With one more byte.
fn fed(part: Part, byte: u8) -> Option<Part>
    requires { Within (Some part) }
    ensures { (Within result) × ((text : List ℕ) → rest result text ≡ rest (Some part) (byte ∷ text)) }
{
    match part {
        Part::Start => after_start(byte),
        Part::Count(k) => after_count(k, byte),
        Part::Between(k) => after_between(k, byte),
        Part::Whole(k, n) => after_whole(k, n, byte),
        Part::Decimals(k, n, unit) => after_point(k, n, unit, byte),
    }
}

// A gap of so many ten-thousandths. Both numbers are whole and below 2^24, so exact, and the one division gives the f32 nearest
// the decimal number.
fn gap_of(n: u32) -> f32
    requires { n ≤ 10000000 }
    ensures { result ≡ gap_of n }
{
    n as f32 / 10000.0
}

// What is asked where the line ends.
#[tactic(auto, unfolding(crate::specs::Ask::numbers_of, crate::specs::Ask::count_from, crate::specs::Ask::gap_from, crate::specs::Ask::whole_from, crate::specs::Ask::decimals_from))]
fn ended(part: Part) -> Option<Ask>
    requires { Within (Some part) }
    ensures { ask_said result ≡ rest (Some part) [] }
{
    let (k, n) = match part {
        Part::Whole(k, n) => (k, n * 10000),
        Part::Decimals(k, n, unit) if unit != 1000 => (k, n),
        _ => return None,
    };
    Some(Ask {
        k: k as usize,
        gap: gap_of(n),
    })
}

// What a line asks, which is lent without its newline, if it is not malformed.
pub fn read_ask(line: &[u8]) -> Option<Ask>
    ensures { ask_said result ≡ ask_of line.now }
{
    let text = line.strip_prefix(b"ask ")?;
    let mut part = Part::Start;
    for &byte in text {
        part = fed(part, byte)?;
    }
    ended(part)
}
