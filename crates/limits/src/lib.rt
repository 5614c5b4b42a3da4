// Document 01, "What a call can hand back", with what document 02 adds: the refusals with their numbers, and a check for each kind
// of value that a caller lends.
// Its cases are those of the crates that call it.
#![tactic(auto)]

ghost use Rattle.std.specs.Prelude.{◌≡◌, true, not};
ghost use Rattle.limits.specs.Refusals.{number};
ghost use Rattle.limits.specs.Taken.{outside, sign_clear, up_to, hue_count_taken, gap_taken, chroma_taken, entry_taken, direction_taken, root_operand_taken, hue_operand_taken, every, directions_taken};

// Why a call was refused, with document 01's number, from 18 on that of document 02, whose Req 04 words 8 and whose Req 05 adds to 2.
#[derive(Clone, Copy)]
pub enum Refusal {
    // hue count k not 1 to 16
    HueCount = 1,
    // gap NaN, sign bit set, or above 84; where a job is begun also below 40
    Gap = 2,
    // chroma NaN, sign bit set, or above 200
    Chroma = 3,
    // ring length not 1 to 720, or two rows of unequal length
    RingLength = 4,
    // spacing 0 or above the ring length
    Spacing = 5,
    // table length not levels × 720 with 1 to 169 levels
    TableLength = 6,
    // an entry read that is NaN, has its sign bit set, or exceeds 200
    Entry = 7,
    // work buffer shorter than one ring length
    WorkBuffer = 8,
    // cosine or sine slice not 720 long, or a component NaN or outside -1 to 1
    Directions = 9,
    // row to fill not 720 long
    RowLength = 10,
    // level index above 168, or not below the number of levels of the table that it is of
    LevelIndex = 11,
    // one of the first k hue indices above 719
    HueIndex = 12,
    // colour count not 2k
    ColorCount = 13,
    // job finished
    Finished = 14,
    // job record broken: a field out of range, or position above levels²
    Broken = 15,
    // root operand not finite or with sign bit set; hue operand NaN or beyond ±1000
    Operand = 16,
    // text line malformed
    Line = 17,
    // list of levels empty, or of more than 8
    LevelList = 18,
    // buffer to write a text into shorter than what is written
    TextBuffer = 19,
}

impl Refusal {
    // The number of a refusal.
    pub fn number(self) -> u8
        ensures { result ≡ number self }
    {
        self as u8
    }
}

// Whether x is a number from lo to hi.
#[tactic(auto, unfolding(crate::specs::Taken::outside), using(crate::proofs::Floats::differs))]
fn within(x: f32, lo: f32, hi: f32) -> bool
    ensures { result ≡ not (outside lo hi x) }
{
    !(x != x || x < lo || hi < x)
}

// Whether the sign bit of x is clear. A NaN, which has no sign here, does not pass.
#[tactic(auto, unfolding(crate::specs::Taken::sign_clear), using(crate::proofs::Floats::differs))]
fn sign_clear(x: f32) -> bool
    ensures { result ≡ sign_clear x }
{
    x == x && x.to_bits() < 0x8000_0000
}

// Whether x is a number from plus 0 to `most`.
#[tactic(auto, unfolding(crate::specs::Taken::up_to))]
fn up_to(x: f32, most: f32) -> bool
    ensures { result ≡ up_to most x }
{
    sign_clear(x) && !(most < x)
}

// Whether k is accepted as a hue count (number 1).
#[tactic(auto, unfolding(crate::specs::Taken::hue_count_taken))]
pub fn takes_hue_count(k: usize) -> bool
    ensures { result ≡ hue_count_taken k }
{
    1 <= k && k <= 16
}

// Whether x is accepted as a gap (number 2).
pub fn takes_gap(x: f32) -> bool
    ensures { result ≡ gap_taken x }
{
    up_to(x, 84.0)
}

// Whether x is accepted as a chroma (number 3).
pub fn takes_chroma(x: f32) -> bool
    ensures { result ≡ chroma_taken x }
{
    up_to(x, 200.0)
}

// Whether x is accepted as an entry of a table (number 7).
pub fn takes_entry(x: f32) -> bool
    ensures { result ≡ entry_taken x }
{
    up_to(x, 200.0)
}

// Whether x is accepted as a component of a direction (number 9).
pub fn takes_direction(x: f32) -> bool
    ensures { result ≡ direction_taken x }
{
    within(x, -1.0, 1.0)
}

// Whether x is accepted as a root operand (number 16).
pub fn takes_root_operand(x: f32) -> bool
    ensures { result ≡ root_operand_taken x }
{
    sign_clear(x) && x < f32::INFINITY
}

// Whether x is accepted as a or b of a hue (number 16).
pub fn takes_hue_operand(x: f32) -> bool
    ensures { result ≡ hue_operand_taken x }
{
    within(x, -1000.0, 1000.0)
}

// Whether every entry of a row or table is taken. No entry ends the loop, so that several can be tested at once.
pub fn takes_entries(entries: &[f32]) -> bool
    ensures { result ≡ every entry_taken entries.now }
{
    let mut all = true;
    for x in entries {
        all &= takes_entry(*x);
    }
    all
}

// Whether every component of one slice of directions is taken.
// Kept beside `takes_entries`: the test handed in as a closure would need a clause for what it says of each number.
fn takes_components(components: &[f32]) -> bool
    ensures { result ≡ every direction_taken components.now }
{
    let mut all = true;
    for x in components {
        all &= takes_direction(*x);
    }
    all
}

// Whether two slices are taken as the cosines and the sines of the 720 directions.
// Kept as two slices: `Directions` is what is made of them where they are taken.
#[tactic(auto, unfolding(crate::specs::Taken::directions_taken))]
pub fn takes_directions(cos: &[f32], sin: &[f32]) -> bool
    ensures { result ≡ directions_taken cos.now sin.now }
{
    cos.len() == 720 && sin.len() == 720 && takes_components(cos) && takes_components(sin)
}

// The 720 directions that are lent, as cosines and sines that are taken.
#[derive(Clone, Copy)]
pub struct Directions<'a> {
    pub cos: &'a [f32],
    pub sin: &'a [f32],
    ghost taken: { directions_taken cos.now sin.now ≡ true },
}

impl<'a> Directions<'a> {
    ghost use Rattle.limits.specs.Lent.{directions_says, directions_said};

    // Two slices as the directions, refused by 9 where they are not taken.
    pub fn new(cos: &'a [f32], sin: &'a [f32]) -> Result<Directions<'a>, Refusal>
        ensures { directions_said result ≡ directions_says cos.now sin.now }
    {
        if !takes_directions(cos, sin) {
            return Err(Refusal::Directions);
        }
        Ok(Directions { cos, sin })
    }
}
