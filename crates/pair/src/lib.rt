// One pair: `best_for_levels` of xtask/src/palette.rs, over two lent rows; and the same over one row.
// Its cases are in `pair_cases`, those of one row in `level_set_cases`.
#![tactic(auto)]

ghost use Rattle.std.specs.Prelude.{◌≡◌, [], ◌∷◌, length};
ghost use Rattle.limits.specs.Answers.{value, pass, Untouched};
ghost use Rattle.limits.specs.Refusals.{said};
ghost use Rattle.placement_rules.specs.Placing.{checked};
ghost use Rattle.pair_rules.specs.Rows.{least_row, largest};
ghost use Rattle.pair_rules.specs.Pair.{best_over, rows_checked, rows_say, pair_says, Gives};
ghost use Rattle.pair.specs.Inner.{Taken, Ready, There, Tried, Stands, Turned, IsBest};

use limits::Refusal;
pub use pair_rules::Chosen;
use placement::Placement;

// The first refusal that applies to a pair, of 1, 3, 4, 5, 7 and 8. Rows of unequal length are refused as a ring without hues
// is. No ring that is taken needs more room than 720, so of the second row it is the entries alone that are left to be checked.
// k and step are kept apart: it is this call that refuses each.
fn check(
    a: &[f32],
    b: &[f32],
    floor: f32,
    k: usize,
    step: usize,
    room: usize,
) -> Result<(), Refusal>
    ensures { said result ≡ rows_checked k step floor (a.now ∷ b.now ∷ []) room (value tt) }
{
    if a.len() != b.len() {
        return placement_checks::check(&[], floor, k, step, room);
    }
    placement_checks::check(b, floor, k, step, 720)?;
    placement_checks::check(a, floor, k, step, room)
}

// Writes the lesser value at each hue of two rows, and gives the largest of these values.
fn lesser_row(a: &[f32], b: &[f32], row: &mut [f32]) -> f32
    requires { (length a.now ≡ length row.old) × (length b.now ≡ length row.old) }
    ensures { (row.new ≡ least_row (a.now ∷ b.now ∷ [])) × (result ≡ largest row.new) }
{
    let mut most = 0.0;
    for (i, lesser) in row.iter_mut().enumerate() {
        let x = a[i];
        let y = b[i];
        // compared here, so that the compiler takes several entries at once
        let value = if y < x { y } else { x };
        *lesser = value;
        if most < value {
            most = value;
        }
    }
    most
}

// Where a halving stands.
#[derive(Clone, Copy)]
struct Bracket {
    // the ends
    lo: f32,
    hi: f32,
    // what is placed at the lower one
    placed: Placement,
}

// A climb over a row of values, from a floor towards the largest of them, for so many hues so far apart.
#[derive(Clone, Copy)]
struct Climb<'a> {
    row: &'a [f32],
    k: usize,
    step: usize,
    floor: f32,
    most: f32,
    ghost top: { most ≡ largest row.now },
}

impl Climb<'_> {
    // What is placed at a chroma at which the row is taken, so that it is not refused.
    fn place(self, c: f32, work: &mut [u16]) -> Option<Placement>
        requires { checked self.k self.step c self.row.now (length work.old) pass ≡ pass }
        ensures { Tried self.entry.k self.entry.step self.entry.row.now c result }
    {
        placement::feasible(self.row, c, self.k, self.step, work).unwrap()
    }

    // One round, or none where all rounds that are left would change nothing: where the midpoint is an end and moves nothing, no round
    // after it moves anything.
    fn turn(self, at: Bracket, work: &mut [u16]) -> Option<Bracket>
        requires { Stands self.k self.step self.row.now (length work.old) at }
        ensures { Turned self.entry.k self.entry.step self.entry.row.now at result }
    {
        let mid = halving::midpoint(at.lo, at.hi);
        if mid.to_bits() == at.lo.to_bits() {
            return None;
        }
        if let Some(placed) = self.place(mid, work) {
            return Some(Bracket {
                lo: mid,
                placed,
                ..at
            });
        }
        if mid.to_bits() == at.hi.to_bits() {
            return None;
        }
        Some(Bracket { hi: mid, ..at })
    }

    // The best from the floor, at which these hues are placed.
    fn rounds(self, first: Placement, work: &mut [u16]) -> Chosen
        requires ready { Ready self.k self.step self.floor self.most self.row.now (length work.old) }
        requires there { There self.k self.step self.row.now self.floor first }
        ensures { IsBest self.entry.k self.entry.step self.entry.floor self.entry.row.now (Some result) }
    {
        let mut at = Bracket {
            lo: self.floor,
            hi: self.most,
            placed: first,
        };
        for _ in 0..30u32 {
            let Some(next) = self.turn(at, work) else {
                break;
            };
            at = next;
        }
        let Placement { hues, tightest } = at.placed;
        Chosen {
            chroma: at.lo,
            hues,
            tightest,
        }
    }

    // The best from the floor, where the largest is not below it.
    fn above(self, work: &mut [u16]) -> Option<Chosen>
        requires { Ready self.k self.step self.floor self.most self.row.now (length work.old) }
        ensures { IsBest self.entry.k self.entry.step self.entry.floor self.entry.row.now result }
    {
        let first = self.place(self.floor, work)?;
        Some(self.rounds(first, work))
    }

    // The best from the floor.
    // k and step are kept apart, as the two calls that refuse them hand them on.
    fn best(self, work: &mut [u16]) -> Option<Chosen>
        requires { checked self.k self.step self.floor self.row.now (length work.old) pass ≡ pass }
        ensures { IsBest self.entry.k self.entry.step self.entry.floor self.entry.row.now result }
    {
        if self.most < self.floor {
            return None;
        }
        self.above(work)
    }
}

// The best of two rows that are taken.
fn best(a: &[f32], b: &[f32], k: usize, step: usize, floor: f32, work: &mut [u16]) -> Option<Chosen>
    requires { Taken k step floor (a.now ∷ b.now ∷ []) (length work.old) }
    ensures { IsBest k step floor (least_row (a.now ∷ b.now ∷ [])) result }
{
    let mut least = [0.0; 720];
    let row = &mut least[..a.len()];
    let most = lesser_row(a, b, row);
    let climb = Climb {
        row,
        k,
        step,
        floor,
        most,
    };
    climb.best(work)
}

// The best chroma from a floor up at which k hues, at least `step` apart all round, have an entry of at least it in both rows, by
// 30 halvings; with its hues comes their smallest gap round the ring. The work buffer's content is left free where the call is
// accepted, and does not matter.
// k and step are kept apart: it is this call that refuses each.
pub fn best_for_levels(
    a: &[f32],
    b: &[f32],
    k: usize,
    step: usize,
    floor: f32,
    work: &mut [u16],
) -> Result<Option<Chosen>, Refusal>
    ensures gives { Gives (length a.now) k result (pair_says k step floor a.now b.now (length work.old)) }
    ensures untouched { Untouched (pair_says k step floor a.now b.now (length work.old)) work.old work.new }
{
    check(a, b, floor, k, step, work.len())?;
    Ok(best(a, b, k, step, floor, work))
}

// The largest of a row's values, and 0 where none is above it.
pub fn largest(row: &[f32]) -> f32
    ensures { result ≡ largest row.now }
{
    let mut most = 0.0;
    for &value in row {
        if most < value {
            most = value;
        }
    }
    most
}

// The best chroma of one row, as of two: from a floor up, for k hues at least `step` apart all round, by 30 halvings. The work buffer's
// content is left free where the call is accepted, and does not matter.
// k and step are kept apart: it is this call that refuses each.
pub fn best_for_row(
    row: &[f32],
    k: usize,
    step: usize,
    floor: f32,
    work: &mut [u16],
) -> Result<Option<Chosen>, Refusal>
    ensures gives { Gives (length row.now) k result (rows_say k step floor (row.now ∷ []) (length work.old)) }
    ensures untouched { Untouched (rows_say k step floor (row.now ∷ []) (length work.old)) work.old work.new }
{
    placement_checks::check(row, floor, k, step, work.len())?;
    let climb = Climb {
        row,
        k,
        step,
        floor,
        most: largest(row),
    };
    Ok(climb.best(work))
}
