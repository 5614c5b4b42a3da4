// What a call on rows and rings hands to a caller in another language: one number, and what is written where it is lent.
// Numbers, lent places and parameters one by one are what the C interface needs. It is run by `compare/bench`.
#![tactic(auto)]

ghost use Rattle.std.specs.Prelude.{◌≡◌, ℕ, length};
ghost use Rattle.limits.specs.Answers.{Untouched};
ghost use Rattle.limits.specs.Refusals.{said};
ghost use Rattle.placement_rules.specs.Placing.{placement_says, tightest_beside};
ghost use Rattle.pair_rules.specs.Pair as pair;
ghost use Rattle.pair_rules.specs.Pair.{pair_says, chosen_said, tightest_of};
ghost use Rattle.gamut.specs.Gamut.{fill_says, row_after};
ghost use Rattle.handing.specs.Numbers.{number_of, place_number, hues_after, gap_after, best_number, best_hues, best_chroma};

use limits::Refusal;
use pair::Chosen;

// What is given where there is no placement.
const NO_PLACEMENT: u32 = 255;

// What is given where no chroma is found.
const NO_CHROMA: u32 = 255;

// A row's filling as one number.
fn number_of(filled: Result<(), Refusal>) -> u32
    ensures { result ≡ number_of (said filled) }
{
    match filled {
        Ok(()) => 0,
        Err(why) => u32::from(why.number()),
    }
}

// Fills the row of one level, by 720 lent directions, and gives 0. Where it is refused it gives the refusal's number, and
// the row is as before.
pub fn fill_row(level: usize, cos: &[f32], sin: &[f32], row: &mut [f32]) -> u32
    ensures { (result ≡ number_of (fill_says level cos.now sin.now row.old))
        × (row.new ≡ row_after level cos.now sin.now row.old) }
{
    number_of(gamut::fill_row(level, cos, sin, row))
}

// k hues at least `step` apart all round a ring of entries m, each with an entry of at least c: gives 0 with sixteen hues and the
// smallest gap of the k in positions, 255 with zeros where there is no placement, or the number of a refusal, with the hues, the gap
// and the work buffer as before.
pub fn place(
    m: &[f32],
    c: f32,
    k: usize,
    step: usize,
    work: &mut [u16],
    hues: &mut [u16; 16],
    tightest: &mut [usize; 1],
) -> u32
    ensures value { (result ≡ place_number (placement_says k step c m.now (length work.old)))
        × (hues.new ≡ hues_after (placement_says k step c m.now (length work.old)) hues.old) }
    ensures tightest_after { tightest.new ≡
        gap_after (placement_says k step c m.now (length work.old))
        (tightest_beside (length m.now) k (placement_says k step c m.now (length work.old))) tightest.old }
    ensures untouched { Untouched (placement_says k step c m.now (length work.old)) work.old work.new }
{
    match placement::feasible(m, c, k, step, work) {
        Ok(Some(found)) => {
            // copied first: an array is not moved out of what is lent
            let placed = found.hues;
            *hues = placed;
            *tightest = [found.tightest];
            0
        }
        Ok(None) => {
            *hues = [0; 16];
            *tightest = [0];
            NO_PLACEMENT
        }
        Err(why) => u32::from(why.number()),
    }
}

// What a best hands over: 0 with the chroma and its sixteen hues, 255 with zeros for hues and the chroma as before where there is none,
// or the number of a refusal, with both as before.
pub fn hand(
    chosen: Result<Option<Chosen>, Refusal>,
    hues: &mut [u16; 16],
    chroma: &mut [f32; 1],
) -> u32
    ensures { (result ≡ best_number (chosen_said chosen))
        × ((hues.new ≡ best_hues (chosen_said chosen) hues.old)
        × (chroma.new ≡ best_chroma (chosen_said chosen) chroma.old)) }
{
    match chosen {
        Ok(Some(best)) => {
            // copied first: an array is not moved out of what is lent
            let placed = best.hues;
            *hues = placed;
            *chroma = [best.chroma];
            0
        }
        Ok(None) => {
            *hues = [0; 16];
            NO_CHROMA
        }
        Err(why) => u32::from(why.number()),
    }
}

// What a best hands over of the smallest gap: that of its hues, 0 where there is none; where it is refused the number is as before.
fn hand_gap(chosen: Result<Option<Chosen>, Refusal>, tightest: &mut [usize; 1])
    ensures { tightest.new ≡ gap_after (chosen_said chosen) (tightest_of chosen) tightest.old }
{
    match chosen {
        Ok(Some(best)) => *tightest = [best.tightest],
        Ok(None) => *tightest = [0],
        Err(_) => {}
    }
}

// The best chroma of two rows from a floor up, for k hues at least `step` apart all round: gives 0 with the chroma, sixteen hues and
// the smallest gap of the k in positions, 255 with zeros for hues and gap and the chroma as before where there is none, or the number
// of a refusal, with the hues, the gap, the chroma and the work buffer as before.
pub fn best(
    a: &[f32],
    b: &[f32],
    k: usize,
    step: usize,
    floor: f32,
    work: &mut [u16],
    hues: &mut [u16; 16],
    tightest: &mut [usize; 1],
    chroma: &mut [f32; 1],
) -> u32
    ensures value { (result ≡ best_number (pair_says k step floor a.now b.now (length work.old)))
        × ((hues.new ≡ best_hues (pair_says k step floor a.now b.now (length work.old)) hues.old)
        × (chroma.new ≡ best_chroma (pair_says k step floor a.now b.now (length work.old)) chroma.old)) }
    ensures tightest_after { tightest.new ≡
        gap_after (pair_says k step floor a.now b.now (length work.old))
        (pair.tightest_beside (length a.now) k (pair_says k step floor a.now b.now (length work.old))) tightest.old }
    ensures untouched { Untouched (pair_says k step floor a.now b.now (length work.old)) work.old work.new }
{
    let chosen = pair::best_for_levels(a, b, k, step, floor, work);
    hand_gap(chosen, tightest);
    hand(chosen, hues, chroma)
}
