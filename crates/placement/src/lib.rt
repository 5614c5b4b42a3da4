// k hues on a ring, at a chroma: `feasible` and `place_from` of xtask/src/palette.rs.
// Its cases are in `placement_cases`.
#![tactic(auto)]

ghost use Rattle.std.specs.Prelude.{◌≡◌, ◌+◌, ◌%◌, ◌≤◌, ◌<◌, length, take, Some};
ghost use Rattle.limits.specs.Answers.{Untouched};
ghost use Rattle.placement_rules.specs.Ring.{placed, earliest};
ghost use Rattle.placement_rules.specs.Gaps.{around, tightest};
ghost use Rattle.placement_rules.specs.Placing.{allowed_at, placement_says, Hands, Gives};
ghost use Rattle.placement.specs.Inner.{Asked, first_allowed, Filled, FillAsked, GapsAsked, placed_from, placed_on};

use limits::Refusal;
pub use placement_rules::Placement;

// How far an index lies on from another round a ring.
fn around(n: usize, i: u16, j: u16) -> usize
    requires { (n ≤ 720) × (i < n) }
    ensures { result ≡ around n i j }
{
    if i < j {
        (j - i) as usize
    } else {
        n + j as usize - i as usize
    }
}

// The smallest gap of the first k hues round a ring, from the last of them on: from it back to the first, then from each one before
// it to the next.
fn tightest(n: usize, k: usize, hues: [u16; 16]) -> usize
    requires { GapsAsked n k hues }
    ensures { result ≡ tightest n (take k hues) }
{
    let mut least = around(n, hues[k - 1], hues[0]);
    for at in (0..k - 1).rev() {
        least = around(n, hues[at], hues[at + 1]).min(least);
    }
    least
}

// These hues are placed.
fn placed(n: usize, k: usize, hues: [u16; 16]) -> Placement
    requires { GapsAsked n k hues }
    ensures { Hands n k (Some result) (placed hues) }
{
    Placement {
        hues,
        tightest: tightest(n, k, hues),
    }
}

// An index of the second lap brought down to the first.
fn reduce(j: usize, n: usize) -> u16
    requires { (j < n + n) × (n ≤ 720) }
    ensures { result ≡ j % n }
{
    if j < n { j as u16 } else { (j - n) as u16 }
}

// A placement that is asked for, with arguments that are taken.
#[derive(Clone, Copy)]
struct Ring<'a> {
    // the entries all round, and the chroma that those of hues must reach
    m: &'a [f32],
    c: f32,
    // how many hues, and how far apart
    k: usize,
    step: usize,
    ghost asked: { Asked m.now k step },
}

impl Ring<'_> {
    // The first allowed index, 65535 if there is none: document 01 names this mark.
    fn first_allowed(&self) -> u16
        ensures { result ≡ first_allowed self.now.m.now self.now.c }
    {
        for (i, x) in self.m.iter().enumerate() {
            if self.c <= *x {
                return i as u16;
            }
        }
        65535
    }

    // Fills the table of earliest allowed indices, one lap from its top. After the last allowed index comes the first, one length on.
    fn fill(&self, first: u16, work: &mut [u16])
        requires { FillAsked self.now.m.now self.now.c first work.old }
        ensures { Filled self.now.m.now self.now.c 0 work.new }
    {
        let n = self.m.len();
        let mut seen = n as u16 + first;
        for i in (0..n).rev() {
            if self.c <= self.m[i] {
                seen = i as u16;
            }
            work[i] = seen;
        }
    }

    // The earliest allowed index from an index of the first or the second lap on, by the table.
    fn ahead(&self, next: &[u16], from: usize) -> usize
        requires { Filled self.now.m.now self.now.c 0 next.now × (from < length self.now.m.now + length self.now.m.now) }
        ensures { result ≡ earliest (allowed_at self.now.m.now self.now.c) (length self.now.m.now) from }
    {
        let n = self.m.len();
        if from < n {
            next[from] as usize
        } else {
            n + next[from - n] as usize
        }
    }

    // k indices from a start, each the earliest allowed at least `step` further on, by the table of earliest allowed indices.
    fn place_from(&self, next: &[u16], start: usize) -> Option<Placement>
        requires { Filled self.now.m.now self.now.c 0 next.now × (start < length self.now.m.now) }
        ensures { Hands (length self.now.m.now) self.now.k result (placed_from self.now.m.now self.now.c self.now.k self.now.step start) }
    {
        if !(self.c <= self.m[start]) {
            return None;
        }
        let n = self.m.len();
        let stop = start + n;
        let mut hues = [0u16; 16];
        hues[0] = start as u16;
        let mut cur = start;
        for at in 1..self.k {
            let from = cur + self.step;
            if stop <= from {
                return None;
            }
            let j = self.ahead(next, from);
            if stop <= j {
                return None;
            }
            hues[at] = reduce(j, n);
            cur = j;
        }
        if stop - cur < self.step {
            return None;
        }
        Some(placed(n, self.k, hues))
    }

    // The first start that succeeds. A start from which k - 1 steps would reach past the ring's end is not tried.
    fn first_start(&self, next: &[u16]) -> Option<Placement>
        requires { Filled self.now.m.now self.now.c 0 next.now }
        ensures { Hands (length self.now.m.now) self.now.k result (placed_on self.now.m.now self.now.c self.now.k self.now.step) }
    {
        let reach = (self.k - 1) * self.step;
        for s in 0..self.m.len().saturating_sub(reach) {
            let found = self.place_from(next, s);
            if found.is_some() {
                return found;
            }
        }
        None
    }

    // The placement, in a work buffer with room for the table.
    fn place(&self, work: &mut [u16]) -> Option<Placement>
        requires { length self.now.m.now ≤ length work.old }
        ensures { Hands (length self.now.m.now) self.now.k result (placed_on self.now.m.now self.now.c self.now.k self.now.step) }
    {
        let first = self.first_allowed();
        if first == 65535 {
            return None;
        }
        self.fill(first, work);
        self.first_start(work)
    }
}

// k hues at least `step` apart all round a ring, each with an entry of at least c: the first placement, with its smallest gap
// round the ring, or none. The work buffer's content is left free where the call is accepted, and does not matter.
// k and step are kept apart: it is this call that refuses each.
#[tactic(auto, using(crate::proofs::Checking::handing, crate::proofs::Checking::leaving))]
pub fn feasible(
    m: &[f32],
    c: f32,
    k: usize,
    step: usize,
    work: &mut [u16],
) -> Result<Option<Placement>, Refusal>
    ensures gives { Gives (length m.now) k result (placement_says k step c m.now (length work.old)) }
    ensures untouched { Untouched (placement_says k step c m.now (length work.old)) work.old work.new }
{
    placement_checks::check(m, c, k, step, work.len())?;
    let ring = Ring { m, c, k, step };
    let found = ring.place(work);
    Ok(found)
}
