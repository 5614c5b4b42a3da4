// Sweeps: every placement on a ring by one digest. The digest goes over each hue count from 1 to 16, for it over
// each spacing from 1 to the ring's length, and for both over the chromas of the line. Each answer gives a byte: 0 for
// none, 255 for a placement, the number of a refusal; what is asked here is never refused. Sixteen hues and the
// tightest gap follow, two bytes each, the low one first.
use case_lines::answers::Answer;
use case_lines::{digest, work_buffer};
use limits::Refusal;
use placement::Placement;

// A digest with hues and their tightest gap, which counts as the greatest pair of bytes where it is greater.
fn with_hues(sum: u64, hues: &[u16], tightest: usize) -> u64 {
    let tightest = u16::try_from(tightest).unwrap_or(u16::MAX);
    digest::with_pair(digest::with_pairs(sum, hues), tightest)
}

// A digest with a placement.
fn with_place(sum: u64, found: Result<Option<Placement>, Refusal>) -> u64 {
    match found {
        Ok(Some(placed)) => with_hues(digest::with_byte(sum, 255), &placed.hues, placed.tightest),
        Ok(None) => with_hues(digest::with_byte(sum, 0), &[0; 16], 0),
        Err(why) => with_hues(digest::with_byte(sum, u32::from(why.number())), &[0; 16], 0),
    }
}

// The digest of every placement; the seed is that of what the first work buffer holds.
fn swept(ring: &[f32], chromas: &[u32], seed: u32, work: &mut [u16]) -> u64 {
    let mut sum = digest::START;
    let mut next = seed;
    for k in 1..=16 {
        for step in 1..=ring.len() {
            for chroma in chromas {
                work_buffer::fill(work, next);
                let c = patterns::float_of(*chroma);
                sum = with_place(sum, placement::feasible(ring, c, k, step, work));
                next = work_buffer::next_seed(next);
            }
        }
    }
    sum
}

// The digest of a sweep on a ring, by the line with this number, in a work buffer as long as the ring.
pub fn sweep(number: u64, ring: &[f32], chromas: &[u32]) -> Option<Answer> {
    let seed = work_buffer::seed_of(number);
    work_buffer::lend(ring.len(), seed, |work| {
        Answer::new().with_digest(swept(ring, chromas, seed, work))
    })
}
