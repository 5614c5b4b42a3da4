// The best of a set of levels.
use case_lines::answers::Answer;
use case_lines::work_buffer;
use level_set::Chosen;
use limits::Refusal;

// How many level indices a line can list.
const LISTED: usize = 23;

// The level indices of a set.
// An array and a count, as there is no heap here.
#[derive(Clone, Copy)]
pub struct Levels {
    indices: [usize; LISTED],
    count: usize,
}

impl Levels {
    // None.
    pub fn new() -> Levels {
        Levels {
            indices: [0; LISTED],
            count: 0,
        }
    }

    // Those that are listed.
    pub fn listed(&self) -> &[usize] {
        &self.indices[..self.count.min(LISTED)]
    }

    // Lists the indices that words say, if a line can list so many.
    pub fn set(&mut self, words: &[u32]) -> Option<()> {
        if words.len() > LISTED {
            return None;
        }
        for (index, word) in self.indices.iter_mut().zip(words) {
            *index = *word as usize;
        }
        self.count = words.len();
        Some(())
    }
}

// What came out of a set; the work buffer is as it was left.
// The same stands in `pair_cases`: no crate of test code over `pair_rules` is under both.
fn came_out(chosen: Result<Option<Chosen>, Refusal>, work: &[u16]) -> Answer {
    let number = Answer::after(&chosen);
    let answer = match chosen {
        Ok(Some(best)) => number
            .with(1)
            .with_float(best.chroma)
            .with_size(best.tightest)
            .with_hues(best.hues),
        Ok(None) | Err(_) => number.with_zeros(19),
    };
    answer.with_left(&chosen, work)
}

// What comes out of a set of levels of a table, for the line with this number, in a work buffer of this length.
pub fn best(number: u64, table: &[f32], levels: &[usize], k: u32, room: u32) -> Option<Answer> {
    work_buffer::lend(room as usize, work_buffer::seed_of(number), |work| {
        let chosen = level_set::best_for_level_set(table, levels, k as usize, work);
        came_out(chosen, work)
    })
}
