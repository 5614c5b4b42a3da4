// Functions for callers in other languages, each exported under its own name. A slice is handed over as the address of its
// first element, then its length; what is written must overlap nothing else that is handed over. A bool is 0 or 1. A work buffer
// has at least one entry for each position of the ring, 720 for a search or a set of levels; what it holds does not matter.
// Numbers, lent places and parameters one by one are what the C interface needs. They are run by `compare/bench`.
#![tactic(auto)]

ghost use Rattle.std.specs.Prelude.{◌≡◌, map, ℕ, length};
ghost use Rattle.limits.specs.Answers.{Untouched};
ghost use Rattle.placement_rules.specs.Placing.{placement_says, tightest_beside};
ghost use Rattle.pair_rules.specs.Pair as pair;
ghost use Rattle.pair_rules.specs.Pair.{pair_says};
ghost use Rattle.search_rules.specs.Job.{search_says};
ghost use Rattle.gamut.specs.Gamut.{fill_says, row_after};
ghost use Rattle.srgb.specs.Parts.{to_hex};
ghost use Rattle.palette.specs.BackOff.{back_off_says};
ghost use Rattle.page.specs.Page.{page_says};
ghost use Rattle.handing.specs.Numbers.{number_of, place_number, hues_after, gap_after, best_number, best_hues, best_chroma};
ghost use Rattle.ceiling_rules.specs.Ceiling.{outlook_says};
ghost use Rattle.orientation_rules.specs.Orientation.{orientation_says};
ghost use Rattle.level_set_rules.specs.Set.{set_says};
ghost use Rattle.exports.specs.Numbers.{settings_of, handed, search_hands, search_gap, orientation_hands, best_of, job_of, ceiling_number, ceiling_after, paged, page_hands, design_of, backed, back_off_hands};

use palette::{BackOff, Design};
use search::{Best, Job, Settings};
use srgb::Srgb8;

// What is given where no chroma is found.
const NO_CHROMA: u32 = 255;

// What is given where no qualifying pair is left.
const NO_PAIR: u32 = 255;

// What is given where no chroma passes, but for the last finding.
const NONE_PASSES: u32 = 240;

// Fills the row of one level, by 720 lent directions, and gives 0. Where it is refused it gives the refusal's number, and
// the row is as before.
#[unsafe(no_mangle)]
pub extern "C" fn tengcuvo_fill_row(level: usize, cos: &[f32], sin: &[f32], row: &mut [f32]) -> u32
    ensures { (result ≡ number_of (fill_says level cos.now sin.now row.old))
        × (row.new ≡ row_after level cos.now sin.now row.old) }
{
    handing::fill_row(level, cos, sin, row)
}

// k hues at least `step` apart all round a ring of entries m, each with an entry of at least c: gives 0 with sixteen hues and the
// smallest gap of the k in positions, 255 with zeros where there is no placement, or the number of a refusal, with the hues, the gap
// and the work buffer as before.
#[unsafe(no_mangle)]
pub extern "C" fn tengcuvo_place(
    m: &[f32],
    c: f32,
    k: usize,
    step: usize,
    work: &mut [u16],
    hues: &mut [u16; 16],
    tightest: &mut [usize; 1],
) -> u32
    ensures value { (result ≡ place_number (placement_says k step c m.now (length work.old)))
        × (hues.new ≡ hues_after (placement_says k step c m.now (length work.old)) hues.old) }
    ensures tightest_after { tightest.new ≡
        gap_after (placement_says k step c m.now (length work.old))
        (tightest_beside (length m.now) k (placement_says k step c m.now (length work.old))) tightest.old }
    ensures untouched { Untouched (placement_says k step c m.now (length work.old)) work.old work.new }
{
    handing::place(m, c, k, step, work, hues, tightest)
}

// The best chroma of two rows from a floor up, for k hues at least `step` apart all round: gives 0 with the chroma, sixteen hues and
// the smallest gap of the k in positions, 255 with zeros for hues and gap and the chroma as before where there is none, or the number
// of a refusal, with the hues, the gap, the chroma and the work buffer as before.
#[unsafe(no_mangle)]
pub extern "C" fn tengcuvo_best(
    a: &[f32],
    b: &[f32],
    k: usize,
    step: usize,
    floor: f32,
    work: &mut [u16],
    hues: &mut [u16; 16],
    tightest: &mut [usize; 1],
    chroma: &mut [f32; 1],
) -> u32
    ensures value { (result ≡ best_number (pair_says k step floor a.now b.now (length work.old)))
        × ((hues.new ≡ best_hues (pair_says k step floor a.now b.now (length work.old)) hues.old)
        × (chroma.new ≡ best_chroma (pair_says k step floor a.now b.now (length work.old)) chroma.old)) }
    ensures tightest_after { tightest.new ≡
        gap_after (pair_says k step floor a.now b.now (length work.old))
        (pair.tightest_beside (length a.now) k (pair_says k step floor a.now b.now (length work.old))) tightest.old }
    ensures untouched { Untouched (pair_says k step floor a.now b.now (length work.old)) work.old work.new }
{
    handing::best(a, b, k, step, floor, work, hues, tightest, chroma)
}

// The whole search of a table for k hues, on levels at least gap + 1 apart, gap being from 40 to 84: gives 0 with the chroma, sixteen
// hues, the smallest gap of the k in positions and the dark and the light level index, 255 with zeros for hues and gap and the others
// as before where there is none, or the number of a refusal, with all that is lent as before.
#[unsafe(no_mangle)]
pub extern "C" fn tengcuvo_search(
    k: usize,
    gap: f32,
    table: &[f32],
    work: &mut [u16],
    hues: &mut [u16; 16],
    tightest: &mut [usize; 1],
    levels: &mut [usize; 2],
    chroma: &mut [f32; 1],
) -> u32
    ensures chroma_after { handed result hues.new levels.new chroma.new ≡
        search_hands (search_says (settings_of k gap) table.now (length work.old)) hues.old levels.old chroma.old }
    ensures tightest_after { tightest.new ≡ search_gap (search_says (settings_of k gap) table.now (length work.old)) tightest.old }
    ensures untouched { Untouched (search_says (settings_of k gap) table.now (length work.old)) work.old work.new }
{
    let settings = Settings { k, gap };
    let mut job = search::begin(settings, 0);
    match search::search(settings, table, work, &mut job) {
        Ok(()) => {
            *tightest = [job.tightest];
            match job.best {
                Best::None => {
                    *hues = [0; 16];
                    NO_CHROMA
                }
                Best::Found(reached, dark, light) => {
                    // copied first: an array is not moved out of what is lent
                    let placed = job.hues;
                    *hues = placed;
                    *levels = [dark, light];
                    *chroma = [reached];
                    0
                }
            }
        }
        Err(why) => u32::from(why.number()),
    }
}

// The best chroma of a table where one hue is fixed and its partner lies 301 to 419 positions on, on levels at least gap + 1 apart:
// gives 0 with the chroma, sixteen hues, of which the first is the fixed one and the second its partner, and the dark and the light
// level index, 255 with zeros for hues and the others as before where there is none, or the number of a refusal, with all that is lent
// as before.
#[unsafe(no_mangle)]
pub extern "C" fn tengcuvo_orientation(
    gap: f32,
    table: &[f32],
    hue: usize,
    hues: &mut [u16; 16],
    levels: &mut [usize; 2],
    chroma: &mut [f32; 1],
) -> u32
    ensures { handed result hues.new levels.new chroma.new ≡
        orientation_hands hue (orientation_says gap table.now hue) hues.old levels.old chroma.old }
{
    match orientation::best_at_orientation(gap, table, hue) {
        Ok(Some(best)) => {
            // copied first: an array is not moved out of what is lent
            let placed = best.hues;
            *hues = placed;
            *levels = [best.dark, best.light];
            *chroma = [best.chroma];
            0
        }
        Ok(None) => {
            *hues = [0; 16];
            NO_CHROMA
        }
        Err(why) => u32::from(why.number()),
    }
}

// The best chroma of the levels named, 1 to 8 indices of a table's levels, for k hues at least the step for k apart all round: gives 0
// with the chroma and sixteen hues, 255 with zeros for hues and the chroma as before where no hue has a value above 0, or the number of
// a refusal, with the hues, the chroma and the work buffer as before.
#[unsafe(no_mangle)]
pub extern "C" fn tengcuvo_level_set(
    table: &[f32],
    levels: &[usize],
    k: usize,
    work: &mut [u16],
    hues: &mut [u16; 16],
    chroma: &mut [f32; 1],
) -> u32
    ensures value { (result ≡ best_number (set_says k table.now levels.now (length work.old)))
        × ((hues.new ≡ best_hues (set_says k table.now levels.now (length work.old)) hues.old)
        × (chroma.new ≡ best_chroma (set_says k table.now levels.now (length work.old)) chroma.old)) }
    ensures untouched { Untouched (set_says k table.now levels.now (length work.old)) work.old work.new }
{
    handing::hand(
        level_set::best_for_level_set(table, levels, k, work),
        hues,
        chroma,
    )
}

// A best by whether there is one, its chroma and its level indices.
fn best_of(found: bool, chroma: f32, dark: usize, light: usize) -> Best
    ensures { result ≡ best_of found chroma dark light }
{
    if found {
        Best::Found(chroma, dark, light)
    } else {
        Best::None
    }
}

// The page of a job for the service book, of which the arguments up to the smallest gap are the record: whether there is a best so far
// and, if so, its chroma, its level indices, its hues, which are zeros after the first k, and their smallest gap; the hues and the gap
// are zeros where there is none. Gives 0 with the page from the first byte on and how many bytes it has, the rest of the buffer as before, or the number of a refusal, with both as
// before. 861 bytes are enough for every page.
#[unsafe(no_mangle)]
#[tactic(auto, unfolding(page::specs::Page::page_after))]
pub extern "C" fn tengcuvo_page(
    found: bool,
    k: usize,
    gap: f32,
    levels: usize,
    position: usize,
    chroma: f32,
    dark: usize,
    light: usize,
    hues: &[u16; 16],
    tightest: usize,
    page: &mut [u8],
    written: &mut [usize; 1],
) -> u32
    ensures { paged result page.new written.new ≡
        page_hands (page_says (job_of k gap levels position (best_of found chroma dark light) hues.now tightest) (length page.old))
        (job_of k gap levels position (best_of found chroma dark light) hues.now tightest) page.old written.old }
{
    // copied first: an array is not moved out of what is lent
    let indices = *hues;
    let job = Job {
        settings: Settings { k, gap },
        levels,
        position,
        best: best_of(found, chroma, dark, light),
        hues: indices,
        tightest,
    };
    match page::lay_out(job, page) {
        Ok(count) => {
            *written = [count];
            0
        }
        Err(why) => u32::from(why.number()),
    }
}

// The ceiling of what a job may still find over its table, of which the arguments up to the smallest gap are the record, as for its page:
// gives 0 with the ceiling, the greatest, over the qualifying pairs still to come, of the lesser of both rows' largest entries; 255 where
// no qualifying pair is left, with that number as before; or the number of a refusal, likewise.
#[unsafe(no_mangle)]
pub extern "C" fn tengcuvo_ceiling(
    found: bool,
    k: usize,
    gap: f32,
    levels: usize,
    position: usize,
    chroma: f32,
    dark: usize,
    light: usize,
    hues: &[u16; 16],
    tightest: usize,
    table: &[f32],
    ceiling: &mut [f32; 1],
) -> u32
    ensures { (result ≡
        ceiling_number (outlook_says (job_of k gap levels position (best_of found chroma dark light) hues.now tightest) table.now))
        × (ceiling.new ≡
        ceiling_after (outlook_says (job_of k gap levels position (best_of found chroma dark light) hues.now tightest) table.now) ceiling.old) }
{
    // copied first: an array is not moved out of what is lent
    let indices = *hues;
    let job = Job {
        settings: Settings { k, gap },
        levels,
        position,
        best: best_of(found, chroma, dark, light),
        hues: indices,
        tightest,
    };
    match ceiling::look_ahead(job, table) {
        Ok(outlook) => match outlook.ceiling {
            Some(most) => {
                *ceiling = [most];
                0
            }
            None => NO_PAIR,
        },
        Err(why) => u32::from(why.number()),
    }
}

// Thirty-two colours as 0xRRGGBB.
fn hexes_of(colors: [Srgb8; 32]) -> [u32; 32]
    ensures { result ≡ map to_hex colors }
{
    colors.map(|color| color.to_hex())
}

// The back-off of this one design from a chroma, its colours clipped to the gamut of sRGB and measured there, whatever table was
// searched: gives 0 with the first chroma that passes and its colours as 0xRRGGBB; 240 and the number of the last finding, or 240
// alone where no chroma was tried, with zeros for colours and `passed` as before; or the number of a refusal, with both as before.
#[unsafe(no_mangle)]
pub extern "C" fn tengcuvo_back_off(
    k: usize,
    dark: usize,
    light: usize,
    hues: &[u16; 16],
    chroma: f32,
    cos: &[f32],
    sin: &[f32],
    colors: &mut [u32; 32],
    passed: &mut [f32; 1],
) -> u32
    ensures { backed result colors.new passed.new ≡
        back_off_hands (design_of k dark light hues.now) cos.now sin.now
        (back_off_says (design_of k dark light hues.now) chroma cos.now sin.now) colors.old passed.old }
{
    // copied first: an array is not moved out of what is lent
    let indices = *hues;
    let design = Design {
        k,
        dark,
        light,
        hues: indices,
    };
    match palette::back_off(design, chroma, cos, sin) {
        Ok(
            BackOff::Passed {
                chroma: reached,
                colors: shown,
            },
        ) => {
            *colors = hexes_of(shown);
            *passed = [reached];
            0
        }
        Ok(BackOff::Found(finding)) => {
            *colors = [0; 32];
            NONE_PASSES + u32::from(finding.number())
        }
        Ok(BackOff::Untried) => {
            *colors = [0; 32];
            NONE_PASSES
        }
        Err(why) => u32::from(why.number()),
    }
}
