// The lines that say what is asked, what the search found and its limit.
use crate::numbers::{Decimal, Halves, exact};
use crate::words::Refused;
use palette::Design;
use search::Settings;
use std::fmt;

// Writes what is asked.
pub fn asked(rt: &impl Print, settings: Settings) {
    let _ = println!(rt; "asked: hues {}, gap {}", settings.k, exact(settings.gap));
}

// The lightness of a level.
pub fn lightness(level: usize) -> Halves {
    Halves((level as u64).wrapping_add(24))
}

// Writes a level.
fn level_line(rt: &impl Print, which: &str, level: usize) {
    let _ = println!(rt; "{which} level {level}, lightness {}", lightness(level));
}

// The hues that are meant, as words. One hue has no other that it could be apart from.
#[derive(Clone, Copy)]
struct Hues(usize);

impl fmt::Display for Hues {
    fn fmt<W: fmt::Write>(&self, f: &mut fmt::Formatter<W>) -> fmt::Result {
        let k = self.0;
        if k == 1 {
            return write!(f, "single hue");
        }
        match placement_checks::step_for(k) {
            Ok(step) => {
                let step = Halves(step as u64);
                write!(f, "{k} hues at least {step} degrees apart")
            }
            Err(why) => write!(f, "{}", Refused(why)),
        }
    }
}

// Which hues and levels are meant, as words: those that are asked.
#[derive(Clone, Copy)]
struct Those(Settings);

impl fmt::Display for Those {
    fn fmt<W: fmt::Write>(&self, f: &mut fmt::Formatter<W>) -> fmt::Result {
        let hues = Hues(self.0.k);
        let apart = Decimal {
            x: self.0.gap + 1.0,
            most: 40,
        };
        write!(
            f,
            "in this table no {hues}, on two levels at least {apart} apart, can have a common chroma"
        )
    }
}

// Writes the limit beside a chroma that was found: what no hues that are asked exceed on levels that are asked (audit/proofs/Panel,
// `stepped_is_limit`).
pub fn limit(rt: &impl Print, settings: Settings, chroma: f32) {
    let _ = match audit::bound_of(chroma) {
        Ok(most) => println!(rt; "limit: {} above {}", Those(settings), exact(most)),
        Err(why) => println!(rt; "{}", Refused(why)),
    };
}

// Writes that no hues that are asked reach 35 on levels that are asked, by the same theorem.
pub fn none(rt: &impl Print, settings: Settings) {
    let _ = println!(rt; "none: {} of 35 or more", Those(settings));
}

// Writes what a search found. The smallest gap of the hues is that round the circle, the closing one included: with one hue, the whole
// circle.
pub fn found(rt: &impl Print, design: Design, tightest: usize, chroma: f32) {
    level_line(rt, "dark", design.dark);
    level_line(rt, "light", design.light);
    for hue in design.hues.iter().take(design.k) {
        let degrees = Halves(u64::from(*hue));
        let _ = println!(rt; "hue {hue}, {degrees} degrees");
    }
    let degrees = Halves(tightest as u64);
    let _ = println!(rt; "tightest gap {tightest} positions, {degrees} degrees");
    let _ = println!(rt; "chroma {}", exact(chroma));
}
