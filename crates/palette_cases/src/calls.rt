// Derivations, validations and back-offs.
use crate::colors;
use case_lines::answers::Answer;
use case_tables::directions::Lent;
use metrics::Metrics;
use palette::{BackOff, Design, Finding};
use patterns::float_of;
use srgb::Srgb8;

// What comes out of a derivation.
pub fn derive(design: Design, chroma: u32, lent: Lent) -> Answer {
    let derived = palette::derive(design, float_of(chroma), lent.cos(), lent.sin());
    let answer = Answer::after(&derived);
    match derived {
        Ok(given) => colors::shown(answer, given),
        Err(_) => answer.with_zeros(32),
    }
}

// An answer with what is measured and the number of the first finding, 0 where there is none.
fn measured(to: Answer, m: Metrics, finding: Option<Finding>) -> Answer {
    to.with_float(m.gap)
        .with_float(m.spread)
        .with_float(m.separation)
        .with_float(m.chroma)
        .with_byte(finding.map_or(0, |found| found.number()))
}

// What comes out of a validation.
pub fn validate(k: u32, count: u32, given: [Srgb8; 32], lent: Lent) -> Answer {
    let validated = palette::validate(k as usize, given, count as usize, lent.cos(), lent.sin());
    let answer = Answer::after(&validated);
    match validated {
        Ok(validation) => measured(answer, validation.metrics, validation.finding),
        Err(_) => answer,
    }
}

// What comes out of a back-off.
pub fn back_off(design: Design, chroma: u32, lent: Lent) -> Answer {
    let ended = palette::back_off(design, float_of(chroma), lent.cos(), lent.sin());
    let answer = Answer::after(&ended);
    match ended {
        Ok(
            BackOff::Passed {
                chroma,
                colors: given,
            },
        ) => colors::shown(answer.with(1).with_float(chroma), given),
        Ok(BackOff::Found(finding)) => answer.with(0).with_byte(finding.number()).with_zeros(32),
        Ok(BackOff::Untried) | Err(_) => answer.with_zeros(34),
    }
}
