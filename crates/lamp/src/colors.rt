// The lines that say what validation and back-off find, and the colours.
use crate::numbers::{Halves, Metric, exact};
use crate::show;
use crate::words::{Found, Refused};
use limits::Refusal;
use metrics::Metrics;
use palette::{Design, Validation};
use srgb::Srgb8;

// Writes the four metrics.
fn metric_lines(rt: &impl Print, metrics: Metrics) {
    let _ = println!(rt; "colours of this design at the chroma found");
    let _ = println!(rt; "gap {}", Metric(metrics.gap));
    let _ = println!(rt; "spread {}", Metric(metrics.spread));
    let _ = println!(rt; "hue separation {}", Metric(metrics.separation));
    let _ = println!(rt; "least chroma {}", Metric(metrics.chroma));
}

// Writes what validation says: the metrics, and the first finding or that there is none.
pub fn validation(rt: &impl Print, said: Result<Validation, Refusal>) {
    let _ = match said {
        Ok(Validation { metrics, finding }) => {
            metric_lines(rt, metrics);
            match finding {
                Some(finding) => println!(rt; "{}", Found(finding)),
                None => println!(rt; "no finding"),
            }
        }
        Err(why) => println!(rt; "{}", Refused(why)),
    };
}

// Writes the colours of a level, each with its hue.
fn level_lines(rt: &impl Print, level: usize, hues: &[u16], colors: &[Srgb8]) {
    let lightness = show::lightness(level);
    for (hue, color) in hues.iter().zip(colors) {
        let hex = color.to_hex();
        let degrees = Halves(u64::from(*hue));
        let _ = println!(rt; "#{hex:06x}, lightness {lightness}, {degrees} degrees");
    }
}

// Writes the least chroma that colours have, by what validation says of them.
fn least(rt: &impl Print, said: Result<Validation, Refusal>) {
    let _ = match said {
        Ok(validation) => {
            println!(rt;
                "least chroma of its colours {}",
                Metric(validation.metrics.chroma)
            )
        }
        Err(why) => println!(rt; "{}", Refused(why)),
    };
}

// Writes the colours of a design: the first k are dark, and the k after them light.
fn lines(rt: &impl Print, design: Design, colors: [Srgb8; 32]) {
    let k = design.k.min(16);
    level_lines(rt, design.dark, &design.hues[..k], &colors[..k]);
    level_lines(rt, design.light, &design.hues[..k], &colors[k..]);
}

// Writes the chroma that passed, and the colours, by what validation says of them.
pub fn passed(
    rt: &impl Print,
    design: Design,
    chroma: f32,
    colors: [Srgb8; 32],
    said: Result<Validation, Refusal>,
) {
    let _ = println!(rt; "no finding at chroma {}", exact(chroma));
    least(rt, said);
    lines(rt, design, colors);
}
