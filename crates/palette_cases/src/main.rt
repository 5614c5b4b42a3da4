// Answers a list of cases for the crates `palette`, `metrics` and `palette_checks`: derivations, validations and back-offs with the bits
// of their metrics or chroma and all of their 32 colours. `compare/driver/lists/palette.rs` says what the list holds.
#![tactic(auto)]

mod calls;
mod colors;

use case_lines::hues;
use case_tables::directions::Lending;
use cases::Line;
use palette::Design;
use srgb::Srgb8;

// What the lines so far have set.
#[derive(Clone, Copy)]
struct State {
    lending: Lending,
    design: Design,
    // the colours that a validation is of
    colors: [Srgb8; 32],
}

impl State {
    // No line has come yet.
    fn new() -> State {
        State {
            lending: Lending::new(721, None),
            design: Design {
                k: 0,
                dark: 0,
                light: 0,
                hues: [0; 16],
            },
            colors: colors::of(&[]),
        }
    }

    // Takes a line, which is answered if it is a case.
    fn take_line(&mut self, rt: &impl Print, line: &Line) -> Option<()> {
        let answer = match (line.operation(), line.words()) {
            // design k dark light h ..: the design has this hue count, these level indices and these hues, zeros after the last
            (b"design", [k, dark, light, words @ ..])
                if words.len() <= 16 && colors::are_below(words, 0x1_0000) => {
                self.design = Design {
                    k: *k as usize,
                    dark: *dark as usize,
                    light: *light as usize,
                    hues: hues::sixteen(words),
                };
                return Some(());
            }

            // colors c ..: the 32 colours are these, zeros after the last
            (b"colors", words @ [_, ..])
                if words.len() <= 32 && colors::are_below(words, 0x100_0000) => {
                self.colors = colors::of(words);
                return Some(());
            }

            // derive chroma = number c ..: `derive` of the design, with the number of its refusal or 0, and 32 colours
            (b"derive", [chroma]) => calls::derive(self.design, *chroma, self.lending.lend()),

            // validate k count = number gap spread separation chroma finding: `validate` of so many of the colours, with the number
            // of its refusal alone, or 0, the four metrics and the number of the first finding, 0 where there is none
            (b"validate", [k, count]) => {
                calls::validate(*k, *count, self.colors, self.lending.lend())
            }

            // backoff chroma = number passed what c ..: `back_off` of the design, with the number of its refusal or 0; 1 and the
            // chroma that passed, or 0 and the last finding, 0 where nothing was tried; and 32 colours
            (b"backoff", [chroma]) => calls::back_off(self.design, *chroma, self.lending.lend()),
            _ => return self.lending.take_line(line),
        };
        answer.write(rt, line);
        Some(())
    }
}

// Answers the list.
fn main(rt: HostRuntime) {
    let mut state = State::new();
    case_lines::each_case(&rt, |line| state.take_line(&rt, line));
    state.lending.finish(&rt);
}
