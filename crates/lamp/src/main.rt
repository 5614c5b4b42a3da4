// A whole palette, from table to colours. Standard input says what is asked and gives the 720 directions; the program fills the
// sRGB table, searches it with progress in lines, writes the page of the job for the service book, and the levels, hues, tightest
// gap and chroma found with the limit beside the chroma; then, of that one design, what validation says of its sRGB colours at
// that chroma, and the colours after back-off.
#![tactic(auto)]

mod book;
mod colors;
mod input;
mod job;
mod numbers;
mod show;
mod table;
mod words;

use input::Asked;
use limits::Refusal;
use palette::{BackOff, Design, Validation};
use search::{Best, Job};
use srgb::Srgb8;
use words::{Found, Refused};

// What validation says of the colours of k hues.
fn measured(k: usize, colors: [Srgb8; 32], asked: &Asked) -> Result<Validation, Refusal> {
    palette::validate(k, colors, k.wrapping_add(k), &asked.cos, &asked.sin)
}

// Derives a design's palette at the chroma found, and writes what validation says of it.
fn derive(rt: &impl Print, design: Design, chroma: f32, asked: &Asked) {
    match palette::derive(design, chroma, &asked.cos, &asked.sin) {
        Ok(colors) => colors::validation(rt, measured(design.k, colors, asked)),
        Err(why) => {
            let _ = println!(rt; "{}", Refused(why));
        }
    }
}

// Backs off from the chroma found, and writes what comes of it: of the chroma that passed, what is measured and the colours.
fn back_off(rt: &impl Print, design: Design, chroma: f32, asked: &Asked) {
    let _ = print!(rt; "backed off, this design alone: ");
    let _ = match palette::back_off(design, chroma, &asked.cos, &asked.sin) {
        Ok(BackOff::Passed { chroma, colors }) => {
            let said = measured(design.k, colors, asked);
            colors::passed(rt, design, chroma, colors, said);
            Ok(())
        }
        Ok(BackOff::Untried) => println!(rt; "no chroma tried"),
        Ok(BackOff::Found(finding)) => println!(rt;
            "every chroma tried down to 35 has a finding, the last one {}",
            Found(finding)
        ),
        Err(why) => println!(rt; "{}", Refused(why)),
    };
}

// Writes what a search found, with its colours.
fn finish(rt: &impl Print, found: Job, asked: &Asked) {
    let Job {
        settings,
        best,
        hues,
        tightest,
        ..
    } = found;
    match best {
        Best::None => show::none(rt, settings),
        Best::Found(chroma, dark, light) => {
            let design = Design {
                k: settings.k,
                dark,
                light,
                hues,
            };
            show::found(rt, design, tightest, chroma);
            show::limit(rt, settings, chroma);
            derive(rt, design, chroma, asked);
            back_off(rt, design, chroma, asked);
        }
    }
}

// Searches a table, and writes what is found.
fn search_in(rt: &impl Print, table: &[f32], asked: &Asked) {
    match job::search_in(rt, table, asked.settings) {
        Ok(last) => {
            book::write(rt, last);
            finish(rt, last, asked);
        }
        Err(why) => {
            let _ = println!(rt; "{}", Refused(why));
        }
    }
}

// Fills the table by the directions, searches it, and writes what is found. Not part of its caller's code: the table is not on the stack
// while the input is read.
#[inline(never)]
fn run(rt: &impl Print, asked: &Asked) {
    let mut entries = [0.0; table::ENTRIES];
    match table::fill(&mut entries, asked) {
        Ok(()) => {
            let _ = println!(rt; "filled 169 levels of 720 hues");
            search_in(rt, &entries, asked);
        }
        Err(why) => {
            let _ = println!(rt; "{}", Refused(why));
        }
    }
}

// Reads what is asked, and runs where every line is as it should be and none is missing.
fn main(rt: HostRuntime) {
    if let Some(asked) = input::read(&rt) {
        show::asked(&rt, asked.settings);
        run(&rt, &asked);
    }
}
