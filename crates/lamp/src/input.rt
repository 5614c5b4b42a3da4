// What standard input says: `ask k gap` once, in decimal, and `dir j cos sin` for each direction, in the form of the case lists.
use crate::words::Fault;
use cases::{Found, Line};
use lamp_input::Ask;
use patterns::float_of;
use search::Settings;
use std::io::Read;

// How many bytes the buffer has; an input that fills it is too long.
const ROOM: usize = 65536;

// How many directions there are.
const DIRECTIONS: usize = 720;

// What is asked, and the directions.
#[derive(Clone, Copy)]
pub struct Asked {
    pub settings: Settings,
    pub cos: [f32; DIRECTIONS],
    pub sin: [f32; DIRECTIONS],
}

// What the lines said.
#[derive(Clone, Copy)]
struct Said {
    settings: Option<Settings>,
    // the cosine and the sine of each direction that was given
    directions: [Option<(f32, f32)>; DIRECTIONS],
}

impl Said {
    // Nothing was said.
    fn new() -> Said {
        Said {
            settings: None,
            directions: [None; DIRECTIONS],
        }
    }

    // Takes what a line asks.
    fn take_ask(&mut self, text: &[u8]) -> Result<(), Fault> {
        if self.settings.is_some() {
            return Err(Fault::AskedTwice);
        }
        let Ask { k, gap } = lamp_input::read_ask(text).ok_or(Fault::NoAsk)?;
        self.settings = Some(Settings { k, gap });
        Ok(())
    }

    // Takes a direction, if it is one and was not given before.
    fn take_direction(&mut self, words: &[u32]) -> Result<(), Fault> {
        let [j, cos, sin] = words else {
            return Err(Fault::NoDirection);
        };
        let Some(direction) = self.directions.get_mut(*j as usize) else {
            return Err(Fault::NoDirection);
        };
        if direction.is_some() {
            return Err(Fault::GivenTwice);
        }
        *direction = Some((float_of(*cos), float_of(*sin)));
        Ok(())
    }

    // Takes a line that is at its end; its text is without the newline.
    fn take_line(&mut self, line: &Line, text: &[u8]) -> Result<(), Fault> {
        match (line.operation(), line.found()) {
            (b"ask", _) => self.take_ask(text),
            (b"dir", Found::Case) => self.take_direction(line.words()),
            (_, Found::Open | Found::Nothing) => Ok(()),
            (_, Found::Case | Found::Malformed) => Err(Fault::Neither),
        }
    }

    // What is asked, where all is said; what is missing is written.
    fn asked(&self, rt: &impl Print) -> Option<Asked> {
        let Some(settings) = self.settings else {
            let _ = println!(rt; "missing: ask k gap");
            return None;
        };
        let mut cos = [0.0; DIRECTIONS];
        let mut sin = [0.0; DIRECTIONS];
        for (j, direction) in self.directions.iter().enumerate() {
            let Some((x, y)) = direction else {
                let _ = println!(rt; "missing: dir {j:x} cos sin");
                return None;
            };
            cos[j] = *x;
            sin[j] = *y;
        }
        Some(Asked { settings, cos, sin })
    }
}

// What is asked by an input, read line by line; a line that is malformed is written, and nothing is taken after it. The last newline may
// be missing.
fn asked_in(rt: &impl Print, bytes: &[u8]) -> Option<Asked> {
    let mut said = Said::new();
    let mut line = Line::new();
    for text in bytes.split(|byte| *byte == b'\n') {
        for byte in text {
            line.feed(*byte);
        }
        line.feed(b'\n');
        if let Err(fault) = said.take_line(&line, text) {
            let _ = println!(rt; "line {}: malformed: {fault}", line.number);
            return None;
        }
    }
    said.asked(rt)
}

// Reads until a buffer is full, the input ends or a read fails, and gives how many bytes stand at its start.
// A `while`: each turn goes on by what a read brought, so there is nothing to count or to go over.
fn read_full(reader: &mut impl Read, buffer: &mut [u8]) -> usize {
    let mut done = 0;
    while done < buffer.len() {
        let n = reader.read(&mut buffer[done..]).unwrap_or(0);
        if n == 0 {
            break;
        }
        done += n;
    }
    done
}

// What standard input asks, which is read to its end. Not part of its caller's code: its buffer is off the stack before the table is
// on it.
#[inline(never)]
pub fn read(rt: &(impl Input + Print)) -> Option<Asked> {
    let mut buffer = [0; ROOM];
    let mut reader = rt.reader();
    let count = read_full(&mut reader, &mut buffer);
    if count >= ROOM {
        let _ = println!(rt; "the input has more than 65535 bytes");
        return None;
    }
    asked_in(rt, &buffer[..count])
}
