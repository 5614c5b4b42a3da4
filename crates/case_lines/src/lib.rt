// A list of cases, read from standard input line by line, what the words of a line say, and the lines that a program answers.
#![tactic(auto)]

ghost use Rattle.std.specs.Prelude.{◌≤◌};

pub mod answers;
pub mod digest;
pub mod entries;
pub mod hues;
pub mod work_buffer;

use cases::{Found, Line};
use std::io::Read;

// How many turns a program takes at most, each for one line or one reading: more than any list needs.
const TURNS: u64 = 0x100_0000_0000;

// How many bytes are read at once.
const READ: usize = 4096;

// How far a list was read.
// An array and a count, as there is no heap here.
#[derive(Drop)]
struct Reader {
    // the line read last
    line: Line,
    // the bytes that were read last, the place of the next one among them, and how many there are
    buffer: [u8; READ],
    at: usize,
    end: usize,
    // whether there may be more to read
    more: bool,
    ghost within: { end ≤ 4096 },
}

impl Reader {
    // Nothing was read.
    fn new() -> Reader {
        Reader {
            line: Line::new(),
            buffer: [0; READ],
            at: 0,
            end: 0,
            more: true,
        }
    }

    // Takes bytes up to the end of a line, or all that were read.
    fn take_bytes(&mut self) {
        for at in self.at..self.end {
            self.line.feed(self.buffer[at]);
            self.at = at + 1;
            if self.line.ended {
                break;
            }
        }
    }

    // Reads once. At the end a line that was cut is answered.
    fn refill(&mut self, rt: &impl Print, input: &mut impl Read) {
        self.at = 0;
        self.end = 0;
        match input.read(&mut self.buffer) {
            Ok(count) => self.end = count,
            Err(_) => answers::say(rt, b"unread\n"),
        }
        if self.end == 0 {
            self.more = false;
            if let Found::Malformed = self.line.left() {
                answers::malformed(rt);
            }
        }
    }

    // One turn: takes the bytes that were read up to the end of a line, or reads more. Says whether it brought a case to its end;
    // a line that a list may not have is answered.
    fn turn(&mut self, rt: &impl Print, input: &mut impl Read) -> bool {
        if self.end <= self.at {
            self.refill(rt, input);
            return false;
        }
        self.take_bytes();
        match self.line.found() {
            Found::Open | Found::Nothing => false,
            Found::Case => true,
            Found::Malformed => {
                answers::malformed(rt);
                false
            }
        }
    }
}

// Reads a list to its end, and hands on each of its cases. One that a list may not have, for which nothing comes back, is answered.
pub fn each_case<R: Input + Print, F: FnMut(&Line) -> Option<()>>(rt: &R, mut take: F)
    requires { F.IsAlwaysCallable take }
{
    let mut input = rt.reader();
    let mut reader = Reader::new();
    for _ in 0..TURNS {
        if !reader.more {
            break;
        }
        if reader.turn(rt, &mut input) && take(&reader.line).is_none() {
            answers::malformed(rt);
        }
    }
}
