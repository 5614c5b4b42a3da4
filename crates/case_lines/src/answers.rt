// Answers to the lines of a list, each on a line of standard output: to a case its operation and its words as they were read,
// a `=`, and the words of what came out; to a line that a list may not have `malformed`.
use crate::work_buffer;
use cases::{Line, MOST};
use limits::Refusal;
use std::fmt;

// The words of what came out of a case, as many as a line can have at most.
// An array and a count, as there is no heap here.
#[derive(Clone, Copy)]
pub struct Answer {
    words: [u32; MOST],
    count: usize,
}

impl Answer {
    // No words.
    pub fn new() -> Answer {
        Answer {
            words: [0; MOST],
            count: 0,
        }
    }

    // The number of the refusal that a call gives, or 0.
    pub fn after<T>(outcome: &Result<T, Refusal>) -> Answer {
        Answer::new().with_byte(number_of(outcome))
    }

    // With one more word.
    pub fn with(mut self, word: u32) -> Answer {
        if self.count < MOST {
            self.words[self.count] = word;
            self.count += 1;
        }
        self
    }

    // With a number, which counts as the greatest word where it is greater.
    pub fn with_size(self, n: usize) -> Answer {
        self.with(u32::try_from(n).unwrap_or(u32::MAX))
    }

    // With 1 for yes and 0 for no.
    pub fn with_bool(self, yes: bool) -> Answer {
        self.with(u32::from(yes))
    }

    // With the number of a refusal, or another small one.
    pub fn with_byte(self, number: u8) -> Answer {
        self.with(u32::from(number))
    }

    // With a float by its pattern.
    pub fn with_float(self, x: f32) -> Answer {
        self.with(patterns::pattern_of(x))
    }

    // With so many zeros.
    pub fn with_zeros(self, count: usize) -> Answer {
        (0..count).fold(self, |answer, _| answer.with(0))
    }

    // With a digest, its high half first.
    pub fn with_digest(self, digest: u64) -> Answer {
        self.with((digest >> 32) as u32)
            .with((digest % 0x1_0000_0000) as u32)
    }

    // With sixteen hues.
    pub fn with_hues(self, hues: [u16; 16]) -> Answer {
        hues.iter()
            .fold(self, |answer, hue| answer.with(u32::from(*hue)))
    }

    // After a call that was refused, with the digest of the work buffer that it left; after an accepted one what that holds is free.
    pub fn with_left<T>(self, outcome: &Result<T, Refusal>, work: &[u16]) -> Answer {
        match outcome {
            Ok(_) => self,
            Err(_) => self.with_digest(work_buffer::digest_of(work)),
        }
    }

    // Writes it as the answer to a case.
    pub fn write(&self, rt: &impl Print, line: &Line) {
        let operation = Letters(line.operation());
        let asked = Words(line.words());
        let said = Words(&self.words[..self.count.min(MOST)]);
        let _ = println!(rt; "{operation}{asked} ={said}");
    }
}

// The number of the refusal that a call gives, or 0.
pub fn number_of<T>(outcome: &Result<T, Refusal>) -> u8 {
    match outcome {
        Ok(_) => 0,
        Err(why) => why.number(),
    }
}

// The letters of an operation, as text.
#[derive(Clone, Copy)]
struct Letters<'a>(&'a [u8]);

impl fmt::Display for Letters<'_> {
    fn fmt<W: fmt::Write>(&self, f: &mut fmt::Formatter<W>) -> fmt::Result {
        for letter in self.0 {
            let letter = char::from(*letter);
            write!(f, "{letter}")?;
        }
        Ok(())
    }
}

// Words as text: each in hexadecimal, after a space.
#[derive(Clone, Copy)]
struct Words<'a>(&'a [u32]);

impl fmt::Display for Words<'_> {
    fn fmt<W: fmt::Write>(&self, f: &mut fmt::Formatter<W>) -> fmt::Result {
        for word in self.0 {
            write!(f, " {word:x}")?;
        }
        Ok(())
    }
}

// Writes bytes to standard output; where that fails, those left are not written.
pub fn say(rt: &impl Print, bytes: &[u8]) {
    let _ = rt.write_all(bytes);
}

// Answers a line that a list may not have.
pub fn malformed(rt: &impl Print) {
    say(rt, b"malformed\n");
}
