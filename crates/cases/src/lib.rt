// A line of a case list, read byte by byte.
//
// A list is text. A line that starts with `#` is a comment, and an empty line says nothing. Any other
// line is a case: an operation of at most 8 lowercase letters and digits, then at most 40 words of at most
// 8 lowercase hexadecimal digits, with one space before each and a newline at the end.
#![tactic(auto)]

ghost use Rattle.std.specs.Prelude.{◌≡◌};
ghost use Rattle.cases.specs.Found.{found_of, left_of};

// How many letters an operation can have.
const LETTERS: usize = 8;

// How many digits a word can have.
const DIGITS: usize = 8;

// How many words a line can have.
pub const MOST: usize = 40;

// What the bytes of a line have been so far.
#[derive(Clone, Copy)]
pub enum Stage {
    // there are none
    Start,
    // a part of the operation
    Operation,
    // the operation, a space, and words with a space between them
    Words,
    // a comment
    Comment,
    // the start of no line that a list may have
    Unreadable,
}

// What a line is.
#[derive(Clone, Copy)]
pub enum Found {
    // not at its end yet
    Open,
    // a comment or an empty line
    Nothing,
    // a case
    Case,
    // neither
    Malformed,
}

// A line as far as it was read.
// An array and a count, as there is no heap here.
#[derive(Clone, Copy)]
pub struct Line {
    // which line of the list it is, from 1
    pub number: u64,
    // what its bytes have been
    pub stage: Stage,
    // whether its newline was read
    pub ended: bool,
    // the bytes of the operation, and how many there are
    operation: [u8; LETTERS],
    letters: usize,
    // the words that are complete, and how many there are
    words: [u32; MOST],
    count: usize,
    // the word being read, and how many digits of it were read
    word: u32,
    digits: usize,
}

// Whether an operation may have this byte.
fn is_letter(byte: u8) -> bool {
    matches!(byte, b'a'..=b'z' | b'0'..=b'9')
}

// What a lowercase hexadecimal digit stands for.
fn hex_digit(byte: u8) -> Option<u8> {
    match byte {
        b'0'..=b'9' => Some(byte - b'0'),
        b'a'..=b'f' => Some(byte - b'a' + 10),
        _ => None,
    }
}

impl Line {
    // The first line of a list, of which nothing was read.
    pub fn new() -> Line {
        Line {
            number: 1,
            stage: Stage::Start,
            ended: false,
            operation: [0; LETTERS],
            letters: 0,
            words: [0; MOST],
            count: 0,
            word: 0,
            digits: 0,
        }
    }

    // The bytes of the operation.
    pub fn operation(&self) -> &[u8] {
        &self.operation[..self.letters.min(LETTERS)]
    }

    // The words that are complete.
    pub fn words(&self) -> &[u32] {
        &self.words[..self.count.min(MOST)]
    }

    // Takes one more byte of the operation.
    fn take_letter(&mut self, byte: u8) {
        if self.letters < LETTERS && is_letter(byte) {
            self.operation[self.letters] = byte;
            self.letters += 1;
            self.stage = Stage::Operation;
        } else {
            self.stage = Stage::Unreadable;
        }
    }

    // Takes one more digit of the word being read.
    fn take_digit(&mut self, byte: u8) {
        match hex_digit(byte) {
            Some(digit) if self.digits < DIGITS => {
                self.word = self.word << 4 | u32::from(digit);
                self.digits += 1;
            }
            _ => self.stage = Stage::Unreadable,
        }
    }

    // Takes the word being read as complete.
    fn end_word(&mut self) {
        if 0 < self.digits && self.count < MOST {
            self.words[self.count] = self.word;
            self.count += 1;
            self.word = 0;
            self.digits = 0;
        } else {
            self.stage = Stage::Unreadable;
        }
    }

    // Takes one more byte, which is no newline.
    fn take_byte(&mut self, byte: u8) {
        match (self.stage, byte) {
            (Stage::Start, b'#') => self.stage = Stage::Comment,
            (Stage::Operation, b' ') => self.stage = Stage::Words,
            (Stage::Start | Stage::Operation, _) => self.take_letter(byte),
            (Stage::Words, b' ') => self.end_word(),
            (Stage::Words, _) => self.take_digit(byte),
            (Stage::Comment | Stage::Unreadable, _) => {}
        }
    }

    // Takes its newline.
    fn end(&mut self) {
        if let Stage::Words = self.stage {
            self.end_word();
        }
        self.ended = true;
    }

    // Takes the next byte of the list, as the first of a new line where this one has ended.
    pub fn feed(&mut self, byte: u8) {
        if self.ended {
            *self = Line {
                number: self.number.wrapping_add(1),
                ..Line::new()
            };
        }
        if byte == b'\n' {
            self.end();
        } else {
            self.take_byte(byte);
        }
    }

    // What the line is.
    pub fn found(&self) -> Found
        ensures { result ≡ found_of self.now.ended self.now.stage }
    {
        if !self.ended {
            return Found::Open;
        }
        match self.stage {
            Stage::Start | Stage::Comment => Found::Nothing,
            Stage::Operation | Stage::Words => Found::Case,
            Stage::Unreadable => Found::Malformed,
        }
    }

    // What the list's end leaves: a line that was cut is malformed.
    pub fn left(&self) -> Found
        ensures { result ≡ left_of self.now.ended self.now.stage }
    {
        if self.ended {
            return Found::Nothing;
        }
        match self.stage {
            Stage::Start | Stage::Comment => Found::Nothing,
            Stage::Operation | Stage::Words | Stage::Unreadable => Found::Malformed,
        }
    }
}
