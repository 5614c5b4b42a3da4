// The reading of a line: what it asks, or that it is malformed.
// Its cases are the lines of `ring`.
#![tactic(auto)]

ghost use Rattle.std.specs.Prelude.{◌≡◌, true, List, ℕ, ◌+◌, ◌-◌, ◌≤◌, get_or};
ghost use Rattle.ring_reading.specs.Numbers.{is_digit};
ghost use Rattle.ring_reading.specs.Fields.{line_of};
ghost use Rattle.ring_reading.specs.Reads.{no_row, LineRead};
ghost use Rattle.ring_reading.specs.Inner.{fields_from, Bytes, Finds, Heads, entries_of, with_entries};

// What a line asks: a placement on the ring of the row's first `length` entries.
// An array and a count, as there is no heap here.
#[derive(Clone, Copy)]
pub struct Asked {
    pub length: usize,
    pub k: usize,
    pub step: usize,
    pub c: f32,
    // the entries, and zeros after them
    pub row: [f32; 999],
}

// A number of a line, and the place where the next field starts, past the line's end where there is none.
#[derive(Clone, Copy)]
struct Field {
    number: u16,
    next: usize,
}

// The four numbers before the entries, and the place where the entries start, past the line's end where there is none.
#[derive(Clone, Copy)]
struct Head {
    length: u16,
    k: u16,
    step: u16,
    c: u16,
    entries: usize,
}

// The byte at a place of a line, which ends as if a comma followed.
fn byte_at(line: &[u8], at: usize) -> u8
    ensures { result ≡ get_or line.now at 44 }
{
    line.get(at).copied().unwrap_or(b',')
}

// Whether a byte is a digit.
#[tactic(auto, unfolding(crate::specs::Numbers::is_digit))]
pub fn is_digit(byte: u8) -> bool
    ensures { result ≡ is_digit byte }
{
    byte.is_ascii_digit()
}

// What a digit stands for.
#[tactic(auto, using(crate::proofs::Numbers::digit_range))]
fn value(byte: u8) -> u16
    requires { is_digit byte ≡ true }
    ensures { result ≡ byte - 48 }
{
    (byte - b'0') as u16
}

// The number that starts at a place of any line that has these four bytes there, of which the first is a digit.
#[tactic(auto, using(crate::proofs::Places::found_zero, crate::proofs::Places::found_second, crate::proofs::Places::found_third, crate::proofs::Places::found_four))]
fn number_of(a: u8, b: u8, c: u8, d: u8, at: usize) -> Option<Field>
    requires { (is_digit a ≡ true) × (at + 4 ≤ 18446744073709551615) }
    ensures { (line : List ℕ) → Bytes line at a b c d → Finds line at result }
{
    if b == b',' {
        let number = value(a);
        return Some(Field {
            number,
            next: at + 2,
        });
    }
    if a == b'0' || !is_digit(b) {
        return None;
    }
    if c == b',' {
        let number = value(a) * 10 + value(b);
        return Some(Field {
            number,
            next: at + 3,
        });
    }
    if !is_digit(c) || d != b',' {
        return None;
    }
    let number = value(a) * 100 + value(b) * 10 + value(c);
    Some(Field {
        number,
        next: at + 4,
    })
}

// The number that starts at a place of a line, if one does.
#[tactic(auto, using(crate::proofs::Places::found_none, crate::proofs::Places::starts))]
fn number_at(line: &[u8], at: usize) -> Option<Field>
    ensures { Finds line.now at result }
{
    let a = byte_at(line, at);
    if !is_digit(a) {
        return None;
    }
    let b = byte_at(line, at + 1);
    let c = byte_at(line, at + 2);
    let d = byte_at(line, at + 3);
    number_of(a, b, c, d, at)
}

// The four numbers that a line starts with.
fn head_of(line: &[u8]) -> Option<Head>
    ensures { Heads line.now result }
{
    let length = number_at(line, 0)?;
    let k = number_at(line, length.next)?;
    let step = number_at(line, k.next)?;
    let c = number_at(line, step.next)?;
    Some(Head {
        length: length.number,
        k: k.number,
        step: step.number,
        c: c.number,
        entries: c.next,
    })
}

// A row of zeros.
fn no_row() -> [f32; 999]
    ensures { result ≡ no_row }
{
    [0.0; 999]
}

// What a line asks that starts with these four numbers, if just as many entries follow as there must be.
fn read_entries(line: &[u8], head: Head) -> Option<Asked>
    requires { head.length ≤ 999 }
    ensures { LineRead (with_entries head.k head.step head.c (entries_of head.length (fields_from line.now head.entries))) result }
{
    let length = head.length as usize;
    let mut row = no_row();
    let mut at = head.entries;
    for entry in &mut row[..length] {
        let field = number_at(line, at)?;
        *entry = field.number as f32;
        at = field.next;
    }
    if at <= line.len() {
        return None;
    }
    Some(Asked {
        length,
        k: head.k as usize,
        step: head.step as usize,
        c: head.c as f32,
        row,
    })
}

// What a line asks, if it is not malformed.
pub fn read_line(line: &[u8]) -> Option<Asked>
    ensures { LineRead (line_of line.now) result }
{
    if line.len() > 4096 {
        return None;
    }
    read_entries(line, head_of(line)?)
}
