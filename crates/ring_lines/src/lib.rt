// An input that arrives in pieces, cut into lines, and the answers to them.
// Its cases are the lines of `ring`.
#![tactic(auto)]

ghost use Rattle.std.specs.Prelude.{◌≡◌, cond, [], length};
ghost use Rattle.text.specs.Put.{PutIn, Laid};
ghost use Rattle.ring_lines.specs.Pieces.{kept_in, answer_kept, written_at_end};
ghost use Rattle.ring_lines.specs.Promised.{Held, Answered};

// How far a piece was taken.
#[derive(Clone, Copy)]
pub struct Progress {
    // how many of its bytes were taken
    pub taken: usize,
    // how many bytes of the line that is not at its end are held, 4,097 where it has more than 4,096
    pub held: usize,
    // how many bytes of answers were written
    pub written: usize,
}

// Holds one more byte of a line, and gives how many are held.
pub fn keep(buffer: &mut [u8; 4096], held: usize, byte: u8) -> usize
    ensures { Held buffer.old held byte buffer.new result }
{
    // 4,097 stands for every longer line: that is what the promise `kept_in` says of it
    let next = text::put_byte(buffer, held, byte);
    if held < 4096 { next } else { 4097 }
}

// Writes the answer to the line that is held over the front of a text, and gives its length.
#[tactic(auto, unfolding(crate::specs::Pieces::kept_in), using(crate::proofs::Keeping::answer_short, crate::proofs::Keeping::answer_long))]
pub fn answer_kept(buffer: &[u8; 4096], held: usize, text: &mut [u8; 64]) -> usize
    ensures { Laid text.old (answer_kept (kept_in buffer.now held)) text.new result }
{
    if held <= 4096 {
        return ring_answers::answer_line(&buffer[..held], text);
    }
    ring_answers::answer_longer(text)
}

// Puts the answer to the line that is held at a place of the answers, and gives the next place.
fn put_answer(buffer: &[u8; 4096], held: usize, out: &mut [u8], at: usize) -> usize
    ensures { PutIn out.old at (answer_kept (kept_in buffer.now held)) out.new result }
{
    let mut text = [0u8; 64];
    let n = answer_kept(buffer, held, &mut text);
    text::put_bytes(out, at, &text[..n])
}

// Takes the next bytes of the input, and writes the answers to the lines that end among them, until all bytes are taken or
// another answer might not fit. Of the line that is not at its end at most 4,096 bytes are held in the buffer.
pub fn answer_piece(
    piece: &[u8],
    buffer: &mut [u8; 4096],
    held: usize,
    out: &mut [u8; 65536],
) -> Progress
    ensures { Answered buffer.old held piece.now out.old buffer.new out.new result }
{
    let mut count = held;
    let mut written = 0;
    for (taken, &byte) in piece.iter().enumerate() {
        if written > 65472 {
            return Progress {
                taken,
                held: count,
                written,
            };
        }
        if byte == b'\n' {
            written = put_answer(buffer, count, out, written);
            count = 0;
        } else {
            count = keep(buffer, count, byte);
        }
    }
    Progress {
        taken: piece.len(),
        held: count,
        written,
    }
}

// Whether nothing is written for what is held in a buffer where the input ends.
fn ends_empty(buffer: &[u8; 4096], held: usize) -> bool
    ensures { written_at_end (kept_in buffer.now held) ≡ cond result [] (answer_kept (kept_in buffer.now held)) }
{
    held == 0
}

// Writes the answer to the line that is held where the input ends, if there is one, over the front of a text, and gives its length.
pub fn answer_end(buffer: &[u8; 4096], held: usize, text: &mut [u8; 64]) -> usize
    ensures { Laid text.old (written_at_end (kept_in buffer.now held)) text.new result }
{
    if ends_empty(buffer, held) {
        return 0;
    }
    answer_kept(buffer, held, text)
}
