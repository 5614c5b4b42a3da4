// The answer to a line: what is said to it, and the bytes of that.
// Its cases are the lines of `ring`.
#![tactic(auto)]

ghost use Rattle.std.specs.Prelude.{◌≡◌, ◌≤◌, take};
ghost use Rattle.limits.specs.Answers.{refused};
ghost use Rattle.limits.specs.Refusals.{number};
ghost use Rattle.placement_rules.specs.Placing.{placement_says, placement_said};
ghost use Rattle.text.specs.Put.{PutIn, Laid};
ghost use Rattle.ring_answers.specs.Answers.{room, parted, answer_text, answer_bytes, answer_of};
ghost use Rattle.ring_answers.specs.Inner.{index_at, Says};

use limits::Refusal;
use placement::Placement;
use ring_reading::Asked;

// What is said to a line: a placement of k hues, none, or a refusal.
#[derive(Clone, Copy)]
struct Saying {
    k: usize,
    found: Result<Option<Placement>, Refusal>,
}

// Puts the i-th index of an answer, with a comma before each but the first.
fn put_index(text: &mut [u8], at: usize, i: usize, hue: u16) -> usize
    ensures { PutIn text.old at (index_at i hue) text.new result }
{
    if i == 0 {
        return text::put_number(text, at, hue);
    }
    let next = text::put_byte(text, at, b',');
    text::put_number(text, next, hue)
}

// Puts the first k of sixteen indices, parted by commas, at the start of a text, and gives the next place.
fn put_indices(text: &mut [u8], hues: [u16; 16], k: usize) -> usize
    ensures { PutIn text.old 0 (parted (take k hues)) text.new result }
{
    let mut to = 0;
    for (i, &hue) in hues[..k.min(16)].iter().enumerate() {
        to = put_index(text, to, i, hue);
    }
    to
}

// Puts `refused,` and the number of a refusal at the start of a text, and gives the next place.
fn put_refused(text: &mut [u8], why: Refusal) -> usize
    ensures { PutIn text.old 0 (answer_text 0 (refused (number why))) text.new result }
{
    let at = text::put_bytes(text, 0, b"refused,");
    text::put_number(text, at, u16::from(why.number()))
}

// Puts an answer, with no newline, at the start of a text, and gives the next place.
#[tactic(auto, unfolding(crate::specs::Answers::answer_text))]
fn put_text(text: &mut [u8], k: usize, found: Result<Option<Placement>, Refusal>) -> usize
    ensures { PutIn text.old 0 (answer_text k (placement_said found)) text.new result }
{
    match found {
        Ok(Some(placement)) => put_indices(text, placement.hues, k),
        Ok(None) => text::put_bytes(text, 0, b"none"),
        Err(why) => put_refused(text, why),
    }
}

// Puts an answer, with its newline, at the start of a text, and gives the next place.
fn put_answer(text: &mut [u8], k: usize, found: Result<Option<Placement>, Refusal>) -> usize
    ensures { PutIn text.old 0 (answer_bytes k (placement_said found)) text.new result }
{
    let end = put_text(text, k, found);
    text::put_byte(text, end, b'\n')
}

// What is placed on the ring that a line asks about.
fn place(asked: &Asked) -> Result<Option<Placement>, Refusal>
    requires { asked.now.length ≤ 999 }
    ensures { placement_said result ≡ placement_says asked.now.k asked.now.step asked.now.c (take asked.now.length asked.now.row) room }
{
    let mut work = [0; 720];
    placement::feasible(
        &asked.row[..asked.length],
        asked.c,
        asked.k,
        asked.step,
        &mut work,
    )
}

// What is said to a line.
fn said_to(line: &[u8]) -> Saying
    ensures { Says line.now result }
{
    match ring_reading::read_line(line) {
        Some(asked) => Saying {
            k: asked.k,
            found: place(&asked),
        },
        None => Saying {
            k: 0,
            found: Err(Refusal::Line),
        },
    }
}

// Writes the answer to a line, with its newline, over the front of a text, and gives its length.
pub fn answer_line(line: &[u8], text: &mut [u8; 64]) -> usize
    ensures { Laid text.old (answer_of line.now) text.new result }
{
    let Saying { k, found } = said_to(line);
    put_answer(text, k, found)
}

// Writes the answer to a line of more than 4,096 bytes, which is malformed.
pub fn answer_longer(text: &mut [u8; 64]) -> usize
    ensures { Laid text.old (answer_bytes 0 (refused 17)) text.new result }
{
    put_answer(text, 0, Err(Refusal::Line))
}
