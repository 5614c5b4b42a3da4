// A page for the service book: a job laid out in lines of 40 bytes, each followed by a newline.
// Its cases are in `page_cases`.
#![tactic(auto)]

ghost use Rattle.std.specs.Prelude.{◌≡◌, [], ◌∷◌, ◌*◌, ◌≤◌, length, take};
ghost use Rattle.limits.specs.Refusals.{said};
ghost use Rattle.search_rules.specs.declared.Best.TheVariants.{Found};
ghost use Rattle.text.specs.Put.{PutIn};
ghost use Rattle.page.specs.Chroma.{units_of, hundredths, remainder};
ghost use Rattle.page_lines.specs.Lines.{row, line_of, lines_of};
ghost use Rattle.page.specs.Page.{hues_word, dark_word, light_word, chroma_word, rest_word, hue_word, none_word, hue_rows, rows_with, bytes_with, page_says, page_after};
ghost use Rattle.page.specs.Inner.{InRange, ChromaWithin};

use limits::Refusal;
use search_rules::{Best, Job};

// How many bytes a line has, its newline among them.
const LINE: usize = 41;

// The words, padded with spaces.
const HUES: [u8; 10] = *b"hues      ";

const DARK: [u8; 10] = *b"dark      ";

const LIGHT: [u8; 10] = *b"light     ";

const CHROMA: [u8; 10] = *b"chroma    ";

const REST: [u8; 10] = *b"rest      ";

const HUE: [u8; 10] = *b"hue       ";

const NONE: [u8; 10] = *b"none      ";

// How many units of 2^-18 there are in 1.
const UNITS: u64 = 262144;

// A hundred times a chroma from 35 to 200, in units of 2^-18, of which each such f32 has a whole number.
fn hundredfold(c: f32) -> u64
    requires { InRange c }
    ensures { result ≡ 100 * units_of c }
{
    let bits = c.to_bits();
    let digits = (bits % 0x80_0000 + 0x80_0000) as u64;
    if bits < 0x4280_0000 {
        return 100 * digits;
    }
    if bits < 0x4300_0000 {
        return 200 * digits;
    }
    400 * digits
}

// Puts a chroma in hundredths, and the remainder, at a place of a page, and gives the next place.
fn put_chroma(page: &mut [u8], at: usize, c: f32) -> usize
    requires { InRange c }
    ensures { PutIn page.old at (lines_of (row chroma_word (hundredths c) ∷ row rest_word (remainder c) ∷ [])) page.new result }
{
    let n = hundredfold(c);
    let next = page_lines::put_row(page, at, CHROMA, (n / UNITS) as usize);
    page_lines::put_row(page, next, REST, (n % UNITS) as usize)
}

// Puts the line of a hue at a place of a page, and gives the next place.
fn put_hue(page: &mut [u8], at: usize, hue: u16) -> usize
    ensures { PutIn page.old at (line_of (row hue_word hue)) page.new result }
{
    page_lines::put_row(page, at, HUE, hue as usize)
}

// Puts the first k of sixteen hues at a place of a page, and gives the next place.
fn put_hues(page: &mut [u8], at: usize, hues: [u16; 16], k: usize) -> usize
    requires { (k ≤ 16) × (at ≤ length page.old) }
    ensures { PutIn page.old at (lines_of (hue_rows (take k hues))) page.new result }
{
    let mut to = at;
    for &hue in &hues[..k] {
        to = put_hue(page, to, hue);
    }
    to
}

// Puts the page of a job with none so far, and gives its length where there is room for it.
fn put_none(page: &mut [u8], k: usize) -> usize
    ensures { PutIn page.old 0 (lines_of (row hues_word k ∷ row none_word 0 ∷ [])) page.new result }
{
    let next = page_lines::put_row(page, 0, HUES, k);
    page_lines::put_row(page, next, NONE, 0)
}

// Puts the hue count and the two levels at the start of a page, and gives the next place.
// The two indices are kept apart, as document 01 names them in `Best::Found`.
fn put_levels(page: &mut [u8], k: usize, dark: usize, light: usize) -> usize
    ensures { PutIn page.old 0 (lines_of (row hues_word k ∷ row dark_word dark ∷ row light_word light ∷ [])) page.new result }
{
    let first = page_lines::put_row(page, 0, HUES, k);
    let second = page_lines::put_row(page, first, DARK, dark);
    page_lines::put_row(page, second, LIGHT, light)
}

// Puts the page of k hues at a chroma on two levels, and gives its length where there is room for it.
// The two indices are kept apart, as document 01 names them in `Best::Found`.
fn put_found(page: &mut [u8], k: usize, c: f32, dark: usize, light: usize, hues: [u16; 16]) -> usize
    requires { (k ≤ 16) × InRange c }
    ensures { PutIn page.old 0 (lines_of (rows_with k (Found c dark light) hues)) page.new result }
{
    let levels = put_levels(page, k, dark, light);
    let chroma = put_chroma(page, levels, c);
    put_hues(page, chroma, hues, k)
}

// How many bytes the page of k hues has with this best.
fn bytes_with(k: usize, best: Best) -> usize
    requires { k ≤ 16 }
    ensures { result ≡ bytes_with k best }
{
    match best {
        Best::None => LINE * 2,
        Best::Found(..) => LINE * (5 + k),
    }
}

// Puts the page of a job over the front of a buffer with room for it, and gives its length.
fn put_page(page: &mut [u8], k: usize, best: Best, hues: [u16; 16]) -> usize
    requires { (k ≤ 16) × ChromaWithin best }
    ensures { PutIn page.old 0 (lines_of (rows_with k best hues)) page.new result }
{
    match best {
        Best::None => put_none(page, k),
        Best::Found(c, dark, light) => put_found(page, k, c, dark, light, hues),
    }
}

// Lays a job out over the front of a buffer, finished or not: its hue count, its two level indices, its chroma in hundredths with
// what is left of it, and its hues; or its hue count and that there is none so far. It gives the number of bytes written, or
// refuses a broken record and a buffer that is too short, which is then as it was.
#[tactic(auto, using(crate::proofs::Laying::within, crate::proofs::Rows::few))]
pub fn lay_out(job: Job, page: &mut [u8]) -> Result<usize, Refusal>
    ensures { (said result ≡ page_says job (length page.old)) × (page.new ≡ page_after job page.old) }
{
    if !search_checks::is_unbroken(job) {
        return Err(Refusal::Broken);
    }
    let k = job.settings.k;
    if page.len() < bytes_with(k, job.best) {
        return Err(Refusal::TextBuffer);
    }
    Ok(put_page(page, k, job.best, job.hues))
}
