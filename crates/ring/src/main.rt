// The program `ring`: for each line of standard input, which asks for a placement on a ring, it writes a line with the answer
// to standard output. What is read and what is written of it is the crate `ring_lines`; here bytes are only moved.
#![tactic(auto)]

use std::io;
use std::io::Read;

// Takes a piece of the input and writes the answers to the lines that end in it; `held` counts the bytes of the line that is not at its
// end.
#[tactic(auto, using(text::proofs::Put::laid_within, ring_lines::proofs::Taking::taken_within, ring_lines::proofs::Taking::taken_some))]
fn take_piece(
    rt: &impl Print,
    piece: &[u8],
    buffer: &mut [u8; 4096],
    held: &mut usize,
    out: &mut [u8; 65536],
) -> io::Result<()> {
    let mut rest = piece;
    // A `while`: what is left is cut by what a call took.
    while !rest.is_empty() {
        let progress = ring_lines::answer_piece(rest, buffer, *held, out);
        rt.write_all(&out[..progress.written])?;
        *held = progress.held;
        rest = &rest[progress.taken..];
    }
    Ok(())
}

// Reads once, and takes what came. Says whether anything came.
fn take_some(
    rt: &impl Print,
    reader: &mut impl Read,
    buffer: &mut [u8; 4096],
    held: &mut usize,
    out: &mut [u8; 65536],
) -> io::Result<bool> {
    let mut piece = [0; 65536];
    let n = reader.read(&mut piece)?;
    take_piece(rt, &piece[..n], buffer, held, out)?;
    Ok(n != 0)
}

// Answers the line whose newline is missing, if there is one.
#[tactic(auto, using(text::proofs::Put::laid_within))]
fn finish(rt: &impl Print, buffer: &[u8; 4096], held: usize) -> io::Result<()> {
    let mut text = [0; 64];
    let n = ring_lines::answer_end(buffer, held, &mut text);
    rt.write_all(&text[0..n])
}

// Answers every line of the input, until a read or a write fails. A proved loop ends, so it counts more turns than any input takes.
fn answer_all(rt: &(impl Input + Print)) -> io::Result<()> {
    let mut buffer = [0; 4096];
    let mut held = 0;
    let mut out = [0; 65536];
    let mut reader = rt.reader();
    for _ in 0..u64::MAX {
        if !take_some(rt, &mut reader, &mut buffer, &mut held, &mut out)? {
            return finish(rt, &buffer, held);
        }
    }
    Ok(())
}

// Answers the input. Where a read or a write fails nothing is said.
fn main(rt: HostRuntime) {
    let _ = answer_all(&rt);
}
