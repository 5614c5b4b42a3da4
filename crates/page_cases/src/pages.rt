// Pages, each in a buffer that holds other bytes before.
use case_lines::answers::Answer;
use case_lines::{answers, digest};
use cases::Line;
use search_rules::Job;

// How long a buffer can be.
const ROOM: usize = 1024;

// Fills a buffer with bytes that change along it and from case to case.
fn fill(page: &mut [u8], seed: u32) {
    let mut next = seed;
    for byte in page {
        *byte = (next % 0x100) as u8;
        next = next.wrapping_add(0x3d);
    }
}

// Answers with the page of a job in a buffer of a length, if it can have this length.
pub fn answer(rt: &impl Print, line: &Line, size: usize, seed: u32, job: Job) -> Option<()> {
    let mut buffer = [0; ROOM];
    let page = buffer.get_mut(..size)?;
    fill(page, seed);
    let laid = page::lay_out(job, page);
    let count = laid.unwrap_or(0);
    Answer::after(&laid)
        .with_size(count)
        .with_digest(digest::with_bytes(digest::START, page))
        .write(rt, line);
    if let Some(written) = page.get(..count) {
        answers::say(rt, written);
    }
    Some(())
}
