// Answers a list of cases for the crate `page`: the page of a job as it is, after the number of a refusal, the count of its bytes, and
// the digest of the whole buffer. `compare/driver/lists/page.rs` says what the list holds.
#![tactic(auto)]

mod pages;

use cases::Line;
use search_rules::Job;

// Takes a line, which is answered if it is a case.
fn take_line(rt: &impl Print, line: &Line, job: &mut Job) -> Option<()> {
    match (line.operation(), line.words()) {
        // page size fill = number count hi lo: the page of the job in a buffer of this length, filled by this word: the number of its
        // refusal and 0, or 0 and the count of its bytes, and the digest of the whole buffer after it; then the page itself
        (b"page", [size, fill]) => pages::answer(rt, line, *size as usize, *fill, *job),
        _ => case_jobs::take_line(line, job),
    }
}

// Answers the list.
fn main(rt: HostRuntime) {
    let mut job = case_jobs::blank();
    case_lines::each_case(&rt, |line| take_line(&rt, line, &mut job));
}
