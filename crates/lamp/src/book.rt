// The page of a job for the service book.
use crate::words::Refused;
use search::Job;

// How many bytes the longest page has, that of sixteen hues.
const LONGEST: usize = 861;

// Writes the page of a job.
pub fn write(rt: &impl Print, job: Job) {
    let mut bytes = [0; LONGEST];
    match page::lay_out(job, &mut bytes) {
        Err(why) => {
            let _ = println!(rt; "{}", Refused(why));
        }
        Ok(count) => {
            if let Some(page) = bytes.get(..count) {
                let _ = println!(rt; "for the service book");
                let _ = rt.write_all(page);
            }
        }
    }
}
