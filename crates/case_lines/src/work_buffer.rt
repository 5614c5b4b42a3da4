// What a work buffer holds before a call, numbers that no call wrote, others before each; and after it.
ghost use Rattle.std.specs.Prelude.{◌≤◌, length};

use crate::digest;

// How long a work buffer can be.
const LONGEST: usize = 2400;

// The seed after this one (xorshift with 32 bits).
pub fn next_seed(seed: u32) -> u32 {
    let first = seed ^ seed << 13;
    let second = first ^ first >> 17;
    second ^ second << 5
}

// The seed for the line with this number, which is another for each line.
pub fn seed_of(number: u64) -> u32 {
    next_seed((number % 0x1_0000_0000) as u32)
}

// The number that a seed gives: half of them could be indices of a ring of 720, and half are any.
fn number_of(seed: u32) -> u16 {
    if seed < 0x8000_0000 {
        (seed % 1440) as u16
    } else {
        (seed % 0x1_0000) as u16
    }
}

// Fills a work buffer.
pub fn fill(work: &mut [u16], seed: u32) {
    let mut next = seed;
    for number in work {
        *number = number_of(next);
        next = next_seed(next);
    }
}

// What comes out of a call that is lent a work buffer of this length, filled by a seed, if it can have this length.
pub fn lend<T, F: FnOnce(&mut [u16]) -> T>(room: usize, seed: u32, call: F) -> Option<T>
    requires { F.IsAlwaysCallable call }
{
    let mut work = [0; LONGEST];
    let work = work.get_mut(..room)?;
    fill(work, seed);
    Some(call(work))
}

// The digest of a work buffer.
pub fn digest_of(work: &[u16]) -> u64 {
    digest::with_pairs(digest::START, work)
}
