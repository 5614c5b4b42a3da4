// The digest of a row: FNV-1a with 64 bits over the bytes of its patterns, the lowest byte of each first.
use case_lines::digest;

// The digest of a row.
pub fn of(row: &[f32]) -> u64 {
    row.iter().fold(digest::START, |sum, entry| {
        digest::with_pattern(sum, patterns::pattern_of(*entry))
    })
}
