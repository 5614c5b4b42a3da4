// Digests: FNV-1a with 64 bits.

// The digest of no bytes.
pub const START: u64 = 0xcbf2_9ce4_8422_2325;

// What each step multiplies by.
const PRIME: u64 = 0x100_0000_01b3;

// With one more byte.
pub fn with_byte(digest: u64, byte: u32) -> u64 {
    (digest ^ u64::from(byte)).wrapping_mul(PRIME)
}

// With more bytes.
pub fn with_bytes(digest: u64, bytes: &[u8]) -> u64 {
    bytes
        .iter()
        .fold(digest, |sum, byte| with_byte(sum, u32::from(*byte)))
}

// With two more bytes, the low one of the number first.
pub fn with_pair(digest: u64, pair: u16) -> u64 {
    with_bytes(digest, &pair.to_le_bytes())
}

// With numbers, two bytes each.
pub fn with_pairs(digest: u64, pairs: &[u16]) -> u64 {
    pairs.iter().fold(digest, |sum, pair| with_pair(sum, *pair))
}

// With the four bytes of a pattern, the lowest first.
pub fn with_pattern(digest: u64, bits: u32) -> u64 {
    with_bytes(digest, &bits.to_le_bytes())
}
