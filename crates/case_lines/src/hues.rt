// Sixteen hues by the words of a line.

// Sixteen hues by words, 0 after the last.
pub fn sixteen(words: &[u32]) -> [u16; 16] {
    let mut hues = [0; 16];
    for (hue, word) in hues.iter_mut().zip(words) {
        *hue = (word % 0x1_0000) as u16;
    }
    hues
}
