// The 32 colours that a validation is lent and that the other cases hand out, each by one word: the red channel highest.
use case_lines::answers::Answer;
use srgb::Srgb8;

// Whether every word is below a limit.
pub fn are_below(words: &[u32], limit: u32) -> bool {
    words.iter().all(|word| *word < limit)
}

// The colours that words say, and black after the last.
pub fn of(words: &[u32]) -> [Srgb8; 32] {
    let mut colors = [Srgb8::from_hex(0); 32];
    for (color, word) in colors.iter_mut().zip(words) {
        *color = Srgb8::from_hex(*word);
    }
    colors
}

// An answer with 32 colours.
pub fn shown(to: Answer, colors: [Srgb8; 32]) -> Answer {
    colors
        .iter()
        .fold(to, |answer, color| answer.with(color.to_hex()))
}
