// Bytes and decimal numbers put into a text that is lent. A text that is too short takes as many bytes as it has room for.
// Its cases are those of `ring` and `page_cases`.
#![tactic(auto)]

ghost use Rattle.std.specs.Prelude.{◌≡◌, [], ◌∷◌, ◌+◌, ◌≤◌, ◌<◌, drop};
ghost use Rattle.text.specs.Put.{PutIn};
ghost use Rattle.text.specs.Decimal.{decimal};
ghost use Rattle.text.specs.Inner.{three_digits};

// Puts one byte at a place of a text, and gives the next place.
pub fn put_byte(text: &mut [u8], at: usize, byte: u8) -> usize
    ensures { PutIn text.old at (byte ∷ []) text.new result }
{
    if at < text.len() {
        text[at] = byte;
        return at + 1;
    }
    text.len()
}

// Puts bytes at a place of a text, and gives the next place.
#[tactic(auto, using(crate::proofs::Put::puts_copy))]
pub fn put_bytes(text: &mut [u8], at: usize, bytes: &[u8]) -> usize
    ensures { PutIn text.old at bytes.now text.new result }
{
    let from = at.min(text.len());
    let count = bytes.len().min(text.len() - from);
    text[from..from + count].copy_from_slice(&bytes[..count]);
    from + count
}

// The byte of a digit.
fn digit(n: u16) -> u8
    requires { n < 10 }
    ensures { result ≡ 48 + n }
{
    b'0' + n as u8
}

// How many zeros stand before a number in three digits, of which the last counts as none.
#[tactic(auto, unfolding(crate::specs::Decimal::decimal))]
fn zeros(n: u16) -> usize
    ensures { (result ≤ 2) × (drop result (three_digits n) ≡ decimal n) }
{
    match n {
        0..=9 => 2,
        10..=99 => 1,
        _ => 0,
    }
}

// Puts a number in decimal, of which the last three digits count, at a place of a text, and gives the next place.
pub fn put_number(text: &mut [u8], at: usize, n: u16) -> usize
    ensures { PutIn text.old at (decimal n) text.new result }
{
    let digits = [digit(n / 100 % 10), digit(n / 10 % 10), digit(n % 10)];
    put_bytes(text, at, &digits[zeros(n)..])
}
