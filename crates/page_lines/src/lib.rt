// Lines of a page: 40 bytes, a word and a number, and a newline after them.
// Its cases are in `page_cases`.
#![tactic(auto)]

ghost use Rattle.std.specs.Prelude.{◌≡◌, ◌++◌, ◌-◌, length, take, drop};
ghost use Rattle.text.specs.Decimal.{numeral};
ghost use Rattle.text.specs.Put.{PutIn};
ghost use Rattle.page_lines.specs.Lines.{line_with};

// A line with a number written over its end, the last digit before the newline.
fn numbered(line: [u8; 41], n: usize) -> [u8; 41]
    ensures { result ≡ take (40 - length (numeral n)) line ++ (numeral n ++ drop 40 line) }
{
    let mut to = line;
    let mut rest = n;
    // a number has twenty digits at most; over all places the loop is too long to be unrolled, which was slower
    for at in (0..40).rev() {
        to[at] = b'0' + (rest % 10) as u8;
        rest /= 10;
        if rest == 0 {
            break;
        }
    }
    to
}

// The line of a word, which is padded with spaces, and a number.
fn line_of(word: [u8; 10], n: usize) -> [u8; 41]
    ensures { result ≡ line_with word n }
{
    let mut line = [b' '; 41];
    line[40] = b'\n';
    text::put_bytes(&mut line, 0, &word);
    numbered(line, n)
}

// Puts the line of a word, which is padded with spaces, and a number at a place of a page, and gives the next place. A page that is
// too short takes as many bytes as it has room for.
pub fn put_row(page: &mut [u8], at: usize, word: [u8; 10], n: usize) -> usize
    ensures { PutIn page.old at (line_with word n) page.new result }
{
    text::put_bytes(page, at, &line_of(word, n))
}
