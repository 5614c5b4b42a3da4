// Numbers as text.
use std::fmt;

// What 1 is in a fixed-point number.
const ONE: u64 = 0x100_0000_0000;

// So many halves, with one decimal.
#[derive(Clone, Copy)]
pub struct Halves(pub u64);

impl fmt::Display for Halves {
    fn fmt<W: fmt::Write>(&self, f: &mut fmt::Formatter<W>) -> fmt::Result {
        write!(f, "{}.{}", self.0 / 2, self.0 % 2 * 5)
    }
}

// The float with these bits in units of 2^-40, if it is from plus 0 to below 65536. From 2^-17 on every f32 is a whole number of
// them; what is smaller is rounded down.
fn fixed(bits: u32) -> Option<u64> {
    let fraction = u64::from(0x80_0000 + bits % 0x80_0000);
    match bits / 0x80_0000 {
        0..87 => Some(0),
        exponent @ 87..110 => Some(fraction >> (110 - exponent)),
        exponent @ 110..143 => Some(fraction << (exponent - 110)),
        _ => None,
    }
}

// A float in decimal, rounded down to so many decimals, of which there is one at least, if it is from plus 0 to below 65536, and
// nothing if it is not.
#[derive(Clone, Copy)]
pub struct Decimal {
    pub x: f32,
    pub most: usize,
}

impl fmt::Display for Decimal {
    fn fmt<W: fmt::Write>(&self, f: &mut fmt::Formatter<W>) -> fmt::Result {
        let Some(n) = fixed(patterns::pattern_of(self.x)) else {
            return Ok(());
        };
        write!(f, "{}.", n / ONE)?;
        let mut rest = n;
        for _ in 0..self.most {
            let tenfold = rest % ONE * 10;
            write!(f, "{}", tenfold / ONE)?;
            rest = tenfold % ONE;
            if rest == 0 {
                break;
            }
        }
        Ok(())
    }
}

// A float in decimal, if it is in that range, and by its bits.
#[derive(Clone, Copy)]
pub struct Float {
    pub x: f32,
    pub most: usize,
}

impl fmt::Display for Float {
    fn fmt<W: fmt::Write>(&self, f: &mut fmt::Formatter<W>) -> fmt::Result {
        let bits = patterns::pattern_of(self.x);
        if fixed(bits).is_some() {
            let decimal = Decimal {
                x: self.x,
                most: self.most,
            };
            write!(f, "{decimal}, ")?;
        }
        write!(f, "bits {bits:08x}")
    }
}

// As many decimals as a fixed-point number can have, so that every one is written.
const ALL: usize = 40;

// A float with every decimal.
pub fn exact(x: f32) -> Float {
    Float { x, most: ALL }
}

// A metric: a float with two decimals, or `none` for plus infinity.
#[derive(Clone, Copy)]
pub struct Metric(pub f32);

impl fmt::Display for Metric {
    fn fmt<W: fmt::Write>(&self, f: &mut fmt::Formatter<W>) -> fmt::Result {
        if patterns::pattern_of(self.0) == 0x7f80_0000 {
            return write!(f, "none");
        }
        let float = Float { x: self.0, most: 2 };
        write!(f, "{float}")
    }
}
