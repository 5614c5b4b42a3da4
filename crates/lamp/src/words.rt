// What has a number, as words.
use limits::Refusal;
use palette::Finding;
use std::fmt;

// Why a call was refused, by its number and in words.
#[derive(Clone, Copy)]
pub struct Refused(pub Refusal);

impl fmt::Display for Refused {
    fn fmt<W: fmt::Write>(&self, f: &mut fmt::Formatter<W>) -> fmt::Result {
        let number = self.0.number();
        let reason = reason(self.0);
        write!(f, "refused,{number}: {reason}")
    }
}

// Why a call was refused.
fn reason(why: Refusal) -> &'static str {
    match why {
        Refusal::HueCount => "the hue count is not from 1 to 16",
        Refusal::Gap => "the gap is not from 40 to 84",
        Refusal::Chroma => "the chroma is not from 0 to 200",
        Refusal::RingLength => "the ring's length is not from 1 to 720",
        Refusal::Spacing => "the spacing is 0 or above the ring's length",
        Refusal::TableLength => "the table is not 720 entries for each of 1 to 169 levels",
        Refusal::Entry => "an entry of the table is not from 0 to 200",
        Refusal::WorkBuffer => "the work buffer is shorter than the ring",
        Refusal::Directions => "the directions are not 720 with components from -1 to 1",
        Refusal::RowLength => "the row to fill is not 720 long",
        Refusal::LevelIndex => "a level index is above 168",
        Refusal::HueIndex => "a hue index is above 719",
        Refusal::ColorCount => "the colour count is not twice the hue count",
        Refusal::Finished => "the job is finished",
        Refusal::Broken => "the job record is broken",
        Refusal::Operand => "the operand is not in its range",
        Refusal::Line => "the line is malformed",
        Refusal::LevelList => "the list of levels is empty or has more than 8",
        Refusal::TextBuffer => "the buffer is shorter than the text to write",
    }
}

// A finding, by its number and in words.
#[derive(Clone, Copy)]
pub struct Found(pub Finding);

impl fmt::Display for Found {
    fn fmt<W: fmt::Write>(&self, f: &mut fmt::Formatter<W>) -> fmt::Result {
        let number = self.0.number();
        let finding = match self.0 {
            Finding::Gap => "the levels' gap is below 40",
            Finding::Spread => "the spread is above 12",
            Finding::Separation => "the hue separation is below 300 / k",
            Finding::Chroma => "the chroma is below 35",
        };
        write!(f, "finding {number}: {finding}")
    }
}

// What is wrong with a line of the input.
#[derive(Clone, Copy)]
pub enum Fault {
    Neither,
    NoAsk,
    AskedTwice,
    NoDirection,
    GivenTwice,
}

impl fmt::Display for Fault {
    fn fmt<W: fmt::Write>(&self, f: &mut fmt::Formatter<W>) -> fmt::Result {
        let fault = match self {
            Fault::Neither => "neither ask k gap nor dir j cos sin",
            Fault::NoAsk => "ask takes k and a gap in decimal, such as 2 40.5",
            Fault::AskedTwice => "ask was said before",
            Fault::NoDirection => "dir takes j below 2d0, a cosine and a sine, each in hexadecimal",
            Fault::GivenTwice => "this direction was given before",
        };
        write!(f, "{fault}")
    }
}
