// The hues found among the directions.
use crate::conversions::float_or_refusal;
use case_lines::answers::Answer;
use case_tables::directions::Lent;
use color::Lab;

// The hue of a colour among the directions that are lent, or the number of its refusal and 0.
pub fn hue(lent: Lent, lab: Lab) -> Answer {
    float_or_refusal(hue::hue_deg(lab, lent.cos(), lent.sin()))
}
