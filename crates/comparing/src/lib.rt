// The lesser and the greater of two numbers, which several crates need.
// Its cases are those of the crates that call it.
#![tactic(auto)]

ghost use Rattle.std.specs.Prelude.{◌≡◌};
ghost use Rattle.pair_rules.specs.Rows.{lesser, greater};

// The lesser of two numbers, by one comparison: `f32::min` leaves open which of two zeros it gives.
#[tactic(auto, unfolding(pair_rules::specs::Rows::lesser))]
pub fn lesser(a: f32, b: f32) -> f32
    ensures { result ≡ lesser a b }
{
    if b < a { b } else { a }
}

// The greater of two numbers, by one comparison.
#[tactic(auto, unfolding(pair_rules::specs::Rows::greater))]
pub fn greater(a: f32, b: f32) -> f32
    ensures { result ≡ greater a b }
{
    if a < b { b } else { a }
}
