// The midpoint that every halving takes.
// Its cases are those of `color_cases` (`clip`), `gamut_cases` and `pair_cases`.
#![tactic(auto)]

ghost use Rattle.std.specs.Prelude.{◌≡◌};
ghost use Rattle.halving.specs.Midpoint.{midpoint};

// 0.5 × (lo + hi), each operation rounded once.
pub fn midpoint(lo: f32, hi: f32) -> f32
    ensures { result ≡ midpoint lo hi }
{
    0.5 * (lo + hi)
}
