// sRGB as IEC 61966-2-1 has it, in the form document 01 gives: 8-bit colours, linear light, and the gamut test. Names, structure and
// order of operations follow crates/lcr-core/src/color.rs.
// Its cases are in `color_cases`.
#![tactic(auto)]

ghost use Rattle.std.specs.Prelude.{◌≡◌};
ghost use Rattle.srgb.specs.Channels.{gamut_channel, clamped_of, in_gamut, srgb8_to_linear, linear_to_srgb8};
ghost use Rattle.srgb.specs.Parts.{from_hex, to_hex};

// Non-linear sRGB, 0 to 255 in each channel.
#[derive(Clone, Copy)]
pub struct Srgb8 {
    pub r: u8,
    pub g: u8,
    pub b: u8,
}

// Linear-light RGB, nominally 0 to 1 but unclamped.
#[derive(Clone, Copy)]
pub struct Linear {
    pub r: f32,
    pub g: f32,
    pub b: f32,
}

impl Srgb8 {
    // From its channels.
    pub fn new(r: u8, g: u8, b: u8) -> Srgb8
        ensures { (result.r ≡ r) × ((result.g ≡ g) × (result.b ≡ b)) }
    {
        Srgb8 { r, g, b }
    }

    // From 0xRRGGBB. What stands above is dropped.
    pub fn from_hex(hex: u32) -> Srgb8
        ensures { result ≡ from_hex hex }
    {
        let [_, r, g, b] = hex.to_be_bytes();
        Srgb8 { r, g, b }
    }

    // As 0xRRGGBB.
    pub fn to_hex(self) -> u32
        ensures { result ≡ to_hex self }
    {
        u32::from_be_bytes([0, self.r, self.g, self.b])
    }
}

// Whether one channel lies from 0 to 1, with 1e-4 to spare.
fn channel_in_gamut(v: f32) -> bool
    ensures { result ≡ gamut_channel v }
{
    -1e-4 <= v && v <= 1.0 + 1e-4
}

impl Linear {
    // From its channels.
    pub fn new(r: f32, g: f32, b: f32) -> Linear
        ensures { (result.r ≡ r) × ((result.g ≡ g) × (result.b ≡ b)) }
    {
        Linear { r, g, b }
    }

    // Each channel brought to 0 to 1. Minus zero and NaN stay.
    pub fn clamped(self) -> Linear
        ensures { result ≡ clamped_of self }
    {
        Linear {
            r: self.r.clamp(0.0, 1.0),
            g: self.g.clamp(0.0, 1.0),
            b: self.b.clamp(0.0, 1.0),
        }
    }

    // Whether every channel lies in 0 to 1, within 1e-4.
    #[tactic(auto, unfolding(crate::specs::Channels::in_gamut))]
    pub fn in_gamut(self) -> bool
        ensures { result ≡ in_gamut self }
    {
        channel_in_gamut(self.r) && channel_in_gamut(self.g) && channel_in_gamut(self.b)
    }
}

// An 8-bit sRGB colour in linear light.
pub fn srgb8_to_linear(c: Srgb8) -> Linear
    ensures { result ≡ srgb8_to_linear c }
{
    Linear {
        r: transfer::decode(c.r),
        g: transfer::decode(c.g),
        b: transfer::decode(c.b),
    }
}

// Linear light as an 8-bit sRGB colour. What is out of range goes to the nearest code, NaN to 0.
// Kept beside `srgb8_to_linear`: the types of both and what is called of each channel differ.
pub fn linear_to_srgb8(c: Linear) -> Srgb8
    ensures { result ≡ linear_to_srgb8 c }
{
    Srgb8 {
        r: transfer::encode(c.r),
        g: transfer::encode(c.g),
        b: transfer::encode(c.b),
    }
}
