// Colour spaces: sRGB bytes, linear light, CIE XYZ and CIELAB under D65, and the palette of a card. The conversions
// take every float and refuse nothing.
//
// A first use: `linear_to_lab(srgb8_to_linear(Srgb8::from_hex(0x8bd377)))` is the Lab of a light green, and
// `lab_to_linear` takes it back.
#![tactic(auto)]

ghost use Rattle.std.specs.Prelude.{◌≡◌};
ghost use Rattle.color.specs.Color as spec;

pub mod palette;
mod srgb;

pub use srgb::srgb_to_linear;

// Non-linear sRGB, a byte for each channel.
#[repr(C)]
#[derive(Clone, Copy, Debug, PartialEq, Eq, Hash)]
pub struct Srgb8 {
    pub r: u8,
    pub g: u8,
    pub b: u8,
}

// Linear-light RGB, from 0 to 1 within the sRGB gamut, and not held to it.
#[repr(C)]
#[derive(Clone, Copy, Debug, PartialEq)]
pub struct Linear {
    pub r: f32,
    pub g: f32,
    pub b: f32,
}

// CIE XYZ, with Y 1 at white.
#[repr(C)]
#[derive(Clone, Copy, Debug, PartialEq)]
pub struct Xyz {
    pub x: f32,
    pub y: f32,
    pub z: f32,
}

// CIELAB under D65: lightness, the green to red axis, the blue to yellow axis.
#[repr(C)]
#[derive(Clone, Copy, Debug, PartialEq)]
pub struct Lab {
    pub l: f32,
    pub a: f32,
    pub b: f32,
}

impl Srgb8 {
    // The colour 0xRRGGBB; what stands above these 24 bits is left out.
    #[tactic(auto, unfolding(crate::specs::Color::from_hex))]
    pub fn from_hex(hex: u32) -> Srgb8
        ensures { result ≡ spec.from_hex hex }
    {
        let [_, r, g, b] = hex.to_be_bytes();
        Srgb8 { r, g, b }
    }

    // 0xRRGGBB.
    #[tactic(auto, unfolding(crate::specs::Color::to_hex))]
    pub fn to_hex(self) -> u32
        ensures { result ≡ spec.to_hex self }
    {
        u32::from_be_bytes([0, self.r, self.g, self.b])
    }

    // Rec. 709 luma of the encoded values, from 0 to 255.
    #[tactic(auto, unfolding(crate::specs::Color::rec709_luma))]
    pub fn rec709_luma(self) -> f32
        ensures { result ≡ spec.rec709_luma self }
    {
        rec709(f32::from(self.r), f32::from(self.g), f32::from(self.b))
    }
}

impl Linear {
    // Each component held to the range from 0 to 1; a NaN is left.
    #[tactic(auto, using(crate::proofs::Literals::literals), unfolding(crate::specs::Color::clamped))]
    pub fn clamped(self) -> Linear
        ensures { result ≡ spec.clamped self }
    {
        Linear {
            r: float::clamp(self.r, 0.0, 1.0),
            g: float::clamp(self.g, 0.0, 1.0),
            b: float::clamp(self.b, 0.0, 1.0),
        }
    }

    // Whether each component is from 0 to 1, give or take 1e-4.
    #[tactic(auto, unfolding(crate::specs::Color::in_gamut))]
    pub fn in_gamut(self) -> bool
        ensures { result ≡ spec.in_gamut self }
    {
        in_range(self.r) && in_range(self.g) && in_range(self.b)
    }

    // Relative luminance, Y.
    #[tactic(auto, unfolding(crate::specs::Color::luminance))]
    pub fn luminance(self) -> f32
        ensures { result ≡ spec.luminance self }
    {
        rec709(self.r, self.g, self.b)
    }
}

impl Lab {
    // Chroma, √(a² + b²).
    #[tactic(auto, unfolding(crate::specs::Color::chroma))]
    pub fn chroma(self) -> f32
        ensures { result ≡ spec.chroma self }
    {
        length2(self.a, self.b)
    }

    // The distance in the plane of a and b.
    #[tactic(auto, unfolding(crate::specs::Color::ab_distance))]
    pub fn ab_distance(self, other: Lab) -> f32
        ensures { result ≡ spec.ab_distance self other }
    {
        length2(self.a - other.a, self.b - other.b)
    }
}

// The luma of three components, by the weights of Rec. 709.
#[tactic(auto, using(crate::proofs::Literals::literals), unfolding(crate::specs::Color::fraction))]
fn rec709(r: f32, g: f32, b: f32) -> f32
    ensures { result ≡ spec.rec709 r g b }
{
    0.2126 * r + 0.7152 * g + 0.0722 * b
}

// √(a² + b²).
#[tactic(auto, unfolding(crate::specs::Color::length2))]
fn length2(a: f32, b: f32) -> f32
    ensures { result ≡ spec.length2 a b }
{
    float::sqrt(a * a + b * b)
}

// Whether v is from 0 to 1, give or take 1e-4.
#[tactic(auto, using(crate::proofs::Literals::literals), unfolding(crate::specs::Color::in_range))]
fn in_range(v: f32) -> bool
    ensures { result ≡ spec.in_range v }
{
    -1e-4 <= v && v <= 1.0 + 1e-4
}

// Conversions are functions, not `From`: a name such as `linear_to_lab` says both spaces, and none is exact.

// The linear light of an sRGB colour, from the table of the 256 bytes.
#[tactic(auto, unfolding(crate::specs::Color::srgb8_to_linear))]
pub fn srgb8_to_linear(c: Srgb8) -> Linear
    ensures { result ≡ spec.srgb8_to_linear c }
{
    Linear {
        r: srgb_to_linear(c.r),
        g: srgb_to_linear(c.g),
        b: srgb_to_linear(c.b),
    }
}

// Linear sRGB to XYZ, by the sRGB primaries.
#[tactic(auto, using(crate::proofs::Literals::literals), unfolding(crate::specs::Color::linear_to_xyz))]
pub fn linear_to_xyz(c: Linear) -> Xyz
    ensures { result ≡ spec.linear_to_xyz c }
{
    Xyz {
        x: 0.4124564 * c.r + 0.3575761 * c.g + 0.1804375 * c.b,
        y: 0.2126729 * c.r + 0.7151522 * c.g + 0.0721750 * c.b,
        z: 0.0193339 * c.r + 0.1191920 * c.g + 0.9503041 * c.b,
    }
}

// XYZ to linear sRGB, which may lie outside the gamut.
#[tactic(auto, using(crate::proofs::Literals::literals), unfolding(crate::specs::Color::xyz_to_linear))]
pub fn xyz_to_linear(c: Xyz) -> Linear
    ensures { result ≡ spec.xyz_to_linear c }
{
    Linear {
        r: 3.2404542 * c.x - 1.5371385 * c.y - 0.4985314 * c.z,
        g: -0.9692660 * c.x + 1.8760108 * c.y + 0.0415560 * c.z,
        b: 0.0556434 * c.x - 0.2040259 * c.y + 1.0572252 * c.z,
    }
}

// CIE's f: the cube root above 216/24389, a straight line up to it.
#[tactic(auto, using(crate::proofs::Literals::literals), unfolding(crate::specs::Color::lab_f, crate::specs::Color::line))]
fn lab_f(t: f32) -> f32
    ensures { result ≡ spec.lab_f t }
{
    if t > 216.0 / 24389.0 {
        float::cbrt(t)
    } else {
        t * (841.0 / 108.0) + 4.0 / 29.0
    }
}

// Its inverse: the cube above 6/29, a straight line up to it.
#[tactic(auto, using(crate::proofs::Literals::literals), unfolding(crate::specs::Color::lab_finv, crate::specs::Color::line_inv, crate::specs::Color::cube))]
fn lab_f_inv(t: f32) -> f32
    ensures { result ≡ spec.lab_finv t }
{
    let delta: f32 = 6.0 / 29.0;
    if t > delta {
        t * t * t
    } else {
        3.0 * delta * delta * (t - 4.0 / 29.0)
    }
}

// XYZ to CIELAB.
#[tactic(auto, using(crate::proofs::Literals::literals), unfolding(crate::specs::Color::xyz_to_lab, crate::specs::Color::lightness))]
pub fn xyz_to_lab(c: Xyz) -> Lab
    ensures { result ≡ spec.xyz_to_lab c }
{
    let fx = lab_f(c.x / 0.95047);
    let fy = lab_f(c.y / 1.0);
    let fz = lab_f(c.z / 1.08883);
    Lab {
        l: 116.0 * fy - 16.0,
        a: 500.0 * (fx - fy),
        b: 200.0 * (fy - fz),
    }
}

// CIELAB to XYZ.
#[tactic(auto, using(crate::proofs::Literals::literals), unfolding(crate::specs::Color::lab_to_xyz))]
pub fn lab_to_xyz(c: Lab) -> Xyz
    ensures { result ≡ spec.lab_to_xyz c }
{
    let fy = (c.l + 16.0) / 116.0;
    let fx = fy + c.a / 500.0;
    let fz = fy - c.b / 200.0;
    Xyz {
        x: lab_f_inv(fx) * 0.95047,
        y: lab_f_inv(fy) * 1.0,
        z: lab_f_inv(fz) * 1.08883,
    }
}

// Linear sRGB to CIELAB.
pub fn linear_to_lab(c: Linear) -> Lab
    ensures { result ≡ spec.linear_to_lab c }
{
    xyz_to_lab(linear_to_xyz(c))
}

// CIELAB to linear sRGB, which may lie outside the gamut.
pub fn lab_to_linear(c: Lab) -> Linear
    ensures { result ≡ spec.lab_to_linear c }
{
    xyz_to_linear(lab_to_xyz(c))
}

// An sRGB colour's CIELAB.
pub fn srgb8_to_lab(c: Srgb8) -> Lab
    ensures { result ≡ spec.srgb8_to_lab c }
{
    linear_to_lab(srgb8_to_linear(c))
}
