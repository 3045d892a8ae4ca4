// Colours, their conversions, and the palette.
//
// Twin: the C interface has a function for each call, and a call that hands on as many arguments has the same shape.
ghost use Rattle.std.specs.Prelude.{◌≡◌};
ghost use Rattle.color.specs.Color as color_spec;
ghost use Rattle.color.specs.Palette as palette_spec;
ghost use Rattle.color.specs.Srgb as srgb_spec;
ghost use Rattle.exports.specs.Replies as spec;

use super::replies::{FlagAnswer, NumberAnswer};
use color::{Lab, Linear, Srgb8, Xyz};

// The colour 0xRRGGBB; what stands above these 24 bits is left out.
#[unsafe(no_mangle)]
pub extern "C" fn purdolve_from_hex(hex: u32) -> Srgb8
    ensures { result ≡ color_spec.from_hex hex }
{
    Srgb8::from_hex(hex)
}

// 0xRRGGBB.
#[unsafe(no_mangle)]
pub extern "C" fn purdolve_to_hex(c: Srgb8) -> u32
    ensures { result ≡ color_spec.to_hex c }
{
    c.to_hex()
}

// Rec. 709 luma of the encoded values, from 0 to 255.
#[unsafe(no_mangle)]
pub extern "C" fn purdolve_rec709_luma(c: Srgb8) -> f32
    ensures { result ≡ color_spec.rec709_luma c }
{
    c.rec709_luma()
}

// Each component held to the range from 0 to 1; a NaN is left.
#[unsafe(no_mangle)]
pub extern "C" fn purdolve_clamped(c: Linear) -> Linear
    ensures { result ≡ color_spec.clamped c }
{
    c.clamped()
}

// Whether each component is from 0 to 1, give or take 1e-4.
#[unsafe(no_mangle)]
pub extern "C" fn purdolve_in_gamut(c: Linear) -> bool
    ensures { result ≡ color_spec.in_gamut c }
{
    c.in_gamut()
}

// Relative luminance, Y.
#[unsafe(no_mangle)]
pub extern "C" fn purdolve_luminance(c: Linear) -> f32
    ensures { result ≡ color_spec.luminance c }
{
    c.luminance()
}

// Chroma, √(a² + b²).
#[unsafe(no_mangle)]
pub extern "C" fn purdolve_chroma(c: Lab) -> f32
    ensures { result ≡ color_spec.chroma c }
{
    c.chroma()
}

// The distance of two colours in the plane of a and b.
#[unsafe(no_mangle)]
pub extern "C" fn purdolve_ab_distance(c: Lab, other: Lab) -> f32
    ensures { result ≡ color_spec.ab_distance c other }
{
    c.ab_distance(other)
}

// The linear light of an sRGB byte.
#[unsafe(no_mangle)]
pub extern "C" fn purdolve_srgb_to_linear(v: u8) -> f32
    ensures { result ≡ srgb_spec.srgb_to_linear v }
{
    color::srgb_to_linear(v)
}

// The linear light of an sRGB colour.
#[unsafe(no_mangle)]
pub extern "C" fn purdolve_srgb8_to_linear(c: Srgb8) -> Linear
    ensures { result ≡ color_spec.srgb8_to_linear c }
{
    color::srgb8_to_linear(c)
}

// An sRGB colour's CIELAB.
#[unsafe(no_mangle)]
pub extern "C" fn purdolve_srgb8_to_lab(c: Srgb8) -> Lab
    ensures { result ≡ color_spec.srgb8_to_lab c }
{
    color::srgb8_to_lab(c)
}

// Linear sRGB to XYZ.
#[unsafe(no_mangle)]
pub extern "C" fn purdolve_linear_to_xyz(c: Linear) -> Xyz
    ensures { result ≡ color_spec.linear_to_xyz c }
{
    color::linear_to_xyz(c)
}

// XYZ to linear sRGB, which may lie outside the gamut.
#[unsafe(no_mangle)]
pub extern "C" fn purdolve_xyz_to_linear(c: Xyz) -> Linear
    ensures { result ≡ color_spec.xyz_to_linear c }
{
    color::xyz_to_linear(c)
}

// XYZ to CIELAB.
#[unsafe(no_mangle)]
pub extern "C" fn purdolve_xyz_to_lab(c: Xyz) -> Lab
    ensures { result ≡ color_spec.xyz_to_lab c }
{
    color::xyz_to_lab(c)
}

// CIELAB to XYZ.
#[unsafe(no_mangle)]
pub extern "C" fn purdolve_lab_to_xyz(c: Lab) -> Xyz
    ensures { result ≡ color_spec.lab_to_xyz c }
{
    color::lab_to_xyz(c)
}

// Linear sRGB to CIELAB.
#[unsafe(no_mangle)]
pub extern "C" fn purdolve_linear_to_lab(c: Linear) -> Lab
    ensures { result ≡ color_spec.linear_to_lab c }
{
    color::linear_to_lab(c)
}

// CIELAB to linear sRGB, which may lie outside the gamut.
#[unsafe(no_mangle)]
pub extern "C" fn purdolve_lab_to_linear(c: Lab) -> Linear
    ensures { result ≡ color_spec.lab_to_linear c }
{
    color::lab_to_linear(c)
}

// How many colours a palette has: two levels of each hue. Refused: 3.
#[unsafe(no_mangle)]
pub extern "C" fn purdolve_palette_len(hues: usize) -> NumberAnswer
    ensures { result ≡ spec.number_answer (palette_spec.len hues) }
{
    NumberAnswer::from(color::palette::len(hues))
}

// Whether a palette has no colour, which it never is. Refused: 3.
#[unsafe(no_mangle)]
pub extern "C" fn purdolve_palette_is_empty(hues: usize) -> FlagAnswer
    ensures { result ≡ spec.flag_answer (palette_spec.is_empty hues) }
{
    FlagAnswer::from(color::palette::is_empty(hues))
}

// The place of a colour in the palette by its level and its hue, of which the remainder by `hues` counts. Refused: 3.
#[unsafe(no_mangle)]
pub extern "C" fn purdolve_palette_index(light: bool, hue: usize, hues: usize) -> NumberAnswer
    ensures { result ≡ spec.number_answer (palette_spec.index light hue hues) }
{
    NumberAnswer::from(color::palette::index(light, hue, hues))
}
