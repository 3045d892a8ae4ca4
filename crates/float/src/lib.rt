// What IEEE 754 arithmetic needs beyond the language: the sign cleared, the larger, the smaller, a range,
// f32 to f64 and back, and the square and cube roots. Each function takes every float: a NaN, an infinity
// or a subnormal value reaches no undefined cast.
#![tactic(auto)]

ghost use Rattle.std.specs.Prelude.{◌≡◌, ◌+◌, ◌*◌, ◌^◌, ◌<◌, ◌≤◌};
ghost use Rattle.std.specs.Float.Ieee.Nearest.{closest};
ghost use Rattle.float.specs.Select.{abs, max, min, clamp};
ghost use Rattle.float.specs.Single.{to_single, Narrows};
ghost use Rattle.float.specs.Root.{sqrt_of, cbrt_of};
ghost use Rattle.float.specs.Parts.{Split};
ghost use Rattle.std.specs.Float.{binary32};
ghost use Rattle.floatlaws.specs.Bits.{value_of};

mod rows; // rows.rt: what roots are guessed by
mod whole; // whole.rt: whole parts of roots

// |x| of an f32: the sign cleared. Either zero gives +0, either infinity +∞, and a NaN stays one.
#[tactic(auto, using(crate::proofs::Signs::cleared))]
pub fn abs(x: f32) -> f32
    ensures { result ≡ abs x }
{
    x.abs()
}

// |x| of an f64, in the same way.
#[tactic(auto, using(crate::proofs::Signs::cleared))]
pub fn abs_f64(x: f64) -> f64
    ensures { result ≡ abs x }
{
    x.abs()
}

// The larger: b where a < b or a is a NaN, else a. So a NaN only where both are, and of two zeros the first. (`f32::max`
// leaves open which zero it is.)
#[tactic(auto, unfolding(crate::specs::Select::max))]
pub fn max(a: f32, b: f32) -> f32
    ensures { result ≡ max a b }
{
    if a < b || a.is_nan() { b } else { a }
}

// The smaller: b where b < a or a is a NaN, else a. So a NaN only where both are, and of two zeros the first. (`f32::min`
// leaves open which zero it is.)
#[tactic(auto, unfolding(crate::specs::Select::min))]
pub fn min(a: f32, b: f32) -> f32
    ensures { result ≡ min a b }
{
    if b < a || a.is_nan() { b } else { a }
}

// x held to the range from lo to hi: lo where x < lo, else hi where hi < x, else x. A NaN is left, and so is a
// zero of either sign at a bound that is zero. (`f32::clamp` asks that lo is not above hi.)
#[tactic(auto, unfolding(crate::specs::Select::clamp))]
pub fn clamp(x: f32, lo: f32, hi: f32) -> f32
    ensures { result ≡ clamp lo hi x }
{
    if x < lo {
        lo
    } else if hi < x {
        hi
    } else {
        x
    }
}

// The same value as an f64: exact, signed zeros and infinities too, and a NaN stays one.
pub fn widen(x: f32) -> f64
    ensures { result ≡ x }
{
    std::num::f32_to_f64_with_nan(x)
}

// Core: n / 2^k to the nearest whole number, a tie to the even one.
pub fn round_shift(n: u64, k: u64) -> u64
    requires in_range { n < 2 ^ 63 }
    requires some { 1 ≤ k }
    requires in_width { k < 63 }
    ensures { result ≡ closest n (2 ^ k) }
{
    let half = 1u64 << (k - 1);
    (n + (half - 1) + (n >> k) % 2) >> k
}

// The f32 pattern of the magnitude whose f64 pattern is m, a number's or the infinity's. With the field from 897 to
// 1150 it is a normal f32: the whole pattern rounded to 29 digits less, and 896 off the field, so that a carry out of
// the digits is right. From 1151 on it is 2^128 or more, the infinity; from 864 on a subnormal f32; and below that
// nothing.
fn magnitude(m: u64) -> u32
    requires { m ≤ 0x7ff0_0000_0000_0000 }
    ensures { Narrows m result }
{
    let field = m / 0x10_0000_0000_0000;
    if std::num::wrapping_sub_u64(field, 897) < 254 {
        return (round_shift(m, 29) - 0x1_c000_0000) as u32;
    }
    if field >= 1151 {
        return 0x7f80_0000;
    }
    if field >= 864 {
        return round_shift(0x10_0000_0000_0000 + m % 0x10_0000_0000_0000, 926 - field) as u32;
    }
    0
}

// An f64 rounded to the nearest f32, a tie to the one whose last digit is even. From half a step above the
// largest f32 on it is an infinity; subnormals, signed zeros and infinities are right, and a NaN stays one.
// (The language's `x as f32` is defined only where nothing is lost. The library's `nearest_f64_to_f32_with_nan` takes three
// times as long.)
pub fn narrow(x: f64) -> f32
    ensures { result ≡ to_single x }
{
    if x.is_nan() {
        return f32::NAN;
    }
    let bits = x.to_bits();
    let sign = (bits / 0x8000_0000_0000_0000 * 0x8000_0000) as u32;
    f32::from_bits(sign + magnitude(bits % 0x8000_0000_0000_0000))
}

// An f32 above zero: m * 2 ^ (s - 24) units of 2 ^ -149, where m has exactly 24 binary digits.
#[derive(Clone, Copy, Debug)]
struct Parts {
    pub m: u32,
    pub s: u32,
}

impl Parts {
    // m * 2 ^ k units, with m moved up to 24 digits.
    fn norm(m: u32, k: u32) -> Parts
        requires { (0 < m) × ((m < 0x100_0000) × (k ≤ 253)) }
        ensures { Split (m * 2 ^ k) result.m result.s }
    {
        let z = m.leading_zeros() - 8;
        Parts {
            m: m << z,
            s: k + 24 - z,
        }
    }

    // The parts of the bit pattern of a finite value above zero.
    fn of_bits(bits: u32) -> Parts
        requires { (0 < bits) × (bits < 0x7f80_0000) }
        ensures { Split (value_of binary32 bits) result.m result.s }
    {
        if bits < 0x80_0000 {
            Parts::norm(bits, 0)
        } else {
            Parts::norm(bits % 0x80_0000 + 0x80_0000, bits / 0x80_0000 - 1)
        }
    }
}

// The square root: the nearest f32. Either zero, +∞ and a NaN are their own roots, and the root of anything
// below zero is a NaN. The root of m * 2^s has the exponent s / 2; its whole part to 25 digits, halved and
// rounded up, is the nearest of 24, since a tie cannot occur. (Tested first: -0, what is below zero, and +∞. By whole
// numbers, as the cube root, and not by `f32::sqrt`: docs/DECISIONS.md, "Forms".)
pub fn sqrt(x: f32) -> f32
    ensures { result ≡ sqrt_of x }
{
    if x.is_nan() {
        return x;
    }
    let bits = x.to_bits();
    if 0x7f80_0000 <= bits {
        return if 0x8000_0000 < bits { f32::NAN } else { x };
    }
    if bits == 0 {
        return x;
    }
    let p = Parts::of_bits(bits);
    let w = u64::from(p.m) << (25 + p.s % 2);
    let q = (whole::isqrt(w, p.m / 0x8_0000 % 16 + p.s % 2 * 16) + 1) / 2;
    f32::from_bits((p.s / 2 + 51) * 0x80_0000 + (q as u32))
}

// The cube root: the nearest f32, with the sign of x. Either zero, either infinity and a NaN are their own
// roots. As above, with the exponent s / 3.
pub fn cbrt(x: f32) -> f32
    ensures { result ≡ cbrt_of x }
{
    if x.is_nan() {
        return x;
    }
    let bits = x.to_bits();
    let mag = bits % 0x8000_0000;
    if mag == 0 || 0x7f80_0000 <= mag {
        return x;
    }
    let p = Parts::of_bits(mag);
    let a = u64::from(p.m) << (1 + p.s % 3);
    let q = (whole::icbrt_long(a, p.m / 0x8_0000 % 16 + p.s % 3 * 16) + 1) / 2;
    f32::from_bits((bits - mag) + ((p.s / 3 + 76) * 0x80_0000 + (q as u32)))
}
