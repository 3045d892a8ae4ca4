// Whole parts of roots of whole numbers: a guess by floats, of which nothing is trusted, an exact test of it,
// and the slow way behind it where the test fails.
// Facts: a < 2 ^ 27 is the range in which each root here is right, and nothing that a value carries with it.
ghost use Rattle.std.specs.Prelude.{◌≡◌, ◌+◌, ◌*◌, ◌^◌, ◌<◌, ◌≤◌, true};

use super::rows;

// The whole part of the cube root of a, by halving an interval.
fn icbrt(a: u64) -> u64
    requires { a < 2 ^ 27 }
    ensures { (result * result * result ≤ a) × ((a < (result + 1) * (result + 1) * (result + 1)) × (result < 512)) }
{
    let mut lo = 0u64;
    let mut hi = 512u64;
    while lo + 1 < hi {
        let mid = (lo + hi) / 2;
        if mid * mid * mid <= a {
            lo = mid;
        } else {
            hi = mid;
        }
    }
    lo
}

// The whole part of the cube root of a * 2 ^ 48: that of a, and then 16 binary digits more, one at a
// time. r is what is left of a * 8 ^ i after q * q * q.
fn icbrt_slow(a: u64) -> u64
    requires { a < 2 ^ 27 }
    ensures { (result * result * result ≤ a * 2 ^ 48) × (a * 2 ^ 48 < (result + 1) * (result + 1) * (result + 1)) }
{
    let mut q = icbrt(a);
    let mut r = a - q * q * q;
    for _ in 0..16u32 {
        let p = q + q;
        let step = 3 * (p * (p + 1)) + 1;
        r *= 8;
        if step <= r {
            r -= step;
            q = p + 1;
        } else {
            q = p;
        }
    }
    q
}

// A float whose last 26 bits are a guess at the whole part of √w, by the row i. x is w: from 2 ^ 52 on the last bit of
// an f64 counts ones (and `w as f64` would wait for what its register held before). z is near k / √x, where
// k ^ 3 = -1 / 2, and v * (v * z + 3 / (2 * k)), one step of Newton's method, is a little below √x: with a little more
// than that constant the whole part is never missed from below, and from above twice in ten thousand. Nothing is
// proved of it: who calls it tests it.
fn guess_sqrt(w: u64, i: u32) -> f64
    requires { w < 2 ^ 50 }
{
    let x = f64::from_bits(0x4330_0000_0000_0000 + w) - 4503599627370496.0;
    let z = rows::inverse_sqrt(i).at(x);
    let v = x * z;
    v * (v * z - 1.889881574855) + 4503599627370495.5
}

// The same for the cube root of a * 2 ^ 48, with k ^ 5 = -2 ^ 17 / 3 and the constant 5 * 2 ^ 16 / (3 * k ^ 2).
fn guess_cbrt(a: u64, i: u32) -> f64
    requires { a < 2 ^ 27 }
{
    let x = f64::from_bits(0x4330_0000_0000_0000 + a) - 4503599627370496.0;
    let z = rows::inverse_cbrt(i).at(x);
    let v = x * z;
    (v * z) * (v * (z * z) + 1521.1540974745) + 4503599627370495.5
}

// Whether g is the whole part of the cube root of a * 2 ^ 48, by what is left of that after g * g * g. The cube takes
// up to 78 bits: high counts its units of 2 ^ 24, and low is the rest.
fn is_icbrt(g: u64, a: u64) -> bool
    requires { (g < 67108864) × (a < 2 ^ 27) }
    ensures { result ≡ true → (g * g * g ≤ a * 2 ^ 48) × (a * 2 ^ 48 < (g + 1) * (g + 1) * (g + 1)) }
{
    let s = g * g;
    let high = s / 0x100_0000 * g;
    let low = s % 0x100_0000 * g;
    let units = a * 0x100_0000;
    if units < high || 0x1_0000_0000 <= units - high {
        return false;
    }
    let left = (units - high) * 0x100_0000;
    low <= left && left - low <= 3 * (s + g)
}

// Core: the whole part of the square root of w: the guess g, if what is left of w after g * g shows it to be that, which is
// quicker than the library's way. i is the row that it is guessed by, and may be any number.
pub fn isqrt(w: u64, i: u32) -> u64
    requires { w < 2 ^ 50 }
    ensures { (result * result ≤ w) × (w < (result + 1) * (result + 1)) }
{
    let x = guess_sqrt(w, i);
    if !x.is_nan() {
        let g = x.to_bits() % 67108864;
        let s = g * g;
        if s <= w && w - s <= 2 * g {
            return g;
        }
    }
    w.isqrt()
}

// Core: the whole part of the cube root of a * 2 ^ 48, in the same way.
pub fn icbrt_long(a: u64, i: u32) -> u64
    requires { a < 2 ^ 27 }
    ensures { (result * result * result ≤ a * 2 ^ 48) × (a * 2 ^ 48 < (result + 1) * (result + 1) * (result + 1)) }
{
    let x = guess_cbrt(a, i);
    if !x.is_nan() {
        let g = x.to_bits() % 67108864;
        if is_icbrt(g, a) {
            return g;
        }
    }
    icbrt_slow(a)
}
