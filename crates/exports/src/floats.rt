// Floats: magnitudes, choices, widths and roots, of every float.
//
// Twin: the C interface has a function for each call, and a call that hands on as many arguments has the same shape.
ghost use Rattle.std.specs.Prelude.{◌≡◌};
ghost use Rattle.float.specs.Root as roots;
ghost use Rattle.float.specs.Select as choices;
ghost use Rattle.float.specs.Single as widths;

// |x| of an f32: the sign cleared.
#[unsafe(no_mangle)]
pub extern "C" fn purdolve_abs(x: f32) -> f32
    ensures { result ≡ choices.abs x }
{
    float::abs(x)
}

// |x| of an f64.
#[unsafe(no_mangle)]
pub extern "C" fn purdolve_abs_f64(x: f64) -> f64
    ensures { result ≡ choices.abs x }
{
    float::abs_f64(x)
}

// The larger: b where a < b or a is a NaN, else a.
#[unsafe(no_mangle)]
pub extern "C" fn purdolve_max(a: f32, b: f32) -> f32
    ensures { result ≡ choices.max a b }
{
    float::max(a, b)
}

// The smaller: b where b < a or a is a NaN, else a.
#[unsafe(no_mangle)]
pub extern "C" fn purdolve_min(a: f32, b: f32) -> f32
    ensures { result ≡ choices.min a b }
{
    float::min(a, b)
}

// x held to the range from lo to hi; a NaN is left.
#[unsafe(no_mangle)]
pub extern "C" fn purdolve_clamp(x: f32, lo: f32, hi: f32) -> f32
    ensures { result ≡ choices.clamp lo hi x }
{
    float::clamp(x, lo, hi)
}

// The same value as an f64.
#[unsafe(no_mangle)]
pub extern "C" fn purdolve_widen(x: f32) -> f64
    ensures { result ≡ x }
{
    float::widen(x)
}

// An f64 rounded to the nearest f32, a tie to the one whose last digit is even.
#[unsafe(no_mangle)]
pub extern "C" fn purdolve_narrow(x: f64) -> f32
    ensures { result ≡ widths.to_single x }
{
    float::narrow(x)
}

// The square root: the nearest f32.
#[unsafe(no_mangle)]
pub extern "C" fn purdolve_sqrt(x: f32) -> f32
    ensures { result ≡ roots.sqrt_of x }
{
    float::sqrt(x)
}

// The cube root: the nearest f32, with the sign of x.
#[unsafe(no_mangle)]
pub extern "C" fn purdolve_cbrt(x: f32) -> f32
    ensures { result ≡ roots.cbrt_of x }
{
    float::cbrt(x)
}
