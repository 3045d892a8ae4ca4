// Residuals, their root mean square, and which references are rejected.
// Facts: a function is lent residuals and as many marks, and writes the marks, or neither: a struct of both would need
// a shared and a written form.
#![tactic(auto)]

ghost use Rattle.std.specs.Prelude.{◌≡◌, ◌<◌, ◌≤◌, length};
ghost use Rattle.illum.specs.Refusals.{not_finite_up_to};
ghost use Rattle.equations.specs.Live.{live_marks};
ghost use Rattle.residuals.specs.Residual as spec;
ghost use Rattle.residuals.specs.Residual.{rejection};

use color::Linear;
use equations::live;
use illum::IlluminationModel;
use references::References;

#[tactic(auto, unfolding(crate::specs::Residual::squared))]
fn squared(v: f32) -> f32
    ensures { result ≡ spec.squared v }
{
    v * v
}

// The distance of two colours.
#[tactic(auto, unfolding(crate::specs::Residual::distance))]
fn distance(p: Linear, q: Linear) -> f32
    ensures { result ≡ spec.distance p q }
{
    float::sqrt(squared(p.r - q.r) + squared(p.g - q.g) + squared(p.b - q.b))
}

// How far reference i, corrected, is from its nominal colour.
#[tactic(auto, unfolding(crate::specs::Residual::residual))]
fn residual(m: IlluminationModel, references: &References, i: usize) -> f32
    requires { i < references.now.n }
    ensures { result ≡ spec.residual m references.now.flat.now i }
{
    let k = illum::corrected(m, references.seen(i));
    distance(k.colour, references.nominal(i))
}

// Core: writes the residuals of references, rejected ones too.
pub fn write_residuals(out: &mut [f32], m: IlluminationModel, references: &References)
    requires { length out.old ≡ references.now.n }
    ensures { out.new ≡ spec.residuals_of m references.now.flat.now references.now.n }
{
    for (i, r) in out.iter_mut().enumerate() {
        *r = residual(m, references, i);
    }
}

// Core: whether a residual is not finite.
pub fn not_finite_in(residuals: &[f32]) -> bool
    ensures { result ≡ not_finite_up_to (length residuals.now) residuals.now }
{
    residuals.iter().any(|&r| illum::not_finite(r))
}

// ---- the root mean square over live references

// The sum of the squares of the live ones of residuals.
#[tactic(auto, unfolding(crate::specs::Residual::add_square), using(loops::proofs::Laws::loops, crate::proofs::Literals::literals))]
fn squares(residuals: &[f32], live: &[f32]) -> f32
    requires { length live.now ≡ length residuals.now }
    ensures { result ≡ spec.squares residuals.now live.now (length residuals.now) }
{
    let mut s = 0.0;
    for (i, &r) in residuals.iter().enumerate() {
        if live::is_live(live[i]) {
            s += squared(r);
        }
    }
    s
}

// Core: the root of the mean square of the live ones of residuals.
#[tactic(auto, unfolding(crate::specs::Residual::rms_of, crate::specs::Residual::at_least_one))]
pub fn residual_rms(residuals: &[f32], live: &[f32]) -> f32
    requires { (length live.now ≡ length residuals.now) × (length residuals.now ≤ 16384) }
    ensures { result ≡ spec.rms_of residuals.now live.now (length residuals.now) }
{
    let k = live::live_count(live).max(1);
    float::sqrt(squares(residuals, live) / (k as f32))
}

// ---- rejection

// Core: marks every reference live.
pub fn revive(live: &mut [f32])
    ensures { live.new ≡ live_marks (length live.old) }
{
    live.fill(1.0);
}

// Core: 3 × sigma, sigma being at least 1e-4.
#[tactic(auto, unfolding(crate::specs::Residual::three_sigma), using(crate::proofs::Literals::literals))]
pub fn limit(sigma: f32) -> f32
    ensures { result ≡ spec.three_sigma sigma }
{
    3.0 * float::max(sigma, 1e-4)
}

// Core: drops the references whose residual is above the limit, in list order, up to a quarter, and says how many.
pub fn reject(live: &mut [f32], residuals: &[f32], limit: f32) -> usize
    requires { length live.old ≡ length residuals.now }
    ensures { (rejection live.new result ≡ spec.reject_above residuals.now limit (length residuals.now) live.old) × (result ≤ length residuals.now) }
{
    let most = residuals.len() / 4;
    let mut rejected = 0;
    for (i, &r) in residuals.iter().enumerate() {
        if r > limit && rejected < most {
            live[i] = 0.0;
            rejected += 1;
        }
    }
    rejected
}
