// The margin check: whether a palette and a noise record leave so much room that a card whose corrected
// colours lie within half a sigma of its drawn ones is read as it was drawn.
#![tactic(auto)]

ghost use Rattle.std.specs.Prelude.{◌≡◌, ◌*◌, ◌<◌};
ghost use Rattle.answers.specs.Answers.{said};
ghost use Rattle.margin.specs.Margin as spec;
ghost use Rattle.margin.specs.Calls as call;

use answers::Refusal;
use color::Lab;
use color::palette::Palette;
use stats::{Channel, ChannelStats};

// The settings of the margin check: how far from 0 the luma score of every palette colour must lie half a
// sigma off. Thirteen is document 01's; Nine is the second one, of which the read guarantee asks besides
// that no refined score is a NaN.
#[derive(Clone, Copy, Debug, PartialEq, Eq, Hash)]
pub enum Threshold {
    Thirteen,
    Nine,
}

// The number that a setting stands for.
impl From<Threshold> for f32 {
    ghost from_gives = { λ least v. v ≡ call.least_of least };

    #[tactic(auto, using(crate::proofs::Literals::literals))]
    fn from(least: Threshold) -> f32 {
        match least {
            Threshold::Thirteen => 13.0,
            Threshold::Nine => 9.0,
        }
    }
}

// Whether v is at most 256 in magnitude.
#[tactic(auto, using(crate::proofs::Literals::literals), unfolding(crate::specs::Margin::level_fits))]
fn level_fits(v: f32) -> bool
    ensures { result ≡ spec.level_fits v }
{
    float::abs(v) <= 256.0
}

// Whether all sigmas are at most 1,000.
#[tactic(auto, using(crate::proofs::Literals::literals), unfolding(crate::specs::Margin::sigmas_fit))]
fn sigmas_fit(noise: ChannelStats) -> bool
    ensures { result ≡ spec.sigmas_fit noise }
{
    noise.sigma_l <= 1000.0
        && noise.sigma_ab <= 1000.0
        && noise.sigma_ab_dark <= 1000.0
        && noise.sigma_ab_light <= 1000.0
}

// ---- what the check reads of a channel

// Facts: a hue or a colour's place comes from the loop over all of them, which is its bound; a struct of a place and its palette
// would be as many words at each use.

// Whether the L of palette colour i is at most 256 in magnitude.
#[tactic(auto, unfolding(crate::specs::Margin::colour_fits))]
fn colour_fits(palette: &Palette, i: usize) -> bool
    requires { i < 2 * palette.now.hues }
    ensures { result ≡ spec.colour_fits palette.now.numbers.now palette.now.hues i }
{
    level_fits(palette.lab(i).l)
}

// Whether the L of every palette colour is.
fn colours_fit(palette: &Palette) -> bool
    ensures { result ≡ spec.colours_fit palette.now.numbers.now palette.now.hues }
{
    (0..2 * palette.hues).all(|i| colour_fits(palette, i))
}

// Whether l0, l1 and the L of every palette colour are.
#[tactic(auto, unfolding(crate::specs::Margin::levels_fit))]
fn levels_fit(channel: &Channel) -> bool
    ensures { result ≡ spec.levels_fit channel.now.noise channel.now.palette.numbers.now channel.now.palette.hues }
{
    level_fits(channel.noise.l0) && level_fits(channel.noise.l1) && colours_fit(&channel.palette)
}

// Whether the dark colour of hue h, half a sigma up, still scores the threshold.
// Twin: of `light_clear`; which colour, which way and which comparison differ, and both share `luma_llr_of`.
#[tactic(auto, using(crate::proofs::Literals::literals), unfolding(crate::specs::Margin::dark_clear))]
fn dark_clear(channel: &Channel, threshold: f32, h: usize) -> bool
    requires { h < channel.now.palette.hues }
    ensures { result ≡ spec.dark_clear threshold channel.now.noise channel.now.palette.numbers.now channel.now.palette.hues h }
{
    let c = channel.palette.lab(h);
    threshold <= channel.noise.luma_llr_of(c.l + channel.noise.sigma_l / 2.0)
}

// Whether that of every hue does.
// Twin: of `lights_clear`; each is one line over the hues, as a call of a function over a test would be.
fn darks_clear(channel: &Channel, threshold: f32) -> bool
    ensures { result ≡ spec.darks_clear threshold channel.now.noise channel.now.palette.numbers.now channel.now.palette.hues }
{
    (0..channel.palette.hues).all(|h| dark_clear(channel, threshold, h))
}

// Whether the light colour of hue h, half a sigma down, still scores minus the threshold.
// Twin: of `dark_clear`.
#[tactic(auto, using(crate::proofs::Literals::literals), unfolding(crate::specs::Margin::light_clear))]
fn light_clear(channel: &Channel, threshold: f32, h: usize) -> bool
    requires { h < channel.now.palette.hues }
    ensures { result ≡ spec.light_clear threshold channel.now.noise channel.now.palette.numbers.now channel.now.palette.hues h }
{
    let c = channel.palette.lab(channel.palette.light(h));
    channel.noise.luma_llr_of(c.l - channel.noise.sigma_l / 2.0) <= -threshold
}

// Whether that of every hue does.
// Twin: of `darks_clear`.
fn lights_clear(channel: &Channel, threshold: f32) -> bool
    ensures { result ≡ spec.lights_clear threshold channel.now.noise channel.now.palette.numbers.now channel.now.palette.hues }
{
    (0..channel.palette.hues).all(|h| light_clear(channel, threshold, h))
}

// Whether a and b of a colour differ from the point of hue h by at most s.
// Twin: of `far`, which asks the other comparison of either, where this asks it of both.
#[tactic(auto, unfolding(crate::specs::Margin::near))]
fn near(palette: &Palette, c: Lab, s: f32, h: usize) -> bool
    requires { h < palette.now.hues }
    ensures { result ≡ spec.near palette.now.numbers.now c s h }
{
    let point = palette.point(h);
    float::abs(c.a - point.a) <= s && float::abs(c.b - point.b) <= s
}

// Whether a or b differs from it by more than 4 × s.
// Twin: of `near`.
#[tactic(auto, using(crate::proofs::Literals::literals), unfolding(crate::specs::Margin::far))]
fn far(palette: &Palette, c: Lab, s: f32, h: usize) -> bool
    requires { h < palette.now.hues }
    ensures { result ≡ spec.far palette.now.numbers.now c s h }
{
    let point = palette.point(h);
    4.0 * s < float::abs(c.a - point.a) || 4.0 * s < float::abs(c.b - point.b)
}

// Whether h is the colour's own hue, or the colour is far from h.
#[tactic(auto, unfolding(crate::specs::Margin::other_far))]
fn other_far(palette: &Palette, c: Lab, s: f32, own: usize, h: usize) -> bool
    requires { h < palette.now.hues }
    ensures { result ≡ spec.other_far palette.now.numbers.now c s own h }
{
    h == own || far(palette, c, s, h)
}

// Whether the colour is far from every hue but its own.
fn others_far(palette: &Palette, c: Lab, s: f32, own: usize) -> bool
    ensures { result ≡ spec.others_far palette.now.numbers.now palette.now.hues c s own }
{
    (0..palette.hues).all(|h| other_far(palette, c, s, own, h))
}

// Whether palette colour i is near the point of its own hue and far from every other.
#[tactic(auto, unfolding(crate::specs::Margin::apart))]
fn apart(channel: &Channel, i: usize, own: usize) -> bool
    requires { (i < 2 * channel.now.palette.hues) × (own < channel.now.palette.hues) }
    ensures { result ≡ spec.apart channel.now.noise channel.now.palette.numbers.now channel.now.palette.hues i own }
{
    let palette = &channel.palette;
    let c = palette.lab(i);
    let s = channel.noise.sigma_ab_of(c.l);
    near(palette, c, s, own) && others_far(palette, c, s, own)
}

// Whether both colours of hue h are.
#[tactic(auto, unfolding(crate::specs::Margin::hue_clear))]
fn hue_clear(channel: &Channel, h: usize) -> bool
    requires { h < channel.now.palette.hues }
    ensures { result ≡ spec.hue_clear channel.now.noise channel.now.palette.numbers.now channel.now.palette.hues h }
{
    apart(channel, h, h) && apart(channel, channel.palette.light(h), h)
}

// Whether both colours of every hue are.
fn hues_clear(channel: &Channel) -> bool
    ensures { result ≡ spec.hues_clear channel.now.noise channel.now.palette.numbers.now channel.now.palette.hues }
{
    (0..channel.palette.hues).all(|h| hue_clear(channel, h))
}

// With chroma on, whether the colours of every hue are.
#[tactic(auto, unfolding(crate::specs::Margin::chroma_clear))]
fn chroma_clear(channel: &Channel) -> bool
    ensures { result ≡ spec.chroma_clear channel.now.noise channel.now.palette.numbers.now channel.now.palette.hues }
{
    !limits::chroma_on(channel.palette.hues) || hues_clear(channel)
}

// Core: the margin check of a channel, at any threshold.
#[tactic(auto, unfolding(crate::specs::Margin::in_margin))]
pub fn in_margin(threshold: f32, channel: &Channel) -> bool
    ensures { result ≡ spec.in_margin threshold channel.now.noise channel.now.palette.numbers.now channel.now.palette.hues }
{
    channel.noise.l0 < channel.noise.l1
        && levels_fit(channel)
        && sigmas_fit(channel.noise)
        && darks_clear(channel, threshold)
        && lights_clear(channel, threshold)
        && chroma_clear(channel)
}

// ---- the calls
// Slices: as the C interface lends them.

// The margin check at a setting: whether every dark and light colour still scores 13, or 9, half a sigma
// off, and, with chroma on, every colour stands near its hue's point and far from the others. Refused: 3, 5,
// 8, 9.
pub fn margin_at(
    least: Threshold,
    noise: ChannelStats,
    palette: &[f32],
    hues: usize,
) -> Result<bool, Refusal>
    ensures { said result ≡ call.margin_at_answer least noise palette.now hues }
{
    stats::check(noise, palette, hues)?;
    let channel = Channel {
        noise,
        palette: Palette {
            numbers: palette,
            hues,
        },
    };
    Ok(in_margin(f32::from(least), &channel))
}

// The margin check of document 01, at 13. Refused: 3, 5, 8, 9.
pub fn margin(noise: ChannelStats, palette: &[f32], hues: usize) -> Result<bool, Refusal>
    ensures { said result ≡ call.margin_answer noise palette.now hues }
{
    margin_at(Threshold::Thirteen, noise, palette, hues)
}
