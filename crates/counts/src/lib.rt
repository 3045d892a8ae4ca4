// How a palette divides the colours: of the 32,768 sRGB colours whose three bytes are multiples of 8, how many fall to
// each level and hue.
//
// A first use: with `let mut counts = [0u32; 9];`, the call `colour_counts(noise, palette, 4, &mut counts)` writes how
// many are dark, by hue, then how many are light, by hue, and last how many are neither.
#![tactic(auto)]

ghost use Rattle.std.specs.Prelude.{◌≡◌, false, ◌+◌, ◌<◌, ◌≤◌, length};
ghost use Rattle.sentences.specs.Sentences.{refusal};
ghost use Rattle.limits.specs.Limits.{bad_hues};
ghost use Rattle.answers.specs.Answers.{outcome_number, ended};
ghost use Rattle.counts.specs.Counts as spec;
ghost use Rattle.counts.specs.Calls as call;

use answers::Refusal;
use color::palette::Palette;
use color::{Lab, Srgb8};
use stats::{Channel, ChannelStats};

// ---- the colours

// Colour i in Lab, as scoring takes a sample under the unit model: its bytes are 0, 8, .., 248 in each channel, red slowest
// and blue fastest. That model leaves each of the colours bit for bit, whatever its side and terms and wherever the colour
// stands, so nothing is corrected here.
fn sample_at(i: usize) -> Lab
    requires { i < 32768 }
    ensures { (result ≡ spec.sample_at i) × spec.UnitLeaves }
{
    color::srgb8_to_lab(Srgb8 {
        r: (8 * (i / 1024)) as u8,
        g: (8 * (i / 32 % 32)) as u8,
        b: (8 * (i % 32)) as u8,
    })
}

// ---- the hue

// Whether likelihood x ranks above y: a NaN ranks below every other.
#[tactic(auto, unfolding(crate::specs::Counts::beats))]
fn beats(x: f32, y: f32) -> bool
    ensures { result ≡ spec.beats x y }
{
    !x.is_nan() && (y.is_nan() || y < x)
}

// The hue of the highest likelihood, the lowest on equality.
fn highest(likelihoods: &[f32], hues: usize) -> usize
    requires { (0 < hues) × (hues ≤ length likelihoods.now) }
    ensures { (result ≡ spec.highest_of likelihoods.now hues) × spec.Highest likelihoods.now hues result }
{
    let mut best = 0;
    for (h, &likelihood) in likelihoods[..hues].iter().enumerate() {
        if beats(likelihood, likelihoods[best]) {
            best = h;
        }
    }
    best
}

// ---- the class and the counts

// A channel that divides colours into classes: its hue count is one of the five that cards have.
#[derive(Clone, Copy, Debug)]
struct Division<'a> {
    channel: Channel<'a>,
    ghost hue_count: { bad_hues channel.palette.hues ≡ false },
}

impl Division<'_> {
    // The hue class of a sample: its likeliest hue, and 0 with chroma off.
    fn hue_class(&self, sample: Lab) -> usize
        ensures { result ≡ spec.hue_class self.now.channel.noise self.now.channel.palette.numbers.now self.now.channel.palette.hues sample }
    {
        let hues = self.channel.palette.hues;
        if !limits::chroma_on(hues) {
            return 0;
        }
        let mut likelihoods = [0.0f32; 16];
        self.channel
            .hue_log_likelihoods_of(sample, &mut likelihoods);
        highest(&likelihoods, hues)
    }

    // The class of a sample: dark by hue, then light by hue, then the last.
    fn class_of(&self, sample: Lab) -> usize
        ensures { (result ≡ spec.class_of self.now.channel.noise self.now.channel.palette.numbers.now self.now.channel.palette.hues sample) × spec.Class self.now.channel.noise self.now.channel.palette.hues sample result }
    {
        let hues = self.channel.palette.hues;
        let v = self.channel.noise.luma_llr_of(sample.l);
        if 0.0 < v {
            self.hue_class(sample)
        } else if v < 0.0 {
            limits::hue_classes(hues) + self.hue_class(sample)
        } else {
            2 * limits::hue_classes(hues)
        }
    }

    // Counts colour i in its class.
    fn count_one(&self, i: usize, out: &mut [u32])
        requires { (i < 32768) × spec.Sums (spec.classes self.now.channel.palette.hues) i out.old }
        ensures { (out.new ≡ spec.count_at self.now.channel.noise self.now.channel.palette.numbers.now self.now.channel.palette.hues i out.old) × spec.Sums (spec.classes self.now.channel.palette.hues) (i + 1) out.new }
    {
        let class = self.class_of(sample_at(i));
        out[class] += 1;
    }

    // Counts every colour.
    fn count_all(&self, out: &mut [u32])
        requires { spec.Sums (spec.classes self.now.channel.palette.hues) 0 out.old }
        ensures { (out.new ≡ spec.count_all self.now.channel.noise self.now.channel.palette.numbers.now self.now.channel.palette.hues out.old) × spec.Sums (spec.classes self.now.channel.palette.hues) 32768 out.new }
    {
        // By index: the colours are numbers, and stand in no list.
        for i in 0..32768 {
            self.count_one(i, out);
        }
    }

    // The counts, in room that is long enough.
    fn counts_of(&self, out: &mut [u32])
        requires { spec.classes self.now.channel.palette.hues ≤ length out.old }
        ensures { (out.new ≡ spec.counted self.now.channel.noise self.now.channel.palette.numbers.now self.now.channel.palette.hues out.old) × spec.Divides self.now.channel.noise self.now.channel.palette.numbers.now self.now.channel.palette.hues out.old out.new }
    {
        out[..classes(self.channel.palette.hues)].fill(0);
        self.count_all(out);
    }
}

// ---- the call
// Slices: as the C interface lends them.

// How many counts there are: one a level and hue class, and the last.
fn classes(hues: usize) -> usize
    requires { bad_hues hues ≡ false }
    ensures { result ≡ spec.classes hues }
{
    2 * limits::hue_classes(hues) + 1
}

// Sentence 5: the palette, or the room for the counts, is too short.
#[tactic(auto, unfolding(crate::specs::Calls::short))]
fn short(palette: &[f32], hues: usize, out: &[u32]) -> bool
    requires { bad_hues hues ≡ false }
    ensures { result ≡ call.short palette.now hues out.now }
{
    stats::short_palette(palette, hues) || out.len() < classes(hues)
}

// Whether the call passes. Refused: 3, 5, 8, 9.
#[tactic(auto, unfolding(crate::specs::Calls::sentences_of, crate::specs::Calls::short, stats::specs::Calls::short_palette, sentences::specs::Sentences::refusal))]
fn check(noise: ChannelStats, palette: &[f32], hues: usize, out: &[u32]) -> Result<(), Refusal>
    ensures { outcome_number result ≡ refusal (call.sentences_of noise palette.now hues out.now) }
{
    if limits::bad_hues(hues) {
        return Err(Refusal::Hues);
    }
    if short(palette, hues, out) {
        return Err(Refusal::Length);
    }
    let channel = Channel {
        noise,
        palette: Palette {
            numbers: palette,
            hues,
        },
    };
    channel.check_figures()
}

// Counts how the 32,768 sRGB colours whose bytes are multiples of 8 divide among the palette's levels and hues, under the
// unit model: dark by hue, then light by hue, then those whose `luma_llr` is zero or a NaN; with chroma off dark, light
// and the last. The counts add up to 32,768. What lies past them in `out` is kept. Refused: 3, 5, 8, 9; nothing is
// written then.
pub fn colour_counts(
    noise: ChannelStats,
    palette: &[f32],
    hues: usize,
    out: &mut [u32],
) -> Result<(), Refusal>
    ensures { (ended result out.new ≡ call.counts_of noise palette.now hues out.old) × call.Accepted result noise palette.now hues out.old out.new }
{
    check(noise, palette, hues, out)?;
    let division = Division {
        channel: Channel {
            noise,
            palette: Palette {
                numbers: palette,
                hues,
            },
        },
    };
    division.counts_of(out);
    Ok(())
}
