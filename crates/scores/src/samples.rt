// Samples: the Lab of a corrected colour and the weight by which its scores count, of at most 16 colours at a time. Labs, distances
// and weights are a loop each, whose turns are short and do not wait for each other, which takes less time than one loop for all.
ghost use Rattle.std.specs.Prelude.{◌≡◌, false, ◌+◌, ◌*◌, ◌<◌, ◌≤◌, length};
ghost use Rattle.limits.specs.Limits.{bad_hues};
ghost use Rattle.stats.specs.Noise.{Sigmas};
ghost use Rattle.color.specs.Palette.{linear_at};
ghost use Rattle.observed.specs.Entries as entry;
ghost use Rattle.observed.specs.Entries.{Block};
ghost use Rattle.scores.specs.Samples as spec;

use color::palette::linear_at;
use color::{Lab, Linear, linear_to_lab};
use stats::Channel;

// The corrected colours of a card's modules, or of a block of its cells: n of them, three numbers each.
#[derive(Clone, Copy, Debug)]
pub struct Colours<'a> {
    pub numbers: &'a [f32],
    pub n: usize,
    ghost three: { 3 * n ≤ length numbers.now },
}

impl Colours<'_> {
    // Core: colour i.
    pub fn at(&self, i: usize) -> Linear
        requires { i < self.now.n }
        ensures { result ≡ linear_at self.now.numbers.now i }
    {
        linear_at(self.numbers, i)
    }
}

// What a card's colours are scored by: its channel, and the chroma noise of each palette colour, which no sample changes.
#[derive(Clone, Copy, Debug)]
pub struct Meter<'a> {
    pub channel: Channel<'a>,
    pub sigmas: [f32; 32],
    ghost sigmas_are: { Sigmas channel.noise channel.palette.numbers.now channel.palette.hues sigmas },
}

impl<'a> Meter<'a> {
    // Core: the meter of a channel whose hue count passes sentence 3.
    #[tactic(auto, using(crate::proofs::Chroma::few_colours))]
    pub fn new(channel: Channel<'a>) -> Meter<'a>
        requires { bad_hues channel.palette.hues ≡ false }
        ensures { result.channel ≡ channel.entry }
    {
        let mut sigmas = [0.0f32; 32];
        channel.palette_sigmas(&mut sigmas);
        Meter { channel, sigmas }
    }

    // Writes how far each of n Labs is from the nearest palette colour.
    #[tactic(auto, unfolding(crate::specs::Samples::distance_of))]
    fn write_distances(&self, labs: &[Lab], n: usize, distances: &mut [f32])
        requires { (n ≤ length labs.now) × (n ≤ length distances.old) }
        ensures { Block entry.number_at (spec.distance_of self.now.channel.noise self.now.channel.palette.numbers.now self.now.channel.palette.hues (entry.lab_at labs.now)) n distances.new }
    {
        for (j, distance) in distances[..n].iter_mut().enumerate() {
            *distance = self.channel.nearest_by(labs[j], &self.sigmas);
        }
    }
}

// Writes the Labs of n colours, from colour `from` on.
#[tactic(auto, unfolding(crate::specs::Samples::lab_of, observed::specs::Entries::onwards))]
fn write_labs(colours: &Colours, from: usize, n: usize, labs: &mut [Lab])
    requires { (from + n ≤ colours.now.n) × (n ≤ length labs.old) }
    ensures { Block entry.lab_at (spec.lab_of (entry.onwards (linear_at colours.now.numbers.now) from)) n labs.new }
{
    for (j, lab) in labs[..n].iter_mut().enumerate() {
        *lab = linear_to_lab(colours.at(from + j));
    }
}

// Writes the weights of n distances.
#[tactic(auto, unfolding(crate::specs::Samples::weight_of))]
fn write_weights(distances: &[f32], n: usize, weights: &mut [f32])
    requires { (n ≤ length distances.now) × (n ≤ length weights.old) }
    ensures { Block entry.number_at (spec.weight_of (entry.number_at distances.now)) n weights.new }
{
    for (j, weight) in weights[..n].iter_mut().enumerate() {
        *weight = stats::weight(distances[j]);
    }
}

// The samples of n colours.
#[derive(Clone, Copy, Debug)]
pub struct Samples {
    pub labs: [Lab; 16],
    pub weights: [f32; 16],
    pub n: usize,
    ghost few: { n ≤ 16 },
}

impl Samples {
    // Core: the samples of n colours, from colour `from` on.
    #[tactic(auto, using(crate::proofs::Blocks::by_stages))]
    pub fn of(meter: &Meter, colours: &Colours, from: usize, n: usize) -> Samples
        requires { (n ≤ 16) × (from + n ≤ colours.now.n) }
        ensures { spec.Samples meter.now.channel.noise meter.now.channel.palette.numbers.now meter.now.channel.palette.hues (entry.onwards (linear_at colours.now.numbers.now) from) result.n result.labs result.weights × (result.n ≡ n) }
    {
        let none = Lab {
            l: 0.0,
            a: 0.0,
            b: 0.0,
        };
        let mut labs = [none; 16];
        write_labs(colours, from, n, &mut labs);
        let mut distances = [0.0f32; 16];
        meter.write_distances(&labs, n, &mut distances);
        let mut weights = [0.0f32; 16];
        write_weights(&distances, n, &mut weights);
        Samples { labs, weights, n }
    }
}
