// The palette of a card with k hues, one flat slice of 2 + 8k f32: the lightness of the two levels, a and b of each hue,
// then the Lab of each colour, dark by hue and then light by hue. Here is where each number stands, and what
// document 01's sentence 8 says of numbers and of a palette.
// The C interface lends that slice and its hue count; behind a call's refusals the two are a `Palette`.
ghost use Rattle.std.specs.Prelude.{◌≡◌, ◌+◌, ◌*◌, ◌<◌, ◌≤◌, length};
ghost use Rattle.answers.specs.Answers.{said};
ghost use Rattle.color.specs.Palette as spec;

use super::{Lab, Linear};
use answers::Refusal;

// A hue's point in the plane of a and b.
#[repr(C)]
#[derive(Clone, Copy, Debug, PartialEq)]
pub struct Ab {
    pub a: f32,
    pub b: f32,
}

// How many colours a palette has: two levels of each hue. Refused: 3.
#[tactic(auto, unfolding(sentences::specs::Sentences::refusal, sentences::specs::Sentences::decided, limits::specs::Limits::bad_hues))]
pub fn len(hues: usize) -> Result<usize, Refusal>
    ensures { said result ≡ spec.len hues }
{
    if limits::bad_hues(hues) {
        return Err(Refusal::Hues);
    }
    Ok(2 * hues)
}

// Whether a palette has no colour, which it never is. Refused: 3.
#[tactic(auto, unfolding(sentences::specs::Sentences::refusal, sentences::specs::Sentences::decided))]
pub fn is_empty(hues: usize) -> Result<bool, Refusal>
    ensures { said result ≡ spec.is_empty hues }
{
    if limits::bad_hues(hues) {
        return Err(Refusal::Hues);
    }
    Ok(false)
}

// The place of a colour by its level and its hue, any hue being taken by its remainder. Refused: 3.
#[tactic(auto, unfolding(sentences::specs::Sentences::refusal, sentences::specs::Sentences::decided, limits::specs::Limits::bad_hues))]
pub fn index(l: bool, h: usize, hues: usize) -> Result<usize, Refusal>
    ensures { said result ≡ spec.index l h hues }
{
    if limits::bad_hues(hues) {
        return Err(Refusal::Hues);
    }
    Ok(index_of(l, h, hues))
}

// Core: the same, of a hue count that sentence 3 lets pass.
#[tactic(auto, unfolding(crate::specs::Palette::index_of))]
pub fn index_of(l: bool, h: usize, hues: usize) -> usize
    requires { (0 < hues) × (hues ≤ 16) }
    ensures { result ≡ spec.index_of l h hues }
{
    if l { hues + h % hues } else { h % hues }
}

// The numbers of a palette and its hue count, which the numbers reach for.
#[derive(Clone, Copy, Debug)]
pub struct Palette<'a> {
    pub numbers: &'a [f32],
    pub hues: usize,
    ghost long: { spec.palette_len hues ≤ length numbers.now },
}

impl<'a> Palette<'a> {
    // Core: a palette of numbers that are long enough for its hues.
    pub fn new(numbers: &'a [f32], hues: usize) -> Palette<'a>
        requires { spec.palette_len hues ≤ length numbers.now }
        ensures { (result.numbers.now ≡ numbers.now) × (result.hues ≡ hues) }
    {
        Palette { numbers, hues }
    }

    // Core: how many colours it has: two levels of each hue.
    pub fn colours(&self) -> usize
        ensures { result ≡ 2 * self.now.hues }
    {
        2 * self.hues
    }

    // Core: the place of the light colour of hue h; that of the dark one is h.
    pub fn light(&self, h: usize) -> usize
        requires { h < self.now.hues }
        ensures { (result ≡ self.now.hues + h) × (result < 2 * self.now.hues) }
    {
        self.hues + h
    }

    // Core: the mean lightness of the dark level, 0, or of the light one, 1.
    #[tactic(auto, unfolding(crate::specs::Palette::level_l))]
    pub fn level(&self, level: usize) -> f32
        requires { level < 2 }
        ensures { result ≡ spec.level_l self.now.numbers.now level }
    {
        self.numbers[level]
    }

    // Core: the point of hue h.
    #[tactic(auto, unfolding(crate::specs::Palette::hue_ab))]
    pub fn point(&self, h: usize) -> Ab
        requires { h < self.now.hues }
        ensures { result ≡ spec.hue_ab self.now.numbers.now h }
    {
        Ab {
            a: self.numbers[2 + 2 * h],
            b: self.numbers[3 + 2 * h],
        }
    }

    // Core: the Lab of a colour by its place, below 2 × hues.
    #[tactic(auto, unfolding(crate::specs::Palette::palette_lab))]
    pub fn lab(&self, index: usize) -> Lab
        requires { index < 2 * self.now.hues }
        ensures { result ≡ spec.palette_lab self.now.numbers.now self.now.hues index }
    {
        let at = 2 + 2 * self.hues + 3 * index;
        Lab {
            l: self.numbers[at],
            a: self.numbers[at + 1],
            b: self.numbers[at + 2],
        }
    }

    // Core: sentence 8 of a palette: one of its 2 + 8 × hues numbers is wild.
    pub fn is_wild(&self) -> bool
        ensures { result ≡ spec.wild_palette self.now.numbers.now self.now.hues }
    {
        wild_in(self.numbers, 2 + 8 * self.hues)
    }
}

// Core: the mean lightness of the dark level, 0, or of the light one, 1.
#[tactic(auto, unfolding(crate::specs::Palette::level_l))]
pub fn level_l(palette: &[f32], level: usize) -> f32
    requires { (level < 2) × (2 ≤ length palette.now) }
    ensures { result ≡ spec.level_l palette.now level }
{
    palette[level]
}

// Core: colour i of a list that has three numbers for each.
#[tactic(auto, unfolding(crate::specs::Palette::linear_at))]
pub fn linear_at(colours: &[f32], i: usize) -> Linear
    requires { 3 * i + 2 < length colours.now }
    ensures { result ≡ spec.linear_at colours.now i }
{
    Linear {
        r: colours[3 * i],
        g: colours[3 * i + 1],
        b: colours[3 * i + 2],
    }
}

// Core: whether v is not finite or has a magnitude above the limit.
#[tactic(auto, unfolding(crate::specs::Palette::beyond))]
pub fn beyond(limit: f32, v: f32) -> bool
    ensures { result ≡ spec.beyond limit v }
{
    !(v <= limit && -limit <= v)
}

// Core: whether v is not finite or has a magnitude above 1,048,576, as sentence 8 has it.
#[tactic(auto, using(crate::proofs::Literals::literals), unfolding(crate::specs::Palette::wild, crate::specs::Palette::beyond))]
pub fn wild(v: f32) -> bool
    ensures { result ≡ spec.wild v }
{
    beyond(1048576.0, v)
}

// Core: the same of a component of a colour, as sentences 8 and 12 have it.
#[tactic(auto, unfolding(crate::specs::Palette::wild_linear))]
pub fn wild_linear(c: Linear) -> bool
    ensures { result ≡ spec.wild_linear c }
{
    wild(c.r) || wild(c.g) || wild(c.b)
}

// Core: the same of one of the first n numbers.
pub fn wild_in(values: &[f32], n: usize) -> bool
    requires { n ≤ length values.now }
    ensures { result ≡ spec.wild_in values.now n }
{
    values[..n].iter().any(|&v| wild(v))
}
