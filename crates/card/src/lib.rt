// The card file of document 01, read from a slice of bytes: whether it is laid out as it must be (refusal 1), its
// settings, where its sections are, and the numbers in them.
//
// A first use: `open` a file; of the card that it answers, decode the palette, the references and the positions of modules
// and cells by `numbers`, and the colours of modules and cells by `colours`, each at the offset that the card names.
#![tactic(auto)]

ghost use Rattle.std.specs.Prelude.{◌≡◌, List, ℕ, ◌^◌, ◌≤◌, ◌<◌, length, get_or, slice_index_or};
ghost use Rattle.answers.specs.Answers.{said};
ghost use Rattle.card.specs.Number.{u16_at, u32_at, f32_at, i16_at};
ghost use Rattle.card.specs.File as layout;
ghost use Rattle.card.specs.Pairs as pairs;
ghost use Rattle.card.specs.Sections as sections;
ghost use Rattle.card.specs.Ready.{Room};

use answers::Refusal;
use std::num::f32_from_bits_with_nan;

// How many pairs the directory has.
const PAIRS: usize = 5;

// What a card file says of the card as a whole; of the mask, the low three bits.
#[derive(Clone, Copy, Debug, PartialEq, Eq)]
pub struct Settings {
    pub side: usize,
    pub version: u8,
    pub hues: usize,
    pub size: usize,
    pub mask: u8,
    pub grid: usize,
}

// Where a section's records start, and how many they are.
// Slices: an offset and a count are what a directory says; the records stay in the file until they are decoded.
#[derive(Clone, Copy, Debug, PartialEq, Eq)]
pub struct Section {
    pub at: usize,
    pub count: usize,
}

// What a card file holds: its settings, where its palette starts, and its lists.
#[derive(Clone, Copy, Debug, PartialEq, Eq)]
pub struct Card {
    pub settings: Settings,
    pub palette: usize,
    pub references: Section,
    pub modules: Section,
    pub cells: Section,
}

// ---- numbers

// A number as a card file holds it, its low byte first; a byte past the end counts as 0.
pub trait Stored: Copy {
    ghost stored: { List ℕ → ℕ → Self };

    // Core: the number at i.
    fn at(file: &[u8], i: usize) -> Self
        requires { i < 2 ^ 60 }
        ensures { result ≡ stored file.now i };
}

// The byte at i, and 0 past the end.
fn byte_at(file: &[u8], i: usize) -> u8
    ensures { result ≡ get_or file.now i 0 }
{
    file.get(i).copied().unwrap_or(0)
}

// The u32 at i, the low half first.
#[tactic(auto, unfolding(crate::specs::Number::u16_at, crate::specs::Number::u32_at))]
fn u32_at(file: &[u8], i: usize) -> u32
    requires { i < 2 ^ 60 }
    ensures { result ≡ u32_at file.now i }
{
    u32::from_le_bytes([
        byte_at(file, i),
        byte_at(file, i + 1),
        byte_at(file, i + 2),
        byte_at(file, i + 3),
    ])
}

impl Stored for u16 {
    ghost stored = { u16_at };

    #[tactic(auto, unfolding(crate::specs::Number::u16_at))]
    fn at(file: &[u8], i: usize) -> u16 {
        u16::from_le_bytes([byte_at(file, i), byte_at(file, i + 1)])
    }
}

// An i16.
impl Stored for i32 {
    ghost stored = { i16_at };

    #[tactic(auto, unfolding(crate::specs::Number::i16_at, crate::specs::Number::i16_of))]
    fn at(file: &[u8], i: usize) -> i32 {
        i32::from(u16::at(file, i).cast_signed())
    }
}

// Of a NaN's bit pattern, a NaN.
impl Stored for f32 {
    ghost stored = { f32_at };

    #[tactic(auto, unfolding(crate::specs::Number::f32_at))]
    fn at(file: &[u8], i: usize) -> f32 {
        f32_from_bits_with_nan(u32_at(file, i))
    }
}

// ---- the directory

// A pair of the directory: where a section starts, and how many bytes it has.
#[derive(Clone, Copy, Debug)]
struct Pair {
    at: usize,
    bytes: usize,
}

impl Pair {
    // Pair k of the directory.
    // By hand: From has no conversion from u32 to usize.
    #[tactic(auto, unfolding(crate::specs::File::offset_of, crate::specs::File::length_of))]
    fn of(file: &[u8], k: usize) -> Pair
        requires { k < 8 }
        ensures is { result ≡ pairs.pair_of file.now k }
        ensures small { result.bytes < 2 ^ 32 }
    {
        Pair {
            at: u32_at(file, 8 * k) as usize,
            bytes: u32_at(file, 8 * k + 4) as usize,
        }
    }

    // Whether the section is not `bytes` bytes long.
    fn has_other_length(self, bytes: usize) -> bool
        ensures { result ≡ pairs.other_length self bytes }
    {
        self.bytes != bytes
    }

    // Whether the section is no whole number of records of `bytes` bytes.
    fn has_broken_record(self, bytes: usize) -> bool
        requires { 0 < bytes }
        ensures { result ≡ pairs.broken_record self bytes }
    {
        self.bytes % bytes != 0
    }

    // The section, of records of `bytes` bytes.
    fn section(self, bytes: usize) -> Section
        requires { 0 < bytes }
        ensures { result ≡ pairs.section self bytes }
    {
        Section {
            at: self.at,
            count: self.bytes / bytes,
        }
    }
}

// The pairs of the directory: settings, palette, references, modules, cells.
fn directory(file: &[u8]) -> [Pair; PAIRS]
    ensures is { result ≡ pairs.directory file.now }
    ensures small { (k : ℕ) → k < 5 → layout.length_of file.now k < 2 ^ 32 }
{
    [
        Pair::of(file, 0),
        Pair::of(file, 1),
        Pair::of(file, 2),
        Pair::of(file, 3),
        Pair::of(file, 4),
    ]
}

// Whether the sections do not lie end to end: the first directly after the directory, each next where the last ended,
// and the last ending the file.
fn bad_directory(file: &[u8]) -> bool
    ensures { result ≡ layout.bad_directory 5 file.now }
{
    let mut at = 8 * PAIRS;
    for pair in directory(file) {
        if pair.at != at {
            return true;
        }
        at += pair.bytes;
    }
    at != file.len()
}

// ---- the sections' lengths

// Whether the palette is not as long as one of as many hues as the settings say.
#[tactic(auto, unfolding(crate::specs::File::bad_palette))]
fn bad_palette(file: &[u8]) -> bool
    ensures { result ≡ layout.bad_palette 5 file.now }
{
    let hues = usize::from(byte_at(file, 8 * PAIRS + 3));
    Pair::of(file, 1).has_other_length(8 + 32 * hues)
}

// Whether a section's length does not fit what it holds.
#[tactic(auto, unfolding(crate::specs::File::bad_lengths))]
fn bad_lengths(file: &[u8]) -> bool
    ensures { result ≡ layout.bad_lengths 5 file.now }
{
    Pair::of(file, 0).has_other_length(8)
        || bad_palette(file)
        || Pair::of(file, 2).has_broken_record(32)
        || Pair::of(file, 3).has_broken_record(16)
        || Pair::of(file, 4).has_broken_record(16)
}

// Whether the side is above 64.
#[tactic(auto, unfolding(crate::specs::File::large_side))]
fn large_side(file: &[u8]) -> bool
    ensures { result ≡ layout.large_side 5 file.now }
{
    64 < u16::at(file, 8 * PAIRS)
}

// Sentence 1: the file exceeds 16,384 bytes, has a side above 64 or breaks its layout.
#[tactic(auto, unfolding(crate::specs::File::malformed))]
fn malformed(file: &[u8]) -> bool
    ensures { result ≡ layout.malformed 5 file.now }
{
    16384 < file.len()
        || file.len() < 8 * PAIRS
        || bad_directory(file)
        || bad_lengths(file)
        || large_side(file)
}

// ---- the card

// The settings, which start at `at`.
#[tactic(auto, unfolding(crate::specs::File::settings_at))]
fn settings_at(file: &[u8], at: usize) -> Settings
    requires { at ≤ 64 }
    ensures { result ≡ layout.settings_at file.now at }
{
    Settings {
        side: usize::from(u16::at(file, at)),
        version: byte_at(file, at + 2),
        hues: usize::from(byte_at(file, at + 3)),
        size: usize::from(byte_at(file, at + 4)),
        mask: byte_at(file, at + 5) % 8,
        grid: usize::from(u16::at(file, at + 6)),
    }
}

// What a well-formed file holds.
#[tactic(auto, unfolding(crate::specs::File::card_of, crate::specs::File::section_of))]
fn card_of(file: &[u8]) -> Card
    ensures { result ≡ layout.card_of 5 file.now }
{
    Card {
        settings: settings_at(file, 8 * PAIRS),
        palette: Pair::of(file, 1).at,
        references: Pair::of(file, 2).section(32),
        modules: Pair::of(file, 3).section(16),
        cells: Pair::of(file, 4).section(16),
    }
}

// Opens a card file: what it holds. Refused: 1.
// Twin: of `totals::mean` by its words alone; each has one test, one refusal and one answer of its own.
#[tactic(auto, unfolding(sentences::specs::Sentences::refusal, sentences::specs::Sentences::decided, crate::specs::File::opened))]
pub fn open(file: &[u8]) -> Result<Card, Refusal>
    ensures { said result ≡ layout.opened 5 file.now }
{
    if malformed(file) {
        return Err(Refusal::CardFile);
    }
    Ok(card_of(file))
}

// ---- the sections' numbers

// Writes `number_at(i)` at each place i.
fn put_each<T: Copy, F: Fn(usize) -> T>(out: &mut [T], number_at: F)
    requires { (i : ℕ) → i < length out.old → F.pre number_at i }
    ensures written { (i : ℕ) (d : T) → i < length out.old → F.post number_at i (slice_index_or out.new i d) }
{
    for (i, x) in out.iter_mut().enumerate() {
        *x = number_at(i);
    }
}

// Core: the numbers at `at` and every `stride` bytes on, as many as `out` is long. They stand 4 bytes apart in a palette
// of 2 + 8 × hues and in references of eight, and 16 bytes apart in modules and cells, at a section's start the x, 2 bytes
// on the y.
pub fn numbers<T: Stored>(file: &[u8], at: usize, stride: usize, out: &mut [T])
    requires room { Room at out.old }
    requires near { stride ≤ 16 }
    ensures { out.new ≡ sections.numbers T.stored file.now at stride (length out.old) out.old }
{
    put_each(out, |i| T::at(file, at + stride * i));
}

// Core: the colours of modules or cells, three f32 each, that stand 4 bytes behind each record's start, as many as `out`
// is long.
pub fn colours(file: &[u8], at: usize, out: &mut [f32])
    requires { Room at out.old }
    ensures { out.new ≡ sections.components file.now at (length out.old) out.old }
{
    put_each(out, |i| {
        f32::at(file, at + 16 * (i / 3) + 4 + 4 * (i % 3))
    });
}
