// The listing of document 01, written into a lent slice of bytes, line by line: `fit T K R`, `L x y HHHHHHHH b` for each
// module, `C i HHHHHHHH b` for each place of the chroma score list, or the one line `refused N`. Every line ends in one
// line feed.
//
// A cursor writes at its place and moves it on. A byte that has no room is left out and the place stays; in a slice of
// LISTING_ROOM bytes that happens to no card file (proofs/Room.antt). (`fmt::Write` would print the numbers by `write!`,
// but its contract says nothing of a write that fails, so not that none does.)
#![tactic(auto)]

ghost use Rattle.std.specs.Prelude.{◌≡◌, [], ◌∷◌, ◌≤◌, ◌<◌, length};
ghost use Rattle.std.specs.Float.{binary32};
ghost use Rattle.std.specs.Float.Ieee.{to_bits};
ghost use Rattle.listing.specs.Text.{text, written};
ghost use Rattle.listing.specs.Listing as lines;
ghost use Rattle.listing.specs.Writes.{Writes};

use std::num::f32_to_bits_with_nan;

// Room for the listing of every card file. A file of 16,384 bytes has room for 1,020 modules and cells of 16 bytes, so
// there are at most 1,020 L lines of 27 bytes and 4 × 1,020 C lines of 18, after a `fit` line of at most 67.
pub const LISTING_ROOM: usize = 101047;

// The hexadecimal digits, each at its value.
const HEX_DIGITS: [u8; 16] = *b"0123456789ABCDEF";

// Core: the modules of a listing, in list order: their coordinates, their scores and the bits read from these.
#[derive(Clone, Copy, Debug)]
pub struct LumaLines<'a> {
    pub xs: &'a [i32],
    pub ys: &'a [i32],
    pub scores: &'a [f32],
    pub bits: &'a [u8],
    ghost ys_long: { length xs.now ≤ length ys.now },
    ghost scores_long: { length xs.now ≤ length scores.now },
    ghost bits_long: { length xs.now ≤ length bits.now },
}

// Core: the chroma score list of a listing, and the bits read from it.
#[derive(Clone, Copy, Debug)]
pub struct ChromaLines<'a> {
    pub scores: &'a [f32],
    pub bits: &'a [u8],
    ghost long: { length scores.now ≤ length bits.now },
}

// A slice of bytes, and the place where the next byte goes.
#[derive(Debug, Drop)]
struct Cursor<'a> {
    out: &'a mut [u8],
    at: usize,
}

impl Cursor<'_> {
    // ---- bytes

    // One byte.
    #[tactic(auto, using(crate::proofs::Write::room, crate::proofs::Write::full))]
    fn put(&mut self, b: u8)
        ensures { Writes (b ∷ []) self.old self.new }
    {
        if self.at < self.out.len() {
            self.out[self.at] = b;
            self.at += 1;
        }
    }

    // One byte after the other.
    fn put_all(&mut self, bytes: &[u8])
        ensures { Writes bytes.now self.old self.new }
    {
        for &b in bytes {
            self.put(b);
        }
    }

    // ---- numbers

    // n in decimal digits: those of a tenth of it, then the last one.
    fn decimal(&mut self, n: usize)
        ensures { Writes (lines.decimal n) self.old self.new }
    {
        if 10 <= n {
            self.decimal(n / 10);
        }
        self.put(b'0' + (n % 10) as u8);
    }

    // v in decimal digits, a minus sign before a negative one.
    fn signed(&mut self, v: i32)
        ensures { Writes (lines.signed v) self.old self.new }
    {
        if v < 0 {
            self.put(b'-');
        }
        // By hand: From has no conversion from u32 to usize.
        self.decimal(v.unsigned_abs() as usize);
    }

    // n in eight hexadecimal digits, in upper case.
    fn hex(&mut self, n: u32)
        ensures { Writes (lines.hex 8 n) self.old self.new }
    {
        for byte in n.to_be_bytes() {
            self.put(HEX_DIGITS[usize::from(byte / 16)]);
            self.put(HEX_DIGITS[usize::from(byte % 16)]);
        }
    }

    // ---- lines

    // The end of a line: a score's bit pattern, 7FC00000 for a NaN, and the bit read from it.
    fn score_end(&mut self, score: f32, bit: u8)
        ensures { Writes (lines.score_end score bit) self.old self.new }
    {
        self.put(b' ');
        self.hex(f32_to_bits_with_nan(score));
        self.put(b' ');
        self.decimal(usize::from(bit));
        self.put(b'\n');
    }

    // fit T K R: the model's terms, and how many references were kept and rejected.
    fn fit_line(&mut self, terms: usize, kept: usize, rejected: usize)
        ensures { Writes (lines.fit_line terms kept rejected) self.old self.new }
    {
        self.put_all(b"fit ");
        self.decimal(terms);
        self.put(b' ');
        self.decimal(kept);
        self.put(b' ');
        self.decimal(rejected);
        self.put(b'\n');
    }

    // L x y HHHHHHHH b: a module, its score and its bit.
    fn luma_line(&mut self, x: i32, y: i32, score: f32, bit: u8)
        ensures { Writes (lines.luma_line x y score bit) self.old self.new }
    {
        self.put_all(b"L ");
        self.signed(x);
        self.put(b' ');
        self.signed(y);
        self.score_end(score, bit);
    }

    // C i HHHHHHHH b: a place of the chroma score list, counted from 0, its score and its bit.
    fn chroma_line(&mut self, place: usize, score: f32, bit: u8)
        ensures { Writes (lines.chroma_line place score bit) self.old self.new }
    {
        self.put_all(b"C ");
        self.decimal(place);
        self.score_end(score, bit);
    }

    // The L lines of all modules, in list order.
    fn luma_lines(&mut self, modules: &LumaLines<'_>)
        ensures { Writes (lines.luma_lines (length modules.now.xs.now) modules.now.xs.now modules.now.ys.now modules.now.scores.now modules.now.bits.now) self.old self.new }
    {
        let LumaLines {
            xs,
            ys,
            scores,
            bits,
        } = *modules;
        for (i, &x) in xs.iter().enumerate() {
            self.luma_line(x, ys[i], scores[i], bits[i]);
        }
    }

    // The C lines of all places of the chroma score list.
    fn chroma_lines(&mut self, places: &ChromaLines<'_>)
        ensures { Writes (lines.chroma_lines (length places.now.scores.now) places.now.scores.now places.now.bits.now) self.old self.new }
    {
        for (place, &score) in places.scores.iter().enumerate() {
            self.chroma_line(place, score, places.bits[place]);
        }
    }
}

// ---- the listing

// Core: the listing of a card that no call refused, and its length: the model's terms, how many references were kept and
// rejected, the luma scores before unmasking with the bits read from them after it, and the chroma score list with its bits.
pub fn listing(
    out: &mut [u8],
    terms: usize,
    kept: usize,
    rejected: usize,
    luma: &LumaLines<'_>,
    chroma: &ChromaLines<'_>,
) -> usize
    ensures { text result out.new ≡ written (lines.listing terms kept rejected (length luma.now.xs.now) luma.now.xs.now luma.now.ys.now luma.now.scores.now luma.now.bits.now (length chroma.now.scores.now) chroma.now.scores.now chroma.now.bits.now) (text 0 out.old) }
{
    let mut text = Cursor { out, at: 0 };
    text.fit_line(terms, kept, rejected);
    text.luma_lines(luma);
    text.chroma_lines(chroma);
    text.at
}

// Core: the one line of a card that was refused by this number, and its length.
pub fn refused_line(out: &mut [u8], number: u32) -> usize
    ensures { text result out.new ≡ written (lines.refused_line number) (text 0 out.old) }
{
    let mut text = Cursor { out, at: 0 };
    text.put_all(b"refused ");
    // By hand: From has no conversion from u32 to usize.
    text.decimal(number as usize);
    text.put(b'\n');
    text.at
}
