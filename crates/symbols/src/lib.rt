// Symbols, hues and masks: Gray code, by which symbols of neighbouring hues differ in one bit, the luma masks and the rotation of
// the hues (the Rust's symbol.rs and mask.rs).
#![tactic(auto)]

ghost use Rattle.std.specs.Prelude.{◌≡◌, ◌/◌, ◌%◌, ◌<◌, ◌≤◌};
ghost use Rattle.sentences.specs.Sentences.{refusal};
ghost use Rattle.answers.specs.Answers.{said, outcome_number, answered, hues_only, hues_and_cell};
ghost use Rattle.symbols.specs.Gray as gray_code;
ghost use Rattle.symbols.specs.Mask as masks;

use answers::Refusal;

// ---- Gray code

// The reflected binary code of n: the codes of n and n + 1 differ in one bit. Refuses nothing.
#[tactic(auto, unfolding(crate::specs::Gray::gray))]
pub fn gray(n: usize) -> usize
    ensures { result ≡ gray_code.gray n }
{
    n ^ (n / 2)
}

// The number whose reflected binary code is g. Refuses nothing.
pub fn gray_inverse(g: usize) -> usize
    ensures { result ≡ gray_code.gray_inverse g }
{
    let mut n: usize = 0;
    let mut left = g;
    while left != 0 {
        n ^= left;
        left /= 2;
    }
    n
}

// A hue count: at least one hue.
// Slices: `count` is of hues, and no length of a buffer.
#[derive(Clone, Copy, Debug)]
pub struct Hues {
    pub count: usize,
    ghost least: { 0 < count },
}

impl Hues {
    // The remainder by the hue count: by a constant, which takes no division, for the counts above 1 that cards have.
    // Number: a `match` becomes a table of jumps, with which a cell's bit scores take 1.4 times the instructions.
    fn remainder(self, n: usize) -> usize
        ensures { result ≡ n % self.count }
    {
        if self.count == 2 {
            return n % 2;
        }
        if self.count == 4 {
            return n % 4;
        }
        if self.count == 8 {
            return n % 8;
        }
        if self.count == 16 {
            return n % 16;
        }
        n % self.count
    }

    // Core: the hue state of a chroma symbol.
    // Twin: of `symbol_of`; what differs is the code between the two remainders.
    #[tactic(auto, unfolding(crate::specs::Gray::chroma_symbol_to_hue))]
    pub fn hue_of(self, symbol: usize) -> usize
        ensures { result ≡ gray_code.chroma_symbol_to_hue symbol self.count }
    {
        self.remainder(gray_inverse(self.remainder(symbol)))
    }

    // Core: the chroma symbol of a hue state.
    // Twin: of `hue_of`.
    #[tactic(auto, unfolding(crate::specs::Gray::hue_to_chroma_symbol))]
    pub fn symbol_of(self, hue: usize) -> usize
        ensures { result ≡ gray_code.hue_to_chroma_symbol hue self.count }
    {
        self.remainder(gray(self.remainder(hue)))
    }

    // By how many hues a cell is rotated.
    #[tactic(auto, unfolding(crate::specs::Mask::chroma_rotation))]
    fn rotation(self, cx: u16, cy: u16) -> usize
        ensures { (result ≡ masks.chroma_rotation cx cy self.count) × (result < self.count) }
    {
        self.remainder(usize::from(cx) + usize::from(cy))
    }

    // Core: `chroma_mask_apply` without its refusals, of so few hues that no sum of two wraps.
    pub fn apply(self, hue: usize, cx: u16, cy: u16) -> usize
        requires { self.count ≤ 16 }
        ensures { result ≡ masks.chroma_mask_apply hue cx cy self.count }
    {
        self.remainder(self.remainder(hue) + self.rotation(cx, cy))
    }

    // Core: `chroma_mask_remove` without its refusals, of so few hues that no sum of two wraps.
    pub fn remove(self, hue: usize, cx: u16, cy: u16) -> usize
        requires { self.count ≤ 16 }
        ensures { result ≡ masks.chroma_mask_remove hue cx cy self.count }
    {
        self.remainder(self.remainder(hue) + self.count - self.rotation(cx, cy))
    }
}

// The hue state of a chroma symbol: neighbours on the colour wheel differ in one bit of the symbol. Refused: 3.
// Twin: of `hue_to_chroma_symbol`.
#[tactic(auto, using(crate::proofs::Refused::of_hues))]
pub fn chroma_symbol_to_hue(symbol: usize, hues: usize) -> Result<usize, Refusal>
    ensures { said result ≡ answered (hues_only hues) (gray_code.chroma_symbol_to_hue symbol hues) }
{
    if limits::bad_hues(hues) {
        return Err(Refusal::Hues);
    }
    let known = Hues { count: hues };
    Ok(known.hue_of(symbol))
}

// The chroma symbol of a hue state. Refused: 3.
// Twin: of `chroma_symbol_to_hue`, which C calls beside it; what differs is one call of a core.
#[tactic(auto, using(crate::proofs::Refused::of_hues))]
pub fn hue_to_chroma_symbol(hue: usize, hues: usize) -> Result<usize, Refusal>
    ensures { said result ≡ answered (hues_only hues) (gray_code.hue_to_chroma_symbol hue hues) }
{
    if limits::bad_hues(hues) {
        return Err(Refusal::Hues);
    }
    let known = Hues { count: hues };
    Ok(known.symbol_of(hue))
}

// ---- masks

// The third of x, rounded down, without a division: 43,691 is a third of 2^17, rounded up (proofs/Thirds.antt).
fn third(x: u16) -> u32
    ensures { result ≡ x / 3 }
{
    (u32::from(x) * 43691) >> 17
}

// Whether mask `id`, of which the low three bits count, turns the luma bit of the module at (x, y). Refuses nothing.
#[tactic(auto, unfolding(crate::specs::Mask::luma_mask, crate::specs::Mask::mask_rules))]
pub fn luma_mask(id: u8, x: u16, y: u16) -> bool
    ensures { result ≡ masks.luma_mask id x y }
{
    let c = u32::from(x);
    let r = u32::from(y);
    match id % 8 {
        0 => (r + c) % 2 == 0,
        1 => r % 2 == 0,
        2 => c % 3 == 0,
        3 => (r + c) % 3 == 0,
        4 => (r / 2 + third(x)) % 2 == 0,
        5 => r * c % 2 + r * c % 3 == 0,
        6 => (r * c % 2 + r * c % 3) % 2 == 0,
        _ => ((r + c) % 2 + r * c % 3) % 2 == 0,
    }
}

// Core: whether a hue count and a cell pass. Refused: 3, 7.
#[tactic(auto, unfolding(sentences::specs::Sentences::refusal))]
pub fn check_cell(hues: usize, cx: u16, cy: u16) -> Result<(), Refusal>
    ensures { outcome_number result ≡ refusal (hues_and_cell hues cx cy) }
{
    if limits::bad_hues(hues) {
        return Err(Refusal::Hues);
    }
    if limits::bad_cell(cx, cy) {
        return Err(Refusal::Place);
    }
    Ok(())
}

// By how many hues the cell (cx, cy) is rotated. Refused: 3, 7.
#[tactic(auto, using(crate::proofs::Refused::of_cell))]
pub fn chroma_rotation(cx: u16, cy: u16, hues: usize) -> Result<usize, Refusal>
    ensures { said result ≡ answered (hues_and_cell hues cx cy) (masks.chroma_rotation cx cy hues) }
{
    check_cell(hues, cx, cy)?;
    let known = Hues { count: hues };
    Ok(known.rotation(cx, cy))
}

// The hue that the cell (cx, cy) draws for `hue`, of which the remainder by `hues` counts. Refused: 3, 7.
// Twin: of `chroma_mask_remove`.
#[tactic(auto, using(crate::proofs::Refused::of_cell))]
pub fn chroma_mask_apply(hue: usize, cx: u16, cy: u16, hues: usize) -> Result<usize, Refusal>
    ensures { said result ≡ answered (hues_and_cell hues cx cy) (masks.chroma_mask_apply hue cx cy hues) }
{
    check_cell(hues, cx, cy)?;
    let known = Hues { count: hues };
    Ok(known.apply(hue, cx, cy))
}

// The hue that the cell (cx, cy) drew as `hue`, of which the remainder by `hues` counts. Refused: 3, 7.
// Twin: of `chroma_mask_apply`, which C calls beside it; what differs is one call of a core.
#[tactic(auto, using(crate::proofs::Refused::of_cell))]
pub fn chroma_mask_remove(hue: usize, cx: u16, cy: u16, hues: usize) -> Result<usize, Refusal>
    ensures { said result ≡ answered (hues_and_cell hues cx cy) (masks.chroma_mask_remove hue cx cy hues) }
{
    check_cell(hues, cx, cy)?;
    let known = Hues { count: hues };
    Ok(known.remove(hue, cx, cy))
}
