// A read card laid out on a page of text, for the panel door. Line one gives the side, the terms, how many references
// were kept and rejected, and how many modules were corrected by a gain that was held, each right-aligned in ten columns.
// Below it stands every row of the grid, y from 0 down, one column a module: 0, 1 or 2 as its luma score reads, or a dot
// where no listed module stands. Each line is padded to 50 columns and ends in one line feed.
//
// A first use: after `score`, which reports the modules whose gain was held, and `unmask_luma`,
//     let mut out = [0u8; page::PAGE_ROOM];
//     page::page(side, model.terms, model.kept, model.rejected, report.held_modules, &xs, &ys, grid, &luma, &mut out)
// lays the card out in the first 51 × (side + 1) bytes.
#![tactic(auto)]

ghost use Rattle.std.specs.Prelude.{◌≡◌, ◌+◌, ◌<◌, ◌≤◌, pos, length, get_or};
ghost use Rattle.sentences.specs.Sentences.{refusal};
ghost use Rattle.answers.specs.Answers.{ended, outcome_number};
ghost use Rattle.page.specs.Lines.{page_length, modules};
ghost use Rattle.page.specs.Steps as step;
ghost use Rattle.page.specs.Calls as call;

use answers::Refusal;
use layout::Modules;

// The columns of a line; a line feed comes after them.
pub const COLUMNS: usize = 50;

// The widest grid that is laid out.
pub const WIDEST: usize = 40;

// Room for every page: 41 lines of 51 bytes, where the side is 40.
pub const PAGE_ROOM: usize = 2091;

// ---- line one

// The byte of n's field that stands k places from its right end: a digit, or a space before the first one.
fn field_byte(n: usize, k: usize) -> u8
    ensures { result ≡ step.field_byte k n }
{
    let mut left = n;
    for _i in 0..k {
        if left < 10 {
            return b' ';
        }
        left /= 10;
    }
    b'0' + (left % 10) as u8
}

// ---- the page without modules

// How many bytes the page of a card of this side has.
fn page_length(side: usize) -> usize
    requires { side ≤ 1024 }
    ensures { result ≡ page_length side }
{
    (COLUMNS + 1) * (side + 1)
}

// Byte k of a page that has no module on its grid.
#[tactic(auto, unfolding(crate::specs::Steps::blank_byte))]
fn blank_byte(numbers: &[usize], side: usize, k: usize) -> u8
    requires { 5 ≤ length numbers.now }
    ensures { result ≡ step.blank_byte numbers.now side k }
{
    let column = k % (COLUMNS + 1);
    if column == COLUMNS {
        b'\n'
    } else if k < COLUMNS {
        field_byte(numbers[k / 10], 9 - k % 10)
    } else if column < side {
        b'.'
    } else {
        b' '
    }
}

// All of them.
fn lay_blank(numbers: &[usize], side: usize, out: &mut [u8])
    requires { (5 ≤ length numbers.now) × step.RoomFor side out.old }
    ensures { out.new ≡ step.blank_page numbers.now side out.old }
{
    for (k, byte) in out[..page_length(side)].iter_mut().enumerate() {
        *byte = blank_byte(numbers, side, k);
    }
}

// ---- the modules

// What is shown on the grid: a card's listed modules, with their unmasked luma scores.
#[derive(Clone, Copy, Debug)]
struct Shown<'a> {
    modules: Modules<'a>,
    luma: &'a [f32],
    ghost scored: { length modules.xs.now ≤ length luma.now },
}

impl Shown<'_> {
    // The digit of module i, which has this score, on its square, where it stands on the grid.
    fn show(&self, i: usize, score: f32, out: &mut [u8])
        requires { step.RoomFor self.now.modules.side out.old × (i < length self.now.modules.xs.now) }
        ensures { out.new ≡ step.show_score self.now.modules.side (get_or self.now.modules.xs.now i (pos 0)) (get_or self.now.modules.ys.now i (pos 0)) score out.old }
    {
        let Modules { side, xs, ys, .. } = self.modules;
        if self.modules.off_grid_at(i) {
            return;
        }
        let x = usize::from(places::coordinate_at(side, xs, i));
        let y = usize::from(places::coordinate_at(side, ys, i));
        out[(COLUMNS + 1) * (y + 1) + x] = b'0' + reading::read(score);
    }

    // Every module's digit, in list order: of several at one position the last stays.
    fn show_all(&self, out: &mut [u8])
        requires { step.RoomFor self.now.modules.side out.old }
        ensures { out.new ≡ step.show_all (modules self.now.modules.side self.now.modules.xs.now self.now.modules.ys.now self.now.luma.now) out.old }
    {
        for (i, &score) in self.luma[..self.modules.len()].iter().enumerate() {
            self.show(i, score, out);
        }
    }
}

// ---- the call

// What a call is asked to lay out: the listed modules of a card, of which the first `grid` are grid modules, with their
// unmasked luma scores, and the figures of line one.
#[derive(Clone, Copy, Debug)]
struct Sheet<'a> {
    side: usize,
    terms: usize,
    kept: u32,
    rejected: u32,
    held: usize,
    xs: &'a [i32],
    ys: &'a [i32],
    grid: usize,
    luma: &'a [f32],
}

impl Sheet<'_> {
    // The numbers of line one.
    fn numbers(&self) -> [usize; 5]
        ensures { result ≡ call.numbers_on self.now }
    {
        // By hand: From has no conversion from u32 to usize.
        let (kept, rejected) = (self.kept as usize, self.rejected as usize);
        [self.side, self.terms, kept, rejected, self.held]
    }

    // Sentence 5: x and y run in pairs, there is a score for each module, and room for the page.
    #[tactic(auto, unfolding(crate::specs::Calls::short_slices))]
    fn short_slices(&self, out: &[u8]) -> bool
        requires { self.now.side ≤ 1024 }
        ensures { result ≡ call.short_slices self.now.side (length self.now.xs.now) (length self.now.ys.now) (length self.now.luma.now) (length out.now) }
    {
        self.xs.len() != self.ys.len()
            || self.luma.len() < self.xs.len()
            || out.len() < page_length(self.side)
    }

    // Sentence 6, of the counts that are shown: one of the model's is above 16,384, or that of the modules above 1,048,576.
    #[tactic(auto, unfolding(crate::specs::Calls::bad_tally))]
    fn bad_tally(&self) -> bool
        ensures { result ≡ call.bad_tally self.now.kept self.now.rejected self.now.held }
    {
        16384 < self.kept || 16384 < self.rejected || 1048576 < self.held
    }

    // Whether the sheet can be laid out on `out`. Refused: 2, 5, 6, 7, 10, 14, of which 6 and 7 of the modules by the
    // group that calls share.
    fn check(&self, out: &[u8]) -> Result<(), Refusal>
        ensures { outcome_number result ≡ refusal (call.sentences_of (call.request_on self.now out.now)) }
    {
        if limits::bad_side(self.side) {
            return Err(Refusal::Side);
        }
        if self.short_slices(out) {
            return Err(Refusal::Length);
        }
        if self.bad_tally() {
            return Err(Refusal::Count);
        }
        layout::check_modules(self.side, self.grid, self.xs, self.ys)?;
        if illum::bad_terms(self.terms) {
            return Err(Refusal::Model);
        }
        if WIDEST < self.side {
            return Err(Refusal::Page);
        }
        Ok(())
    }
}

// Lays a read card out as side + 1 lines of 50 columns and a line feed, from a model's terms and its counts of kept and
// rejected references, scoring's count of modules that have a mark (`held`), the listed modules, of which the first `grid`
// are grid modules, and their unmasked luma scores. Every float is accepted as a score; NaN and both zeros show as 2. A ring module that stands on the grid shows too, one outside
// it does not, and of several modules at one position the last listed one shows. The rest of a longer slice stays.
// Refused: 2, 5 (fewer than 51 × (side + 1) bytes too), 6 (kept or rejected above 16,384, or held above 1,048,576, too), 7, 10, 14 (the side is above 40);
// nothing is written then.
// Slices: the call is public, and the C interface lends them so.
pub fn page(
    side: usize,
    terms: usize,
    kept: u32,
    rejected: u32,
    held: usize,
    xs: &[i32],
    ys: &[i32],
    grid: usize,
    luma: &[f32],
    out: &mut [u8],
) -> Result<(), Refusal>
    ensures { ended result out.new ≡ call.page_of (call.request side terms kept rejected held xs.now ys.now grid luma.now out.old) }
{
    let sheet = Sheet {
        side,
        terms,
        kept,
        rejected,
        held,
        xs,
        ys,
        grid,
        luma,
    };
    sheet.check(out)?;
    let shown = Shown {
        modules: Modules::new(side, grid, xs, ys),
        luma,
    };
    lay_blank(&sheet.numbers(), side, out);
    shown.show_all(out);
    Ok(())
}
