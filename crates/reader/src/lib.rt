// The reader of document 01 in one piece, from a card file's bytes to its listing's: the file is opened and decoded, and
// then the calls follow one another, fit, measure, score, refine, unmask and read, each handed what the one before it
// left. The first that refuses decides: its number is the one line that is listed.
//
//     let mut out = [0u8; listing::LISTING_ROOM];
//     let n = reader::read_card(&file, &mut out);      // out[..n] is the listing, or the line `refused N`
//
// The functions stand from the last call to the first; each makes one call and hands what it left to the next. Lists stand in
// arrays of fixed size, of which as much is lent as there is in the file: 16,384 bytes have room for 510 hues and references of
// 32 bytes, and for 1,020 modules and cells of 16.
#![tactic(auto)]

ghost use Rattle.std.specs.Prelude.{◌≡◌, ◌*◌, ◌≤◌, length, take};
ghost use Rattle.listing.specs.Text.{text, written};
ghost use Rattle.readout.specs.Decoded.{sheet_on};
ghost use Rattle.reader.specs.File.{Placed, sheet_of, references_of, Fits};
ghost use Rattle.reader.specs.Fitting as spec;
ghost use Rattle.reader.specs.Text.{card_text, listing_room};

use card::{Card, Section, Stored};
use illum::IlluminationModel;
use readout::Decoded;

// ---- the fit and the noise record

// Measures the noise record, and goes on.
fn measure_card(
    card: &Decoded<'_>,
    references: &[f32],
    model: IlluminationModel,
    out: &mut [u8],
) -> usize
    requires { length references.now ≤ 4080 }
    ensures listed { text result out.new ≡ written (spec.measure_text (sheet_on card.now) references.now model) (text 0 out.old) }
    ensures typed { spec.TypedModel model }
{
    let mut scratch = [0.0f32; 2040];
    let n = references.len() / 8;
    match measure::measure_flat(
        references,
        card.settings.side,
        model,
        card.palette,
        card.settings.hues,
        &mut scratch[..4 * n],
    ) {
        Err(refusal) => listing::refused_line(out, u32::from(refusal)),
        Ok(m) => card.read(model, m.noise, out),
    }
}

// Fits the illumination model, and goes on.
fn fit_card(card: &Decoded<'_>, references: &[f32], out: &mut [u8]) -> usize
    requires { length references.now ≤ 4080 }
    ensures { spec.Listed (sheet_on card.now) references.now result out.old out.new }
{
    let mut kept = [0u8; 510];
    let mut scratch = [0.0f32; 2040];
    let n = references.len() / 8;
    match fit::fit_flat(
        references,
        card.settings.side,
        card.settings.version,
        &mut kept[..n],
        &mut scratch[..4 * n],
    ) {
        Err(unfit) => listing::refused_line(out, u32::from(unfit)),
        Ok(model) => measure_card(card, references, model, out),
    }
}

// ---- the file

// Modules, or cells: their coordinates and their raw colours, of as many as their section has.
#[derive(Clone, Copy, Debug)]
struct Places<T> {
    xs: [T; 1020],
    ys: [T; 1020],
    raw: [f32; 3060],
}

impl<T: Stored> Places<T> {
    // Decodes a section; `blank` stands where it has no more.
    fn decode(file: &[u8], section: Section, blank: T) -> Places<T>
        requires { (section.at ≤ 16384) × (section.count ≤ 1020) }
        ensures { Placed T.stored file.now section.at section.count (take section.count result.xs) (take section.count result.ys) (take (3 * section.count) result.raw) }
    {
        let mut xs = [blank; 1020];
        let mut ys = [blank; 1020];
        let mut raw = [0.0f32; 3060];
        card::numbers(file, section.at, 16, &mut xs[..section.count]);
        card::numbers(file, section.at + 2, 16, &mut ys[..section.count]);
        card::colours(file, section.at, &mut raw[..3 * section.count]);
        Places { xs, ys, raw }
    }
}

// Reads the card of an accepted file: decodes its sections into lists that are as long as they are, and goes on.
fn read_opened(file: &[u8], card: Card, out: &mut [u8]) -> usize
    requires { Fits card }
    ensures { (text result out.new ≡ written (spec.fit_text (sheet_of file.now card) (references_of file.now card)) (text 0 out.old)) × (length (spec.fit_text (sheet_of file.now card) (references_of file.now card)) ≤ listing_room) }
{
    let mut palette = [0.0f32; 4082];
    let mut references = [0.0f32; 4080];
    let palette = &mut palette[..2 + 8 * card.settings.hues];
    let references = &mut references[..8 * card.references.count];
    card::numbers(file, card.palette, 4, palette);
    card::numbers(file, card.references.at, 4, references);
    let modules = Places::<i32>::decode(file, card.modules, 0);
    let cells = Places::<u16>::decode(file, card.cells, 0);
    let decoded = Decoded {
        settings: card.settings,
        palette,
        xs: &modules.xs[..card.modules.count],
        ys: &modules.ys[..card.modules.count],
        raw: &modules.raw[..3 * card.modules.count],
        cxs: &cells.xs[..card.cells.count],
        cys: &cells.ys[..card.cells.count],
        craw: &cells.raw[..3 * card.cells.count],
    };
    fit_card(&decoded, references, out)
}

// Reads a card file: writes its listing, or the one line `refused N`, and answers the text's length. Nothing is written before
// the last call is accepted. A byte that has no room in `out` is left out; `listing::LISTING_ROOM` bytes are room for every file.
pub fn read_card(file: &[u8], out: &mut [u8]) -> usize
    ensures { (text result out.new ≡ written (card_text file.now) (text 0 out.old)) × (length (card_text file.now) ≤ listing_room) }
{
    match card::open(file) {
        Err(refusal) => listing::refused_line(out, u32::from(refusal)),
        Ok(card) => read_opened(file, card, out),
    }
}
