// A card from its raw colours to its listing: the card is read in one call, `bits::read_bits`, and then it is listed. Where that
// call is refused, its number is the one line that is listed.
//
// Lists stand in arrays of fixed size, of which as much is lent as the call asks for. A card file of 16,384 bytes has room for
// 1,020 modules and cells of 16 bytes, and for 510 hues of 32 bytes, so that a symbol has at most 8 bits: 8,160 chroma scores. (A
// hue count that is not refused gives at most 4 bits.)
#![tactic(auto)]

ghost use Rattle.std.specs.Prelude.{◌≡◌, ◌≤◌, length};
ghost use Rattle.modulate.specs.Score.{unmask_luma_of};
ghost use Rattle.listing.specs.Text.{text, written};
ghost use Rattle.listing.specs.Listing as lines;
ghost use Rattle.bits.specs.Reading.{card};
ghost use Rattle.readout.specs.Sheet.{Few};
ghost use Rattle.readout.specs.Decoded.{sheet_on};
ghost use Rattle.readout.specs.Reading.{Listable};
ghost use Rattle.readout.specs.Reading as spec;

mod decoded;

use card::Settings;
pub use decoded::Decoded;
use illum::IlluminationModel;
use layout::Layout;
use listing::{ChromaLines, LumaLines};
use stats::ChannelStats;

// The memory that reading a card is lent: a score, three numbers of a colour and a bit a module, a score and a bit a place
// of the chroma score list, and the scratch of refinement.
#[derive(Debug, Drop)]
struct Lent<'a> {
    luma: &'a mut [f32],
    colours: &'a mut [f32],
    chroma: &'a mut [f32],
    scratch: &'a mut [f32],
    bits: &'a mut [u8],
    symbols: &'a mut [u8],
}

// The length of the chroma score list.
#[tactic(auto, using(crate::proofs::Places::places_are))]
fn chroma_places(settings: Settings, modules: usize, cells: usize) -> usize
    requires { Few settings modules cells }
    ensures { (result ≡ spec.places_of settings modules cells) × (result ≤ 8160) }
{
    let ring = limits::ring_modules(modules, settings.grid);
    let entries = limits::chroma_entries(cells, ring, settings.size);
    limits::symbol_bits(settings.hues) * entries
}

impl Decoded<'_> {
    // The layout that the settings say.
    fn layout(&self) -> Layout
        ensures { result ≡ spec.layout_of self.now.settings }
    {
        Layout {
            side: self.settings.side,
            hues: self.settings.hues,
            size: self.settings.size,
            grid: self.settings.grid,
        }
    }

    // Lists a card that was read. The listing has the luma scores as they were before unmasking, and to unmask them once
    // more by the same mask restores them.
    fn list_read(
        &self,
        model: IlluminationModel,
        luma: &mut [f32],
        chroma: &[f32],
        bits: &[u8],
        symbols: &[u8],
        out: &mut [u8],
    ) -> usize
        requires { Listable self.now.xs.now self.now.ys.now luma.old chroma.now bits.now symbols.now }
        ensures { text result out.new ≡ written (lines.listing model.terms model.kept model.rejected (length self.now.xs.now) self.now.xs.now self.now.ys.now (unmask_luma_of luma.old self.now.settings.side self.now.xs.now self.now.ys.now self.now.settings.grid self.now.settings.mask).list bits.now (length chroma.now) chroma.now symbols.now) (text 0 out.old) }
    {
        let Settings {
            side,
            grid,
            mask,
            ..
        } = self.settings;
        let _ = modulate::unmask_luma(luma, side, self.xs, self.ys, grid, mask);
        let modules = LumaLines {
            xs: self.xs,
            ys: self.ys,
            scores: luma,
            bits,
        };
        let places = ChromaLines {
            scores: chroma,
            bits: symbols,
        };
        // By hand: From has no conversion from u32 to usize.
        let (kept, rejected) = (model.kept as usize, model.rejected as usize);
        listing::listing(out, model.terms, kept, rejected, &modules, &places)
    }

    // Reads the card on lent memory, as `bits::read_bits` does, and lists it.
    fn list_on(
        &self,
        model: IlluminationModel,
        noise: ChannelStats,
        lent: Lent<'_>,
        out: &mut [u8],
    ) -> usize
        ensures { text result out.new ≡ written (spec.text_of (spec.setting_of (sheet_on self.now) model noise) (card self.now.raw.now self.now.craw.now lent.entry.luma.now lent.entry.colours.now lent.entry.chroma.now lent.entry.scratch.now lent.entry.bits.now lent.entry.symbols.now)) (text 0 out.old) }
    {
        let Lent {
            luma,
            colours,
            chroma,
            scratch,
            bits,
            symbols,
        } = lent;
        match bits::read_bits(
            self.layout(),
            self.xs,
            self.ys,
            self.raw,
            self.cxs,
            self.cys,
            self.craw,
            self.palette,
            self.settings.mask,
            model,
            noise,
            luma,
            colours,
            chroma,
            scratch,
            bits,
            symbols,
        ) {
            Err(refusal) => listing::refused_line(out, u32::from(refusal)),
            Ok(_) => self.list_read(model, luma, chroma, bits, symbols, out),
        }
    }

    // Core: reads the card from its raw colours, corrected by the model: writes its listing, or the line of the first
    // refusal, and answers the text's length.
    pub fn read(&self, model: IlluminationModel, noise: ChannelStats, out: &mut [u8]) -> usize
        ensures { text result out.new ≡ written (spec.score_text (sheet_on self.now) model noise) (text 0 out.old) }
    {
        let modules = self.xs.len();
        let places = chroma_places(self.settings, modules, self.cxs.len());
        let squares = (self.settings.side + 12) * (self.settings.side + 12);
        let mut luma = [0.0f32; 1020];
        let mut colours = [0.0f32; 3060];
        let mut chroma = [0.0f32; 8160];
        let mut scratch = [0.0f32; 5776];
        let mut bits = [0u8; 1020];
        let mut symbols = [0u8; 8160];
        let lent = Lent {
            luma: &mut luma[..modules],
            colours: &mut colours[..3 * modules],
            chroma: &mut chroma[..places],
            scratch: &mut scratch[..squares],
            bits: &mut bits[..modules],
            symbols: &mut symbols[..places],
        };
        self.list_on(model, noise, lent, out)
    }
}
