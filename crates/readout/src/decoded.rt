// A decoded card, and what it keeps of how much there is in a card file.
ghost use Rattle.std.specs.Prelude.{◌≡◌, length};
ghost use Rattle.readout.specs.Sheet.{Few};

use card::Settings;

// Core: a card as it was decoded from a file of at most 16,384 bytes: its settings and its palette, the positions and raw
// colours of its modules, and the coordinates and raw colours of its cells.
#[derive(Clone, Copy, Debug)]
pub struct Decoded<'a> {
    pub settings: Settings,
    pub palette: &'a [f32],
    pub xs: &'a [i32],
    pub ys: &'a [i32],
    pub raw: &'a [f32],
    pub cxs: &'a [u16],
    pub cys: &'a [u16],
    pub craw: &'a [f32],
    ghost few: { Few settings (length xs.now) (length cxs.now) },
    ghost pairs: { length ys.now ≡ length xs.now },
}
