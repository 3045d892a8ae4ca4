// The promises about the definitions that the contracts of the other crates cite. Each is the contract of a function
// without code: it takes nothing, does nothing and ensures the promise, so a promise whose proof is gone, or that a
// changed definition makes false, fails this crate. The definitions are in the specs/ of the crates named below, the
// theorems in their proofs/.
#![tactic(auto, using(crate::proofs::Theorems::theorems))]

ghost use Rattle.guarantee.specs.Guarantee.{EachReadAtNine};
ghost use Rattle.promises.specs.Card.{Met, Worked};
ghost use Rattle.promises.specs.Premises.{ReadableAreSingles, DrawingAfterScoring};
ghost use Rattle.promises.specs.Floats.{NearestRoots};
ghost use Rattle.promises.specs.Colour.{SrgbFormula, NearestSrgb, BothWays, LightnessRises};
ghost use Rattle.promises.specs.Systems.{SolveKeepsTails};
ghost use Rattle.promises.specs.Order.{MiddleOfAny, AnyOrder};
ghost use Rattle.guarantee.specs.Erased.{NoneErasedInside, NoneErasedAtNine};
ghost use Rattle.reading.specs.Erasure.{Erasures};
ghost use Rattle.modulate.specs.Laws.{UnmaskingTwice, UnmaskedReads};
ghost use Rattle.promises.specs.Symbols.{GrayCode, NeighbouringHues, Rotations, DrawnIsRead};
ghost use Rattle.promises.specs.Model.{Moderate, IdentityReturns, FittedModels};
ghost use Rattle.promises.specs.Marks.{MarksByTheGain, HeldCounts};
ghost use Rattle.promises.specs.Noise.{ReliabilityRange, LumaLlrRange, MarginClauses, YesAtNine, MeasuredRecords};
ghost use Rattle.promises.specs.Scores.{ScoresInRange, ScoringAnswers};
ghost use Rattle.promises.specs.Window.{WindowInCoordinates};
ghost use Rattle.refine.specs.Sign.{StepKeepsSign, CallKeepsSign};
ghost use Rattle.page.specs.Laws.{Pages};
ghost use Rattle.promises.specs.Door.{FittedOnPages};
ghost use Rattle.promises.specs.Reading.{AcceptedIsListed, RoomForAll};
ghost use Rattle.promises.specs.Season.{OnlyNanUnfit};

// ---- the crate guarantee: whole cards (the read guarantee itself is the contract of `bits::read_bits`)

// At 9, bit by bit: a module whose refined score is no NaN is read as it was drawn, whatever the scores of the others
// are, and so is every chroma bit.
pub fn each_bit_at_nine()
    ensures { EachReadAtNine }
{}

// The guarantee's premises can be met, with chroma off and with chroma on, and at their edges: here are cards of each
// kind and the bits that are read from them. Two pairs of cards, of cell sizes 1 and 2, have every colour exactly half
// a sigma off and a palette that just passes the margin check; the cards of a pair share all but their bits and colours.
// A further card meets the premises at 9, and its palette just passes the check there, and fails it at 13.
pub fn premises_can_be_met()
    ensures { Met }
{}

// The guarantee's premise that the palette and the noise record hold f32 values holds of every card that `readcard`
// reads: the palette is decoded from the file, and the noise record measured, whatever the model.
pub fn readable_cards_are_singles()
    ensures { ReadableAreSingles }
{}

// Drawing in a layout and at places that scoring has accepted is refused by 5 or not at all: not exactly where there is
// a bit for each module and each chroma score, room for a level a module and, with chroma on, for a hue a place of the
// chroma list.
pub fn drawing_after_scoring()
    ensures { DrawingAfterScoring }
{}

// The definitions give document 01's worked examples, row by row.
pub fn worked_examples()
    ensures { Worked }
{}

// Inside the margin, on the premises of the read guarantee, no score reads as 2: no luma score as scoring, refinement or
// unmasking left it, and no chroma score. At 9 too, where no refined score is a NaN.
pub fn none_erased()
    ensures { NoneErasedInside × NoneErasedAtNine }
{}

// ---- the crate float

// The square root and the cube root of every f32 are the nearest f32 values, and no other value is as near. A zero,
// an infinity and a NaN are their own roots, and a square root below zero is NaN.
#[tactic(auto, using(crate::proofs::Theorems::roots))]
pub fn nearest_roots()
    ensures { NearestRoots }
{}

// ---- the crate color

// The curve that the sRGB bytes are rounded from is that of IEC 61966-2-1, as exact fractions: with v / 255 for the
// encoded value, up to 0.04045 it is that value / 12.92, and above it ((value + 0.055) / 1.055) ^ 2.4.
pub fn srgb_formula()
    ensures { SrgbFormula }
{}

// Of each of the 256 sRGB bytes the linear value is the f32 nearest to that curve, and no other value is as near.
pub fn nearest_srgb()
    ensures { NearestSrgb }
{}

// Black and white go to Lab and come back exactly, and the bytes 0 and 255 are 0 and 1. At the border between the
// two branches of Lab's function these meet within a unit in the last place, within two on the way back.
pub fn lab_both_ways()
    ensures { BothWays }
{}

// Lightness never falls as a colour's Y rises, for every Y that is no NaN.
pub fn lightness_rises()
    ensures { LightnessRises }
{}

// ---- the crate math

// `solve` writes within the n × n elements of the matrix, the n of the right-hand side and the n unknowns. Whatever n
// and its answer, each of the three slices that it is lent keeps its length and every element behind these.
pub fn solve_keeps_tails()
    ensures { SolveKeepsTails }
{}

// ---- the crate order

// The median of values without NaN is the middle one in order, of an even number half the sum of the middle pair, of
// none 0. Whatever the values, `median` leaves them all, in some order.
pub fn median_is_the_middle()
    ensures { MiddleOfAny }
{}

// The order in which values are given does not change their median, where none is a NaN and no zero is negative, nor
// the median of their distances from a number, where none of these is a NaN.
#[tactic(auto, using(crate::proofs::Theorems::any_order))]
pub fn median_in_any_order()
    ensures { AnyOrder }
{}

// ---- the crate modulate

// Gray code and its inverse undo each other. So do the ways from a symbol to its hue and back, where the hues are a
// power of two.
pub fn gray_code()
    ensures { GrayCode }
{}

// The symbols of neighbouring hues differ in exactly one bit, where the hues are a power of two from 2 up. The last hue
// and hue 0 are neighbours too.
pub fn neighbouring_hues()
    ensures { NeighbouringHues }
{}

// Rotations add up, over any hue count: applying two cells' rotations in turn is one rotation by their sum, that of the
// cell at the sums of their coordinates, in either order; removing undoes applying and applying removing, of hues below
// the count, and of the calls too: where one gives a hue, the other, handed that hue at the same cell, gives back the
// first's.
#[tactic(auto, using(symbols::proofs::Laws::rotations_add, symbols::proofs::Laws::calls_undo))]
pub fn hue_rotations()
    ensures { Rotations }
{}

// What is drawn is what is read: where a module's score has the sign of the level that it was drawn in, and where
// the hue that a cell or a ring module was drawn in is the likeliest, the bits read are the card's.
pub fn drawn_is_read()
    ensures { DrawnIsRead }
{}

// A score reads as 2 exactly where it is neither below nor above zero. Where its sign is turned, as unmasking turns it, a
// bit that is read is turned too, and 2 stays.
pub fn erasures()
    ensures { Erasures × UnmaskedReads }
{}

// Two calls of `unmask_luma` in a row, with one side, grid count and mask and the same positions, leave the scores as
// they were, signed zeros and the slice's tail too and a NaN for a NaN. This holds of every call, refused ones too.
pub fn unmasking_twice()
    ensures { UnmaskingTwice }
{}

// ---- the crate illum

// Where the model's numbers are from -8 to 8 and its side from 1 to 1,024, the position is from -side to twice the
// side and the raw colour from -256 to 256, the corrected colour does not break sentence 12.
pub fn moderate_colours()
    ensures { Moderate }
{}

// The model of `identity` corrects nothing: at every position of finite f32 values, each finite component of a colour
// comes back bit for bit, save that -0 comes back as +0. `correct` answers so for every colour that sentence 8 lets
// pass.
pub fn identity_returns_the_colour()
    ensures { IdentityReturns }
{}

// A channel's mark is set exactly where its gain at the position, before it is held, is under 0.05 in magnitude: at either
// zero, not at 0.05 itself, an infinity or a NaN. A channel without a mark is divided by its own gain, one with a mark by
// 0.05 of its gain's sign. The colour plays no part in the marks.
#[tactic(auto, using(crate::proofs::Marks::marks, crate::proofs::Marks::gains))]
pub fn marks_by_the_gain()
    ensures { MarksByTheGain }
{}

// ---- the crate stats

// The weight that a sample is given is a number from 0 to 1, whatever the noise record, the sample and the palette.
pub fn reliability_range()
    ensures { ReliabilityRange }
{}

// Before it is weighted, the luma score of a lightness is a number from -20 to 20, for every noise record that
// passes sentences 8 and 9, at every lightness that an accepted colour has.
pub fn luma_llr_range()
    ensures { LumaLlrRange }
{}

// Where the margin check says yes, each of its clauses holds, of every palette colour and hue.
pub fn margin_clauses()
    ensures { MarginClauses }
{}

// Where the margin check says yes at 13, it says yes at 9.
pub fn yes_at_nine()
    ensures { YesAtNine }
{}

// ---- the crates fit and measure

// The model of an accepted fit passes sentence 10, so no call refuses it by that. Either it counts no reference as
// kept, or the kept and the rejected ones are all.
pub fn fitted_models()
    ensures { FittedModels }
{}

// The noise record of an accepted measurement passes sentences 8 and 9, so no call refuses it by these, and holds
// f32 values.
pub fn measured_records()
    ensures { MeasuredRecords }
{}

// ---- the crate demod

// The luma scores that an accepted `score` leaves are numbers from -20 to 20, and the corrected colours are finite
// and at most 1,048,576 in magnitude.
pub fn scores_in_range()
    ensures { ScoresInRange }
{}

// What `score` leaves, number by number: where it is done every score and corrected colour is written and the rest
// of the lent memory stays; where it is refused nothing is written, and the number is that of the first sentence
// that holds.
pub fn scoring_answers()
    ensures { ScoringAnswers }
{}

// What an accepted measurement counts, and what an accepted `score` reports of its modules and of its cells: no more than
// there are, and 0 exactly where none of them has a mark. Under 8 references, and of cells with chroma off, it is 0.
pub fn held_counts()
    ensures { HeldCounts }
{}

// ---- the crate refine

// Which squares the 7 by 7 window of refinement looks at, for every side: place k, from 0 to 48, lies k % 7 - 3
// columns and k / 7 - 3 rows from the module in the middle. Outside the grid and the ring around it there is no
// luminance. The window's samples are those of the places whose luminance is known, the module's own too, in the
// order of k, each with its columns, its rows and its luminance; `count` is their number.
#[tactic(auto, using(crate::proofs::Window::looks_at, crate::proofs::Window::looks_at_position, crate::proofs::Window::middle, crate::proofs::Window::samples))]
pub fn window_in_coordinates()
    ensures { WindowInCoordinates }
{}

// A score above 8 in magnitude keeps its sign through refinement where the refined score is no NaN: for every f32
// score, in one module's step whatever its colour, window, palette, noise record and levels, and of every entry of a
// call's list, refused calls too.
pub fn signs_kept()
    ensures { StepKeepsSign × CallKeepsSign }
{}

// ---- the crate page

// What every call of `page` leaves, byte by byte. Accepted: side + 1 lines, each of 50 columns and then its only line feed;
// the digits of the side, the terms, kept, rejected and the modules that have a mark, each number's last one in its tenth
// column, with spaces before the first; on each square of the grid how the last module that is listed there reads, or a dot
// where none is; and the rest of the slice as it was. Refused: the whole slice as it was.
pub fn every_page()
    ensures { Pages }
{}

// The terms, kept and rejected of the model of an accepted fit, and the modules that an accepted `score` reports, never meet
// sentence 10 or 6 of `page`: the terms are 4 or 9, both counts of references at most 16,384, and that of modules at most
// 1,048,576.
pub fn fitted_models_on_pages()
    ensures { FittedOnPages }
{}

// ---- the crate totals

// Sentence 19 holds of a score that scoring and refinement left exactly where it is a NaN: `add_card` takes every card
// without one, up to the batch's limit.
pub fn only_a_nan_is_unfit()
    ensures { OnlyNanUnfit }
{}

// ---- the crates bits, readout and reader

// Where scoring is accepted, refinement, unmasking and reading are refused by lengths alone: `read_bits` is not refused
// where scratch has (side + 12)² floats, and there is a bit for each luma score and for each chroma score that is lent.
// So a card file that opens, and whose fit, measurement and scoring are accepted, is read as its listing.
pub fn accepted_is_listed()
    ensures { AcceptedIsListed }
{}

// `listing::LISTING_ROOM` bytes hold the whole text of every card file, and the bytes behind the text stay as they
// were.
pub fn room_for_every_listing()
    ensures { RoomForAll }
{}
