// What calls answer, as structs that C can take: document 01's number, 0 where the call is accepted, and the values, zeros where
// there are none.
// Twin: a `From` for one struct differs from another's in the struct and the names of its fields.
// Structs of C: C has no generic structs, so each kind of value has a struct of its own, with its number beside it.
ghost use Rattle.std.specs.Prelude.{◌≡◌};
ghost use Rattle.std.proofs.Math.Option.{get_or};
ghost use Rattle.answers.specs.Answers.{said};
ghost use Rattle.illum.specs.Refusals.{model_said};
ghost use Rattle.exports.specs.Replies as spec;

use answers::Refusal;
use color::Linear;
use demod::ScoreReport;
use illum::{IlluminationModel, Marked};
use margin::Threshold;
use measure::Measurement;
use modulate::Cell;
use stats::ChannelStats;
use totals::{Ratio, Totals};

// The noise record that stands where there is none.
const NO_RECORD: ChannelStats = ChannelStats {
    l0: 0.0,
    l1: 0.0,
    sigma_l: 0.0,
    sigma_ab: 0.0,
    sigma_ab_dark: 0.0,
    sigma_ab_light: 0.0,
    samples: 0,
};

// Whether a linear system was solved.
#[repr(C)]
#[derive(Clone, Copy, Debug)]
pub struct SolveAnswer {
    pub number: u32,
    pub solved: bool,
}

// A whole number.
#[repr(C)]
#[derive(Clone, Copy, Debug)]
pub struct NumberAnswer {
    pub number: u32,
    pub value: usize,
}

// Yes or no.
#[repr(C)]
#[derive(Clone, Copy, Debug)]
pub struct FlagAnswer {
    pub number: u32,
    pub yes: bool,
}

// A float.
#[repr(C)]
#[derive(Clone, Copy, Debug)]
pub struct FloatAnswer {
    pub number: u32,
    pub value: f32,
}

// A corrected colour, and the channels whose gain was held.
#[repr(C)]
#[derive(Clone, Copy, Debug)]
pub struct LinearAnswer {
    pub number: u32,
    pub colour: Linear,
    pub held_r: bool,
    pub held_g: bool,
    pub held_b: bool,
}

// An illumination model.
#[repr(C)]
#[derive(Clone, Copy, Debug)]
pub struct ModelAnswer {
    pub number: u32,
    pub model: IlluminationModel,
}

// A noise record.
#[repr(C)]
#[derive(Clone, Copy, Debug)]
pub struct NoiseAnswer {
    pub number: u32,
    pub noise: ChannelStats,
}

// Totals.
#[repr(C)]
#[derive(Clone, Copy, Debug)]
pub struct TotalsAnswer {
    pub number: u32,
    pub totals: Totals,
}

// A fraction.
#[repr(C)]
#[derive(Clone, Copy, Debug)]
pub struct RatioAnswer {
    pub number: u32,
    pub ratio: Ratio,
}

// A measured noise record, and how many of its references have a mark.
#[repr(C)]
#[derive(Clone, Copy, Debug)]
pub struct MeasureAnswer {
    pub number: u32,
    pub noise: ChannelStats,
    pub held: usize,
}

// How many modules and how many cells have a mark.
#[repr(C)]
#[derive(Clone, Copy, Debug)]
pub struct ScoreAnswer {
    pub number: u32,
    pub held_modules: usize,
    pub held_cells: usize,
}

// Document 01's number of an answer, and its value, or `none` where it gives none.
fn parts<T: Copy>(answer: Result<T, Refusal>, none: T) -> (u32, T)
    ensures number { result.0 ≡ (said answer).number }
    ensures value { result.1 ≡ get_or (said answer).value none }
{
    match answer {
        Ok(value) => (0, value),
        Err(refusal) => (u32::from(refusal), none),
    }
}

// Of `solve`, `finish` and `least_squares`.
impl From<Result<bool, Refusal>> for SolveAnswer {
    ghost from_gives = { λ answer reply. reply ≡ spec.solve_answer (said answer) };

    #[tactic(auto, unfolding(crate::specs::Replies::struct_of))]
    fn from(answer: Result<bool, Refusal>) -> SolveAnswer {
        let (number, solved) = parts(answer, false);
        SolveAnswer { number, solved }
    }
}

// Of the calls that give a number.
impl From<Result<usize, Refusal>> for NumberAnswer {
    ghost from_gives = { λ answer reply. reply ≡ spec.number_answer (said answer) };

    #[tactic(auto, unfolding(crate::specs::Replies::struct_of))]
    fn from(answer: Result<usize, Refusal>) -> NumberAnswer {
        let (number, value) = parts(answer, 0);
        NumberAnswer { number, value }
    }
}

// Of `margin`, `margin_at` and `palette::is_empty`.
impl From<Result<bool, Refusal>> for FlagAnswer {
    ghost from_gives = { λ answer reply. reply ≡ spec.flag_answer (said answer) };

    #[tactic(auto, unfolding(crate::specs::Replies::struct_of))]
    fn from(answer: Result<bool, Refusal>) -> FlagAnswer {
        let (number, yes) = parts(answer, false);
        FlagAnswer { number, yes }
    }
}

// Of `mad_sigma`, `sigma_ab_at`, `luma_llr` and `reliability`.
impl From<Result<f32, Refusal>> for FloatAnswer {
    ghost from_gives = { λ answer reply. reply ≡ spec.float_answer (said answer) };

    #[tactic(auto, unfolding(crate::specs::Replies::struct_of))]
    fn from(answer: Result<f32, Refusal>) -> FloatAnswer {
        let (number, value) = parts(answer, 0.0);
        FloatAnswer { number, value }
    }
}

// Of `correct`.
impl From<Result<Marked, Refusal>> for LinearAnswer {
    ghost from_gives = { λ answer reply. reply ≡ spec.linear_answer (said answer) };

    #[tactic(auto, unfolding(crate::specs::Replies::struct_of))]
    fn from(answer: Result<Marked, Refusal>) -> LinearAnswer {
        let none = Marked {
            colour: Linear {
                r: 0.0,
                g: 0.0,
                b: 0.0,
            },
            held_r: false,
            held_g: false,
            held_b: false,
        };
        let (number, marked) = parts(answer, none);
        LinearAnswer {
            number,
            colour: marked.colour,
            held_r: marked.held_r,
            held_g: marked.held_g,
            held_b: marked.held_b,
        }
    }
}

// Of `identity` and `fit`.
impl From<Result<IlluminationModel, Refusal>> for ModelAnswer {
    ghost from_gives = { λ answer reply. reply ≡ spec.model_answer (model_said answer) };

    #[tactic(auto, unfolding(crate::specs::Replies::struct_of))]
    fn from(answer: Result<IlluminationModel, Refusal>) -> ModelAnswer {
        let (number, model) = parts(answer, illum::no_model());
        ModelAnswer { number, model }
    }
}

// Of `nominal`.
impl From<Result<ChannelStats, Refusal>> for NoiseAnswer {
    ghost from_gives = { λ answer reply. reply ≡ spec.noise_answer (said answer) };

    #[tactic(auto, unfolding(crate::specs::Replies::struct_of))]
    fn from(answer: Result<ChannelStats, Refusal>) -> NoiseAnswer {
        let (number, noise) = parts(answer, NO_RECORD);
        NoiseAnswer { number, noise }
    }
}

// Of `measure` and `measure_flat`.
impl From<Result<Measurement, Refusal>> for MeasureAnswer {
    ghost from_gives = { λ answer reply. reply ≡ spec.measure_answer (said answer) };

    #[tactic(auto, unfolding(crate::specs::Replies::struct_of))]
    fn from(answer: Result<Measurement, Refusal>) -> MeasureAnswer {
        let none = Measurement {
            noise: NO_RECORD,
            held: 0,
        };
        let (number, measured) = parts(answer, none);
        MeasureAnswer {
            number,
            noise: measured.noise,
            held: measured.held,
        }
    }
}

// Of `score` and `read_bits`.
impl From<Result<ScoreReport, Refusal>> for ScoreAnswer {
    ghost from_gives = { λ answer reply. reply ≡ spec.score_answer (said answer) };

    #[tactic(auto, unfolding(crate::specs::Replies::struct_of))]
    fn from(answer: Result<ScoreReport, Refusal>) -> ScoreAnswer {
        let none = ScoreReport {
            held_modules: 0,
            held_cells: 0,
        };
        let (number, report) = parts(answer, none);
        ScoreAnswer {
            number,
            held_modules: report.held_modules,
            held_cells: report.held_cells,
        }
    }
}

// Of `add_card` and `add_totals`.
impl From<Result<Totals, Refusal>> for TotalsAnswer {
    ghost from_gives = { λ answer reply. reply ≡ spec.totals_answer (said answer) };

    #[tactic(auto, unfolding(crate::specs::Replies::struct_of, totals::specs::Batch::of_cards))]
    fn from(answer: Result<Totals, Refusal>) -> TotalsAnswer {
        let (number, totals) = parts(answer, totals::empty_totals());
        TotalsAnswer { number, totals }
    }
}

// Of `mean`.
impl From<Result<Ratio, Refusal>> for RatioAnswer {
    ghost from_gives = { λ answer reply. reply ≡ spec.ratio_answer (said answer) };

    #[tactic(auto, unfolding(crate::specs::Replies::struct_of))]
    fn from(answer: Result<Ratio, Refusal>) -> RatioAnswer {
        let none = Ratio {
            numerator: 0,
            denominator: 0,
        };
        let (number, ratio) = parts(answer, none);
        RatioAnswer { number, ratio }
    }
}

// Where a chroma entry is drawn: the cell (cx, cy), or, where no mask lies on it, a ring module.
pub fn cell_of(masked: bool, cx: u16, cy: u16) -> Cell
    ensures { result ≡ spec.cell_of masked cx cy }
{
    if masked {
        Cell::At(cx, cy)
    } else {
        Cell::Unmasked
    }
}

// The setting of the margin check: 9, or 13.
pub fn threshold_of(nine: bool) -> Threshold
    ensures { result ≡ spec.threshold_of nine }
{
    if nine {
        Threshold::Nine
    } else {
        Threshold::Thirteen
    }
}
