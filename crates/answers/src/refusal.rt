// Why a call is refused: document 01's sentences, each with its number.
ghost use Rattle.std.specs.Prelude.{◌≡◌};
ghost use Rattle.answers.specs.Answers.{number_of, Decodes};

use std::error::Error;
use std::fmt;

/// A number that no sentence of document 01 has.
#[derive(Clone, Copy, Debug, PartialEq, Eq, Hash)]
pub struct UnknownNumber(pub u32);

impl fmt::Display for UnknownNumber {
    fn fmt<W: fmt::Write>(&self, f: &mut fmt::Formatter<W>) -> fmt::Result {
        write!(f, "no refusal has the number {}", self.0)
    }
}

impl Error for UnknownNumber {}

impl fmt::Display for Refusal {
    fn fmt<W: fmt::Write>(&self, f: &mut fmt::Formatter<W>) -> fmt::Result {
        write!(f, "refused {}: {}", u32::from(*self), self.sentence())
    }
}

impl Error for Refusal {}

/// Why a call is refused: the first sentence that holds, in the order in which they stand here. What was lent to the
/// call is as it was.
// made from docs/refusals.txt by bindings/refusals
#[derive(Clone, Copy, Debug, PartialEq, Eq, Hash)]
pub enum Refusal {
    /// The card file exceeds 16,384 bytes, has a side above 64 or breaks its layout (`readcard`
    /// only).
    CardFile,
    /// The side is 0 or above 1,024.
    Side,
    /// The hue count is not 1, 2, 4, 8 or 16.
    Hues,
    /// The chroma cell size is 0 or above 16.
    CellSize,
    /// A lent slice is shorter than its length, or two slices that run in pairs differ in length.
    Length,
    /// There are more than 16,384 references, more than 1,048,576 modules or cells, more grid
    /// modules than modules, or a matrix size or term count outside 1 to 18.
    Count,
    /// A reference position is not a number from -16 to side + 16, a grid module is outside 0 to
    /// side - 1, a ring module is outside -6 to side + 5, or a cell coordinate is above 1,023.
    Place,
    /// A colour, palette number or score given to refinement is not finite or has magnitude above
    /// 1,048,576, or a noise figure is not finite or above 2^40 in magnitude; `fit` refuses
    /// reference colours only where they are not finite.
    Number,
    /// `sigma_l` or `sigma_ab` is below 0.75, or a level's sigma is neither 0 nor at least 0.75.
    Sigma,
    /// A model's terms are neither 4 nor 9, its side is not a whole number from 1 to 1,024, or one
    /// of its numbers is not finite.
    Model,
    /// After a pass of `fit`, a number of the model or a reference's residual is not finite.
    Fit,
    /// A corrected colour of a module, cell or measured reference is not finite or has magnitude
    /// above 1,048,576.
    Corrected,
    /// The side is above 40 where a page is laid out.
    Page,
    /// The radius within which references are asked for is negative or not finite.
    Radius,
    /// Totals have more than 65,535 cards, or would have with what is added, more than 1,048,576
    /// modules a card, a count above their modules, or a sum above 1,310,720 a module.
    Totals,
    /// A score that is added to totals is NaN or above 20 in magnitude.
    Score,
}

impl From<Refusal> for u32 {
    ghost from_gives = { λ refusal number. number ≡ number_of refusal };

    fn from(refusal: Refusal) -> u32 {
        match refusal {
            Refusal::CardFile => 1,
            Refusal::Side => 2,
            Refusal::Hues => 3,
            Refusal::CellSize => 4,
            Refusal::Length => 5,
            Refusal::Count => 6,
            Refusal::Place => 7,
            Refusal::Number => 8,
            Refusal::Sigma => 9,
            Refusal::Model => 10,
            Refusal::Fit => 11,
            Refusal::Corrected => 12,
            Refusal::Page => 14,
            Refusal::Radius => 15,
            Refusal::Totals => 18,
            Refusal::Score => 19,
        }
    }
}

impl TryFrom<u32> for Refusal {
    type Error = UnknownNumber;

    ghost try_from_gives = { Decodes };

    fn try_from(number: u32) -> Result<Self, UnknownNumber> {
        match number {
            1 => Ok(Refusal::CardFile),
            2 => Ok(Refusal::Side),
            3 => Ok(Refusal::Hues),
            4 => Ok(Refusal::CellSize),
            5 => Ok(Refusal::Length),
            6 => Ok(Refusal::Count),
            7 => Ok(Refusal::Place),
            8 => Ok(Refusal::Number),
            9 => Ok(Refusal::Sigma),
            10 => Ok(Refusal::Model),
            11 => Ok(Refusal::Fit),
            12 => Ok(Refusal::Corrected),
            14 => Ok(Refusal::Page),
            15 => Ok(Refusal::Radius),
            18 => Ok(Refusal::Totals),
            19 => Ok(Refusal::Score),
            _ => Err(UnknownNumber(number)),
        }
    }
}

impl Refusal {
    /// The sentence that holds where a call is refused so.
    pub fn sentence(self) -> &'static str {
        match self {
            Refusal::CardFile => {
                "The card file exceeds 16,384 bytes, has a side above 64 or breaks its layout \
                 (`readcard` only)."
            }
            Refusal::Side => "The side is 0 or above 1,024.",
            Refusal::Hues => "The hue count is not 1, 2, 4, 8 or 16.",
            Refusal::CellSize => "The chroma cell size is 0 or above 16.",
            Refusal::Length => {
                "A lent slice is shorter than its length, or two slices that run in pairs differ \
                 in length."
            }
            Refusal::Count => {
                "There are more than 16,384 references, more than 1,048,576 modules or cells, more \
                 grid modules than modules, or a matrix size or term count outside 1 to 18."
            }
            Refusal::Place => {
                "A reference position is not a number from -16 to side + 16, a grid module is \
                 outside 0 to side - 1, a ring module is outside -6 to side + 5, or a cell \
                 coordinate is above 1,023."
            }
            Refusal::Number => {
                "A colour, palette number or score given to refinement is not finite or has \
                 magnitude above 1,048,576, or a noise figure is not finite or above 2^40 in \
                 magnitude; `fit` refuses reference colours only where they are not finite."
            }
            Refusal::Sigma => {
                "`sigma_l` or `sigma_ab` is below 0.75, or a level's sigma is neither 0 nor at \
                 least 0.75."
            }
            Refusal::Model => {
                "A model's terms are neither 4 nor 9, its side is not a whole number from 1 to \
                 1,024, or one of its numbers is not finite."
            }
            Refusal::Fit => {
                "After a pass of `fit`, a number of the model or a reference's residual is not \
                 finite."
            }
            Refusal::Corrected => {
                "A corrected colour of a module, cell or measured reference is not finite or has \
                 magnitude above 1,048,576."
            }
            Refusal::Page => "The side is above 40 where a page is laid out.",
            Refusal::Radius => {
                "The radius within which references are asked for is negative or not finite."
            }
            Refusal::Totals => {
                "Totals have more than 65,535 cards, or would have with what is added, more than \
                 1,048,576 modules a card, a count above their modules, or a sum above 1,310,720 a \
                 module."
            }
            Refusal::Score => "A score that is added to totals is NaN or above 20 in magnitude.",
        }
    }
}
// end of docs/refusals.txt
