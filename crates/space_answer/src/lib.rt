// The answer of the calls on the linear space of a complete function, which they give by the same decision: degree and reduced basis, or a refusal
// (document 01, "Points and spaces" and "Refusal numbers"). Read next: specs/Answer.antt.
#![tactic(auto)]

ghost use Rattle.std.specs.Prelude.{◌≡◌};
ghost use Rattle.space_answer.specs.Answer.{space_refused, refused_space, space_of};

use basis::Basis;
use table::{Answer, Refusal};

// The linear space of a complete function: its degree and its reduced basis.
#[repr(C)]
#[derive(Clone, Copy)]
pub struct LinearSpace {
    pub refusal: u8,
    pub degree: usize,
    pub basis: Basis,
}

// A refusal by its number: all other numbers are 0. It takes every number, where a `Refusal` would ask more of its callers.
pub fn refused_space(refusal: u8) -> LinearSpace
    ensures { result ≡ space_refused refusal }
{
    LinearSpace {
        refusal,
        degree: 0,
        basis: Basis::EMPTY,
    }
}

impl Answer for LinearSpace {
    ghost refused_with = { refused_space };

    fn refused(refusal: Refusal) -> LinearSpace {
        refused_space(refusal.number())
    }
}

// The space of a basis.
impl From<Basis> for LinearSpace {
    ghost from_gives = { λ basis space. space ≡ space_of basis };

    fn from(basis: Basis) -> LinearSpace {
        LinearSpace {
            refusal: 0,
            degree: basis.len,
            basis,
        }
    }
}
