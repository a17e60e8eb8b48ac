// The product that is written for one prime of the restriction, by value: its canonical product in the y's, with the reduction equations put
// in for them (document 01, "The written form"). What the words mean is in crate `cover`. Read next: crate `writing`.
#![tactic(auto)]

ghost use Rattle.std.specs.Prelude.{◌≡◌, cond, ◌≤◌, ◌<◌};
ghost use Rattle.gf2.specs.Limits.{max_variables};
ghost use Rattle.gf2.specs.Bits.{bit};
ghost use Rattle.basis.specs.Short.{listed, short};
ghost use Rattle.basis.specs.Reduced.{basis_of};
ghost use Rattle.cubes.specs.Cubes.{IsCandidate};
ghost use Rattle.cubes.specs.Records.{max_listed};
ghost use Rattle.bases.specs.Bases.{vectors_of};
ghost use Rattle.choice.specs.Search.{candidate_of};
ghost use Rattle.cover.specs.CanonicalProduct.{constant_at};
ghost use Rattle.cover.specs.Substitution.{substitute_mask};
ghost use Rattle.cover.specs.WrittenForm.{product_by};
ghost use Rattle.factors.specs.Factors.{factors_of, factors_at};

use basis::{Basis, ShortList};
use choice::Prime;

// The factors of a product in form order: their constants and their masks. Two lists and no list of pairs: a line of the report takes the two apart.
#[derive(Clone, Copy)]
pub struct FactorList {
    pub constants: ShortList,
    pub masks: ShortList,
}

// The vectors of an entry of d vectors, as a basis by value: one to a byte, the first lowest.
fn basis_of(d: usize, entry: u64) -> Basis
    requires { d ≤ max_variables }
    ensures { result ≡ basis_of (vectors_of d entry) }
{
    let mut vectors = ShortList::EMPTY;
    let mut rest = entry;
    for _ in 0..d {
        vectors = vectors.push((rest % 256) as u16);
        rest /= 256;
    }
    let ShortList { values, len } = vectors;
    Basis {
        vectors: values,
        len,
    }
}

// The constant of the factor that a mask has at a point: the parity of the mask there.
fn constant_at(mask: u16, point: u16) -> u16
    ensures { result ≡ constant_at mask point }
{
    if gf2::parity(mask, point) { 1 } else { 0 }
}

// The equation of a y where the mask has that y, and 0 where not.
fn term(equation: u16, place: u32, mask: u16) -> u16
    requires { place < max_variables }
    ensures { result ≡ cond (bit place mask) equation 0 }
{
    if gf2::bit(place, mask) { equation } else { 0 }
}

// The XOR of the equations of those y's that the mask has; y1 is its highest bit.
fn substitute(equations: ShortList, mask: u16) -> u16
    requires { equations ≡ short (listed equations) }
    ensures { result ≡ substitute_mask (listed equations) mask }
{
    let mut found = 0;
    for (i, &equation) in equations.as_slice().iter().enumerate() {
        let place = (equations.len - 1 - i) as u32;
        found ^= term(equation, place, mask);
    }
    found
}

// The factors of masks in the y's that have the parity of a point, with the equations put in.
fn factors_at(equations: ShortList, masks: ShortList, point: u16) -> FactorList
    requires equations_value { equations ≡ short (listed equations) }
    requires masks_value { masks ≡ short (listed masks) }
    ensures { result ≡ factors_at (listed equations) (listed masks) point }
{
    let mut constants = ShortList::EMPTY;
    let mut written = ShortList::EMPTY;
    for &mask in masks.as_slice() {
        constants = constants.push(constant_at(mask, point));
        written = written.push(substitute(equations, mask));
    }
    FactorList {
        constants,
        masks: written,
    }
}

// The product of a prime of m variables, with the equations of y1, y2, .. put in.
pub fn product_of(equations: ShortList, m: usize, prime: Prime) -> FactorList
    requires equations_value { equations ≡ short (listed equations) }
    requires m_le_max_listed { m ≤ max_listed }
    requires candidate { IsCandidate m (candidate_of prime) }
    ensures { result ≡ factors_of (product_by (listed equations) m (candidate_of prime)) }
{
    let basis = basis_of(prime.degree, prime.entry);
    let masks = projection::equations(basis, m);
    factors_at(equations, masks, prime.point)
}
