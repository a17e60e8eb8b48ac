// The closure set of a table of up to eight variables, and its on points spread over a space (document 02, No. 4), as sets of bits. What the words mean is
// in specs/, the laws about them in proofs/. Read next: specs/ClosureSet.antt.
#![tactic(auto)]

ghost use Rattle.std.specs.Prelude.{◌≡◌, false, ℕ, ◌<◌, get_or};
ghost use Rattle.gf2.specs.Finite.{holds};
ghost use Rattle.basis.specs.Reduced.{vectors_of, BasisWithin};
ghost use Rattle.table.specs.Table.{outside};
ghost use Rattle.point_sets.specs.Sets.{set_variables, set_size, member};
ghost use Rattle.cubes.specs.Primes.{allowed};
ghost use Rattle.closure_set.specs.ClosureSet.{closes, spread};

use basis::Basis;
use point_sets::{EVERY_POINT, SET_SIZE, SET_WORDS};
use table::MAX_POINTS;

// The points that are on or free.
fn allowed_points(on: &[u16], free: &[u16]) -> [u64; SET_WORDS]
    requires on_value { outside set_variables on.now ≡ false }
    requires free_value { outside set_variables free.now ≡ false }
    ensures { (x : ℕ) → member result x ≡ allowed (holds on.now) (holds free.now) x }
{
    let on_set = point_sets::set_of(on);
    let free_set = point_sets::set_of(free);
    point_sets::either(&on_set, &free_set)
}

// The closure set: for each on point, only the vectors are kept that take it to an allowed point.
pub fn closure_set(on: &[u16], free: &[u16]) -> [u64; SET_WORDS]
    requires on_value { outside set_variables on.now ≡ false }
    requires free_value { outside set_variables free.now ≡ false }
    ensures { (a : ℕ) → a < set_size → member result a ≡ closes on.now free.now a }
{
    let allowed = allowed_points(on, free);
    let mut closure = EVERY_POINT;
    for &w in on {
        let moved = point_sets::moved_set(&allowed, w);
        closure = point_sets::both(&closure, &moved);
    }
    closure
}

// The on points spread over the space of a basis, one vector after the other.
fn spread_points(on: &[u16], basis: Basis) -> [u64; SET_WORDS]
    requires on_value { outside set_variables on.now ≡ false }
    requires basis_within { BasisWithin set_variables basis }
    ensures { (w : ℕ) → member result w ≡ spread on.now (vectors_of basis) w }
{
    let mut points = point_sets::set_of(on);
    for &b in basis.as_slice() {
        let moved = point_sets::moved_set(&points, b);
        points = point_sets::either(&points, &moved);
    }
    points
}

// The same as flags, one to a point.
pub fn spread_flags(on: &[u16], basis: Basis) -> [bool; MAX_POINTS]
    requires on_value { outside set_variables on.now ≡ false }
    requires basis_within { BasisWithin set_variables basis }
    ensures { (w : ℕ) → w < set_size → get_or result w false ≡ spread on.now (vectors_of basis) w }
{
    let points = spread_points(on, basis);
    let mut flags = [false; MAX_POINTS];
    for w in 0..SET_SIZE {
        flags[w as usize] = point_sets::has(&points, w);
    }
    flags
}
