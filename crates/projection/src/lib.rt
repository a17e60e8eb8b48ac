// Reduction equations, the restriction by a lead mask, and the smallest affine space (document 01, "Points and spaces"). What the words mean
// is in specs/ here and in crate `space`, the laws about them in proofs/ of both. Read next: specs/Masks.antt.
#![tactic(auto)]

ghost use Rattle.std.specs.Prelude.{◌≡◌, true, false, cond, ℕ, ◌+◌, ◌≤◌, ◌<◌, ◌^◌, length, set};
ghost use Rattle.gf2.specs.Limits.{max_variables};
ghost use Rattle.gf2.specs.Bits.{bit, lead};
ghost use Rattle.gf2.specs.Span.{Span};
ghost use Rattle.basis.specs.Short.{short};
ghost use Rattle.basis.specs.Reduced.{vectors_of, IsBasis, Built};
ghost use Rattle.table.specs.Decision.{front};
ghost use Rattle.table.specs.Table.{outside};
ghost use Rattle.space.specs.Restriction.{project, equation, equations};
ghost use Rattle.space.specs.Affine.{directions};
ghost use Rattle.space.specs.Witness.{flagged};
ghost use Rattle.projection.specs.Masks.{places_clear, drop_place, is_kept, kept, projected, differences};

use basis::{Basis, ShortList};
use table::MAX_POINTS;

// The point without its bit at the place: the bits above it come down by one place.
fn drop_place(place: u32, w: u16) -> u16
    requires { place < 16 }
    ensures { result ≡ drop_place place w }
{
    let half = w / 2;
    (half >> place << place) + w % (1 << place)
}

// The point with the places set in the mask dropped, order of the others kept. Only these are visited, the highest that is left in the mask first: the
// mask's count of leading zeros finds it.
fn drop_places(mask: u16, w: u16) -> u16
    ensures { (n : ℕ) → w < 2 ^ n → result ≡ project (places_clear n mask) w }
{
    let mut left = mask;
    let mut point = w;
    while left != 0 {
        let place = gf2::lead(left);
        point = drop_place(place, point);
        left ^= 1 << place;
    }
    point
}

// The lead bit of the basis vector b where b has the variable at the place, and 0 where not.
fn lead_term(b: u16, place: u32) -> u16
    requires b_nonzero { (0 < b) × (b < 2 ^ max_variables) }
    requires place_lt_max_variables { place < max_variables }
    ensures { result ≡ cond (bit place b) (2 ^ lead b) 0 }
{
    if gf2::bit(place, b) {
        1 << gf2::lead(b)
    } else {
        0
    }
}

// The equation of the variable at the place, as a mask: that variable and the canonical ones whose basis vector has it.
pub fn equation(basis: Basis, place: u32) -> u16
    requires basis { IsBasis basis }
    requires place_lt_max_variables { place < max_variables }
    ensures { result ≡ equation (vectors_of basis) place }
{
    let mut mask: u16 = 1 << place;
    for &b in basis.as_slice() {
        mask ^= lead_term(b, place);
    }
    mask
}

// The reduction equations: one for each noncanonical variable of n in index order.
pub fn equations(basis: Basis, n: usize) -> ShortList
    requires basis { IsBasis basis }
    requires n_le_max_variables { n ≤ max_variables }
    ensures { result ≡ short (equations n (vectors_of basis)) }
{
    let leads = basis.leads();
    let mut found = ShortList::EMPTY;
    for k in (0..n as u32).rev() {
        if !gf2::bit(k, leads) {
            found = found.push(equation(basis, k));
        }
    }
    found
}

// Whether the point w has its flag and no bit of the lead mask.
#[tactic(auto, unfolding(crate::specs::Masks::is_kept))]
fn is_kept(flags: &[bool; MAX_POINTS], leads: u16, w: u16) -> bool
    requires { w < 2 ^ max_variables }
    ensures { result ≡ is_kept leads (flagged flags.now) w }
{
    let p = usize::from(w);
    flags[p] && (leads & w) == 0
}

// How many points of n variables have their flag and no bit of the lead mask.
pub fn count_kept(flags: &[bool; MAX_POINTS], leads: u16, n: usize) -> usize
    requires { n ≤ max_variables }
    ensures { result ≡ length (kept n leads (flagged flags.now)) }
{
    let mut count = 0;
    for w in 0..table::point_count(n) {
        if is_kept(flags, leads, w) {
            count += 1;
        }
    }
    count
}

// The points of n variables that have their flag and no bit of the lead mask, with the places of that mask dropped, rising, at the front of
// the room. With the lead mask of a linear space these are the restriction, with mask 0 the points of the function themselves.
pub fn write_kept(flags: &[bool; MAX_POINTS], leads: u16, n: usize, room: &mut [u16])
    requires n_le_max_variables { n ≤ max_variables }
    requires flags_in_bounds { length (kept n leads (flagged flags.now)) ≤ length room.old }
    ensures { room.new ≡ front (kept n leads (flagged flags.now)) room.old }
{
    let mut count = 0;
    for point in 0..table::point_count(n) {
        if is_kept(flags, leads, point) {
            room[count] = drop_places(leads, point);
            count += 1;
        }
    }
}

// The reduced basis of the directions of the smallest affine space of the points: each XOR the first, put in one at a time, of which
// the first itself adds nothing. Its least point is the first point, reduced by that basis.
pub fn directions(on: &[u16]) -> Basis
    requires some_point { 0 < length on.now }
    requires points_inside { outside max_variables on.now ≡ false }
    ensures { Built result (directions on.now) (Span (differences on.now)) }
{
    let first = on[0];
    let mut basis = Basis::EMPTY;
    for &p in on {
        basis = basis.insert(p ^ first);
    }
    basis
}

// The points of n variables with the places clear in the lead mask dropped, in their order, at the front of the room.
pub fn write_projection(on: &[u16], leads: u16, n: usize, room: &mut [u16])
    requires n_le_max_variables { n ≤ max_variables }
    requires points_inside { outside n on.now ≡ false }
    requires room_enough { length on.now ≤ length room.old }
    ensures { room.new ≡ front (projected n leads on.now) room.old }
{
    let all = table::point_count(n) - 1;
    let others = leads ^ all;
    for (i, &p) in on.iter().enumerate() {
        room[i] = drop_places(others, p);
    }
}
