// The spaces of a table (document 01, "Points and spaces", and document 02, No. 4): linear space and degree, and completion. What the words mean is in
// specs/, which also say what reduction equations, restriction and smallest affine space are (their code is in crate `projection`); the laws about them are
// in proofs/. Read next: specs/Closure.antt.
#![tactic(auto)]

ghost use Rattle.std.specs.Prelude.{◌≡◌, [], ◌+◌, ◌^◌, ◌≤◌, ◌<◌};
ghost use Rattle.gf2.specs.Limits.{max_variables};
ghost use Rattle.gf2.specs.Finite.{select, In};
ghost use Rattle.gf2.specs.Basis.{inserts};
ghost use Rattle.basis.specs.Reduced.{basis_of, Built};
ghost use Rattle.table.specs.Table.{Accepted};
ghost use Rattle.space.specs.Closure.{closed, linear_space};
ghost use Rattle.space.specs.Witness.{flagged, Searchable, Answers};
ghost use Rattle.space.specs.Completion.{simply_completed, CompletedTo, IsCompleted};

use basis::Basis;
use table::MAX_POINTS;

// The first break of closure, in rising order of vector and then point, over the given vectors and all points: that vector and that point.
// The labelled break that leaves both loops is one of the forms that the library is to use (docs/DECISIONS.md).
pub fn first_witness(flags: &[bool; MAX_POINTS], n: usize, vectors: &[u16]) -> Option<(u16, u16)>
    requires n_le_max_variables { n ≤ max_variables }
    requires searchable { Searchable n vectors.now }
    ensures { Answers (flagged flags.now) (2 ^ n) vectors.now result }
{
    let count = usize::from(table::point_count(n));
    let mut found = None;
    'search: for &a in vectors {
        let vector = usize::from(a);
        for p in 0..count {
            if flags[p ^ vector] != flags[p] {
                found = Some((a, p as u16));
                break 'search;
            }
        }
    }
    found
}

// The basis of the closed vectors below v, grown by v if the search over that vector alone finds no break.
fn grown(basis: Basis, flags: &[bool; MAX_POINTS], n: usize, v: u16) -> Basis
    requires n_le_max_variables { n ≤ max_variables }
    requires v_bound { v < 2 ^ n }
    requires closed_below { basis ≡ basis_of (inserts [] (select (closed n (flagged flags.now)) v)) }
    ensures { result ≡ basis_of (inserts [] (select (closed n (flagged flags.now)) (v + 1))) }
{
    if first_witness(flags, n, &[v]).is_some() {
        return basis;
    }
    basis.insert(v)
}

// The linear space of the function, by its reduced basis. The vectors of the full basis are searched first: closed under them, the function is closed
// under all. Otherwise it is closed under all vectors below a, the first that breaks closure, and the vectors above a are tried one by one. One with a
// lead bit of the basis set needs no trial: it is closed exactly if the smaller vector is to which the basis reduces it, and that one was tried.
pub fn linear_space(flags: &[bool; MAX_POINTS], n: usize) -> Basis
    requires { n ≤ max_variables }
    ensures { Built result (linear_space n (flagged flags.now)) (In n (closed n (flagged flags.now))) }
{
    let full = Basis::full(n);
    let Some((a, _)) = first_witness(flags, n, full.as_slice()) else {
        return full;
    };
    let count = table::point_count(n);
    let mut basis = Basis::full(gf2::lead(a) as usize);
    let mut leads = basis.leads();
    for v in a + 1..count {
        if leads & v == 0 {
            basis = grown(basis, flags, n, v);
            leads = basis.leads();
        }
    }
    basis
}

// The largest number of variables for which the largest space is searched, as `max_searched` in specs/.
pub const MAX_SEARCHED: usize = 8;

// A completed table: the flags of the completed function, its linear space, and the two degrees of the simple way, k0 and k1.
#[derive(Clone, Copy)]
pub struct Completed {
    pub flags: [bool; MAX_POINTS],
    pub basis: Basis,
    pub k0: usize,
    pub k1: usize,
}

// The completion of an accepted table in the simple way: that of the larger degree; on a tie, all free points off.
fn complete_simply(n: usize, on: &[u16], free: &[u16]) -> Completed
    requires { Accepted n on.now free.now }
    ensures { CompletedTo n on.now free.now (simply_completed n on.now free.now) result }
{
    let all_off = table::flags_of(on);
    let all_on = table::mark(free, all_off);
    let space_off = linear_space(&all_off, n);
    let space_on = linear_space(&all_on, n);
    let k0 = space_off.degree();
    let k1 = space_on.degree();
    if k0 < k1 {
        return Completed {
            flags: all_on,
            basis: space_on,
            k0,
            k1,
        };
    }
    Completed {
        flags: all_off,
        basis: space_off,
        k0,
        k1,
    }
}

// The completion of an accepted table: the on points spread over the largest space inside the closure set, where that space is searched; otherwise the
// simple way.
pub fn complete(n: usize, on: &[u16], free: &[u16]) -> Completed
    requires { Accepted n on.now free.now }
    ensures { IsCompleted n on.now free.now result }
{
    if MAX_SEARCHED < n {
        return complete_simply(n, on, free);
    }
    let simple = complete_simply(n, on, free);
    let closure = closure_set::closure_set(on, free);
    let basis = subspace_search::largest_in(&closure, n);
    Completed {
        flags: closure_set::spread_flags(on, basis),
        basis,
        k0: simple.k0,
        k1: simple.k1,
    }
}
