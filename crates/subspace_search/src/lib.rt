// The largest space inside a set of vectors of up to eight variables (document 02, No. 4), found by a search over reduced bases, depth first. What it goes
// by is in specs/, the laws about it in proofs/. Read next: specs/Search.antt.
#![tactic(auto)]

ghost use Rattle.std.specs.Prelude.{◌≡◌, true, not, ◌&&◌, ◌++◌, ℕ, ◌+◌, ◌^◌, ◌≤◌, ◌<◌, leb, length};
ghost use Rattle.gf2.specs.Limits.{max_variables};
ghost use Rattle.gf2.specs.Bits.{bit};
ghost use Rattle.gf2.specs.Finite.{select};
ghost use Rattle.basis.specs.Short.{listed, short};
ghost use Rattle.basis.specs.Reduced.{basis_of};
ghost use Rattle.point_sets.specs.Sets.{set_variables, set_size, member};
ghost use Rattle.subspaces.specs.Spaces.{largest};
ghost use Rattle.subspace_search.specs.Search.{narrowed, longer, longest};

use basis::{Basis, ShortList};
use point_sets::{SET_VARIABLES, SET_WORDS};

// The vectors that may follow one whose lead is a place, for each place, as `following_words`. A static is read where it stands; a constant would be
// stored anew at each use.
static FOLLOWING: [[u64; SET_WORDS]; SET_VARIABLES] = [
    [
        0x5555555555555554,
        0x5555555555555555,
        0x5555555555555555,
        0x5555555555555555,
    ],
    [
        0x3333333333333330,
        0x3333333333333333,
        0x3333333333333333,
        0x3333333333333333,
    ],
    [
        0x0F0F0F0F0F0F0F00,
        0x0F0F0F0F0F0F0F0F,
        0x0F0F0F0F0F0F0F0F,
        0x0F0F0F0F0F0F0F0F,
    ],
    [
        0x00FF00FF00FF0000,
        0x00FF00FF00FF00FF,
        0x00FF00FF00FF00FF,
        0x00FF00FF00FF00FF,
    ],
    [
        0x0000FFFF00000000,
        0x0000FFFF0000FFFF,
        0x0000FFFF0000FFFF,
        0x0000FFFF0000FFFF,
    ],
    [
        0x0000000000000000,
        0x00000000FFFFFFFF,
        0x00000000FFFFFFFF,
        0x00000000FFFFFFFF,
    ],
    [
        0x0000000000000000,
        0x0000000000000000,
        0xFFFFFFFFFFFFFFFF,
        0x0000000000000000,
    ],
    [
        0x0000000000000000,
        0x0000000000000000,
        0x0000000000000000,
        0x0000000000000000,
    ],
];

// The vectors that may follow one whose lead is the place: those of higher lead with that bit clear.
fn following(place: usize) -> &'static [u64; SET_WORDS]
    requires { place < set_variables }
    ensures { (x : ℕ) → x < set_size → member result.now x ≡ leb (2 ^ (place + 1)) x && not (bit place x) }
{
    &FOLLOWING[place]
}

// The vectors of the set that may follow b.
fn narrow(set: &[u64; SET_WORDS], b: u16) -> [u64; SET_WORDS]
    requires { (0 < b) × (b < set_size) }
    ensures { (x : ℕ) → member result x ≡ narrowed (member set.now) b x }
{
    let moved = point_sets::moved_set(set, b);
    let with_sums = point_sets::both(set, &moved);
    point_sets::both(&with_sums, following(gf2::lead(b) as usize))
}

// The longer of two lists; of two of one length, the first.
fn longer(a: ShortList, b: ShortList) -> ShortList
    requires a_value { a ≡ short (listed a) }
    requires b_value { b ≡ short (listed b) }
    ensures { result ≡ short (longer (listed a) (listed b)) }
{
    if a.len < b.len { b } else { a }
}

// The most vectors that a list of so many can have when it goes on with a basis inside the set: there is one for each lead from the least one on.
fn reach(set: &[u64; SET_WORDS], len: usize, n: usize) -> usize
    requires { (n ≤ set_variables) × (len ≤ n) }
    ensures { (d : ℕ) → len + length (longest n d (member set.now)) ≤ result }
{
    let k = point_sets::least_from(set, 1);
    if k < table::point_count(n) {
        return len + n - gf2::lead(k) as usize;
    }
    len
}

// The longest list found so far, or a longer one that begins with the prefix and goes on with at most so many vectors of the set. A basis that goes on with
// k has at most n - lead k vectors more, and leads rise: where the prefix and so many are no longer than what was found, no later vector can win either.
// What may follow k is searched only where it can come to something longer.
fn search(
    best: ShortList,
    prefix: ShortList,
    set: &[u64; SET_WORDS],
    n: usize,
    left: usize,
) -> ShortList
    requires best_value { best ≡ short (listed best) }
    requires prefix_value { prefix ≡ short (listed prefix) }
    requires n_le_set_variables { (n ≤ set_variables) × (length (listed prefix) + left ≤ n) }
    ensures { result ≡ short (longer (listed best) (listed prefix ++ longest n left (member set.now))) }
{
    let mut found = longer(best, prefix);
    if left == 0 {
        return found;
    }
    let size = table::point_count(n);
    let mut k = point_sets::least_from(set, 1);
    // No index is counted: k goes from each vector of the set to the next one.
    while k < size {
        if prefix.len + n - gf2::lead(k) as usize <= found.len {
            return found;
        }
        let next = narrow(set, k);
        let first = k;
        k = point_sets::least_from(set, k + 1);
        if reach(&next, prefix.len + 1, n) <= found.len {
            continue;
        }
        found = search(found, prefix.push(first), &next, n, left - 1);
    }
    found
}

// The first of the largest spaces inside a set that holds 0, by its reduced basis.
pub fn largest_in(set: &[u64; SET_WORDS], n: usize) -> Basis
    requires n_le_set_variables { n ≤ set_variables }
    requires set_value { member set.now 0 ≡ true }
    ensures { result ≡ basis_of (largest n (select (member set.now) (2 ^ n))) }
{
    let ShortList { values, len } = search(ShortList::EMPTY, ShortList::EMPTY, set, n, n);
    Basis {
        vectors: values,
        len,
    }
}
