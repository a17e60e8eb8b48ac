// Sets of points, or vectors, of up to eight variables as bits of four words of 64: made of a list, moved by a vector, joined, and gone through in rising
// order. What a set holds is said in specs/, the laws about it in proofs/. Read next: specs/Sets.antt.
#![tactic(auto)]

ghost use Rattle.std.specs.Prelude.{◌≡◌, false, ◌&&◌, ◌||◌, ℕ, ◌/◌, ◌≤◌, ◌<◌, get_or};
ghost use Rattle.gf2.specs.Bits.{◌⊕◌};
ghost use Rattle.gf2.specs.Finite.{holds};
ghost use Rattle.table.specs.Table.{outside};
ghost use Rattle.moves.specs.Moves.{mask_size};
ghost use Rattle.point_sets.specs.Sets.{set_variables, set_size, member, LeastFrom};

use std::array;

// The largest number of variables of a set, as `set_variables` in specs/.
pub const SET_VARIABLES: usize = 8;

// The number of points of a set, as `set_size` in specs/.
pub const SET_SIZE: u16 = 256;

// The number of words of a set.
pub const SET_WORDS: usize = 4;

// The number of points of a word.
const WORD_SIZE: u16 = 64;

// The empty set, and the set of all points.
pub const NO_POINTS: [u64; SET_WORDS] = [0; SET_WORDS];

pub const EVERY_POINT: [u64; SET_WORDS] = [u64::MAX; SET_WORDS];

// The word that has the place of x.
fn word_of(set: &[u64; SET_WORDS], x: u16) -> u64
    requires { x < set_size }
    ensures { result ≡ get_or set.now (x / mask_size) 0 }
{
    set[(x / WORD_SIZE) as usize]
}

// Whether the set holds x.
pub fn has(set: &[u64; SET_WORDS], x: u16) -> bool
    requires { x < set_size }
    ensures { result ≡ member set.now x }
{
    (word_of(set, x) >> (x % WORD_SIZE)) % 2 == 1
}

// The set of the points of a list.
pub fn set_of(points: &[u16]) -> [u64; SET_WORDS]
    requires { outside set_variables points.now ≡ false }
    ensures { (x : ℕ) → member result x ≡ holds points.now x }
{
    let mut set = NO_POINTS;
    for &p in points {
        set[(p / WORD_SIZE) as usize] |= 1 << (p % WORD_SIZE);
    }
    set
}

// The points that both sets hold.
pub fn both(a: &[u64; SET_WORDS], b: &[u64; SET_WORDS]) -> [u64; SET_WORDS]
    ensures { (x : ℕ) → member result x ≡ member a.now x && member b.now x }
{
    array::from_fn(|i| a[i] & b[i])
}

// The points that one of the sets holds, or both.
pub fn either(a: &[u64; SET_WORDS], b: &[u64; SET_WORDS]) -> [u64; SET_WORDS]
    ensures { (x : ℕ) → member result x ≡ member a.now x || member b.now x }
{
    array::from_fn(|i| a[i] | b[i])
}

// The set with each point x moved to x XOR v: the high bits of v exchange words, the others move each word.
pub fn moved_set(set: &[u64; SET_WORDS], v: u16) -> [u64; SET_WORDS]
    requires { v < set_size }
    ensures { (x : ℕ) → member result x ≡ member set.now (x ⊕ v) }
{
    let high = (v / WORD_SIZE) as usize;
    let exchanged = array::from_fn(|i| set[i ^ high]);
    moves::each_moved(exchanged, (v % WORD_SIZE) as u64)
}

// The least number from a given one on that the set holds, or the number of points where it holds none, by counts of trailing zeros.
pub fn least_from(set: &[u64; SET_WORDS], from: u16) -> u16
    requires { from ≤ set_size }
    ensures { LeastFrom set.now from result }
{
    for word in from / WORD_SIZE..SET_SIZE / WORD_SIZE {
        let at = from.max(word * WORD_SIZE);
        let rest = word_of(set, at) >> (at % WORD_SIZE);
        if rest != 0 {
            return at + rest.trailing_zeros() as u16;
        }
    }
    SET_SIZE
}
