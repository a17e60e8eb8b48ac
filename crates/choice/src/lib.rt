// The choice of primes for a complete function of at most six variables that is given by its on points (document 01, "The written form"): for
// each on point that isn't covered, the first prime in listing order that holds it. What the choice is, is said in crate `cover`; what the functions say
// of their results in specs/, the laws about that in proofs/. Read next: specs/Search.antt.
#![tactic(auto)]

ghost use Rattle.std.specs.Prelude.{◌≡◌, false, ◌≤◌, ◌<◌, length};
ghost use Rattle.gf2.specs.Finite.{Mem};
ghost use Rattle.gf2.specs.Basis.{reduce};
ghost use Rattle.table.specs.Table.{outside, unordered};
ghost use Rattle.cubes.specs.Lists.{keep};
ghost use Rattle.cubes.specs.Cubes.{points_of};
ghost use Rattle.cubes.specs.Candidates.{candidates_of, candidates};
ghost use Rattle.cubes.specs.Records.{max_listed};
ghost use Rattle.bases.specs.Bases.{entries_of, vectors_of};
ghost use Rattle.masks.specs.Points.{prime_by};
ghost use Rattle.cover.specs.Choice.{first_holding};
ghost use Rattle.choice.specs.Search.{Positive, Search, candidate_of, PrimeAt, found_of, FoundAt, stays, better_of};
ghost use Rattle.choice.specs.Chosen.{max_chosen, primes_in, added, MarksPrime, Chose};

use table::MAX_POINTS;

// ---- the least point of a coset

// The least point of the coset of x by the space of an entry of d vectors.
fn least_point(d: usize, x: u16, entry: u64) -> u16
    requires { Positive (vectors_of d entry) }
    ensures { result ≡ reduce (vectors_of d entry) x }
{
    let mut point = x;
    let mut rest = entry;
    for _ in 0..d {
        point = gf2::clear_lead((rest % 256) as u16, point);
        rest /= 256;
    }
    point
}

// ---- the first prime that holds a point

// A prime by its degree, its least point and its entry of the table of bases.
#[derive(Clone, Copy, Debug, PartialEq, Eq)]
pub struct Prime {
    pub degree: usize,
    pub point: u16,
    pub entry: u64,
}

// Whether the best so far stays before a candidate with this least point: its own least point isn't greater.
fn stays(best: Option<Prime>, point: u16) -> bool
    ensures { result ≡ stays best point }
{
    best.is_some_and(|prime| prime.point <= point)
}

// The best so far, or what an entry has in its place: of its space only the coset of x holds x, and on equal least points the earlier entry stays.
fn better(best: Option<Prime>, on: u64, m: usize, d: usize, x: u16, entry: u64) -> Option<Prime>
    requires search { Search m on d x }
    requires mem { Mem entry (entries_of d) }
    ensures { result ≡ better_of (prime_by m on 0) m d x entry best }
{
    if !bases::fits(m, entry) {
        return best;
    }
    let point = least_point(d, x, entry);
    if stays(best, point) {
        return best;
    }
    if !masks::is_prime(on, 0, m, d, point as u64, entry) {
        return best;
    }
    Some(Prime {
        degree: d,
        point,
        entry,
    })
}

// The first prime of degree d in listing order that holds x.
fn first_of_degree(on: u64, m: usize, d: usize, x: u16) -> Option<Prime>
    requires search { Search m on d x }
    ensures first { found_of result ≡ first_holding (keep (prime_by m on 0) (candidates_of m d)) x }
    ensures found_at { FoundAt m result }
{
    let mut best = None;
    for &entry in bases::entries_of(d) {
        best = better(best, on, m, d, x, entry);
    }
    best
}

// The first prime in listing order that holds x: degree falling.
fn first_holding(on: u64, m: usize, x: u16) -> Option<Prime>
    requires search { Search m on m x }
    ensures first { found_of result ≡ first_holding (keep (prime_by m on 0) (candidates m)) x }
    ensures found_at { FoundAt m result }
{
    for d in (0..m + 1).rev() {
        if let Some(prime) = first_of_degree(on, m, d, x) {
            return Some(prime);
        }
    }
    None
}

// ---- what is taken

// The most points of a function of at most six variables, as `max_chosen` in specs/: no more primes are chosen.
pub const MAX_CHOSEN: usize = 64;

// The primes chosen for a complete function of at most six variables, in the order taken: the first so many of the array, since no call
// allocates.
#[derive(Clone, Copy)]
pub struct Choice {
    pub count: usize,
    pub primes: [Prime; MAX_CHOSEN],
}

const NO_PRIME: Prime = Prime {
    degree: 0,
    point: 0,
    entry: 0,
};

impl Choice {
    // The primes chosen, in the order taken.
    pub fn as_slice(&self) -> &[Prime]
        requires { self.now.count ≤ max_chosen }
        ensures primes { result.now ≡ primes_in self.now }
        ensures number { length result.now ≡ self.now.count }
    {
        &self.primes[..self.count]
    }

    // The choice with one prime more, put behind the others.
    fn add(mut self, prime: Prime) -> Choice
        requires { self.count < max_chosen }
        ensures { result ≡ added self prime }
    {
        self.primes[self.count] = prime;
        self.count += 1;
        self
    }
}

// Whether the candidate of a prime holds x.
fn holds_point(prime: Prime, x: u16) -> bool
    requires { Positive (vectors_of prime.degree prime.entry) }
    ensures { result ≡ points_of (candidate_of prime) x }
{
    least_point(prime.degree, x ^ prime.point, prime.entry) == 0
}

// The flags with those of the prime's points set, and the others as they were.
fn mark_prime(m: usize, prime: Prime, mut flags: [bool; MAX_POINTS]) -> [bool; MAX_POINTS]
    requires { PrimeAt m prime }
    ensures { MarksPrime (candidate_of prime) flags result }
{
    for x in 0..table::point_count(m) {
        if holds_point(prime, x) {
            flags[table::flag_place(x)] = true;
        }
    }
    flags
}

// The primes chosen for the complete function of m variables with these on points: covered points are marked, one flag to a point.
pub fn choose(m: usize, on: &[u16]) -> Choice
    requires m_le_max_listed { m ≤ max_listed }
    requires on_inside { outside m on.now ≡ false }
    requires on_rising { unordered on.now ≡ false }
    ensures { Chose m on.now result }
{
    let mask = masks::points::mask_of(on);
    let mut flags = [false; MAX_POINTS];
    let mut choice = Choice {
        count: 0,
        primes: [NO_PRIME; MAX_CHOSEN],
    };
    for &x in on {
        if flags[table::flag_place(x)] {
            continue;
        }
        let Some(prime) = first_holding(mask, m, x) else {
            continue;
        };
        choice = choice.add(prime);
        flags = mark_prime(m, prime, flags);
    }
    choice
}
