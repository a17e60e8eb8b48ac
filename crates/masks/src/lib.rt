// The test for a prime: one entry of the table of bases with a least point (document 01, "Primes"), and the number of on points in it (document 02,
// No. 6). Sets of points as masks, on which that test stands, are in `points`. Read next: specs/Points.antt.
#![tactic(auto)]

pub mod points;

ghost use Rattle.std.specs.Prelude.{◌≡◌};
ghost use Rattle.bases.specs.Entry.{candidate_at, EntryAt};
ghost use Rattle.masks.specs.Points.{OfPoints, prime_by, count_by};

// The number of on points in the candidate of an entry if it is a prime, and 0 if it is none. Its coset has to lie inside on plus free, as the only one
// of its space that does; then the points whose coset lies inside are its own, and those of them that are on are counted.
pub fn count_in_prime(on: u64, free: u64, n: usize, d: usize, p: u64, entry: u64) -> u32
    requires on_points { OfPoints n on }
    requires free_points { OfPoints n free }
    requires entry_at { EntryAt n d p entry }
    ensures { result ≡ count_by n on free (candidate_at d p entry) }
{
    let inside = points::every_point(on | free, entry, d);
    if (inside >> p) % 2 == 0 {
        return 0;
    }
    if u64::count_ones(inside) != (1 << d) {
        return 0;
    }
    u64::count_ones(inside & on)
}

// Whether the candidate of an entry is a prime: then it holds an on point.
pub fn is_prime(on: u64, free: u64, n: usize, d: usize, p: u64, entry: u64) -> bool
    requires on_points { OfPoints n on }
    requires free_points { OfPoints n free }
    requires entry_at { EntryAt n d p entry }
    ensures { result ≡ prime_by n on free (candidate_at d p entry) }
{
    count_in_prime(on, free, n, d, p, entry) != 0
}
