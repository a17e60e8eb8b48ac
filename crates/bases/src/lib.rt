// The reduced bases of at most six variables as one constant table (document 01, "Primes"): where the entries of a degree stand, and which serve
// fewer variables and a given least point. The table itself is in `entries`. Read next: specs/Bases.antt.
#![tactic(auto)]

pub mod entries;

ghost use Rattle.std.specs.Prelude.{◌≡◌, ◌^◌, ◌≤◌, ◌<◌};
ghost use Rattle.cubes.specs.Records.{max_listed};
ghost use Rattle.bases.specs.Bases.{entries_of, fits_entry, avoided};

// Where the entries of d vectors end: at place d. They begin where those of one vector more end.
static BOUNDS: [usize; 8] = [2825, 2824, 2761, 2110, 715, 64, 1, 0];

// The entries of d vectors, in their order.
pub fn entries_of(d: usize) -> &'static [u64]
    requires { d ≤ max_listed }
    ensures { result.now ≡ entries_of d }
{
    &entries::table()[BOUNDS[d + 1]..BOUNDS[d]]
}

// Whether the entry is a basis of n variables: its lead bits, which stand above its sixth byte, are bits of those.
pub fn fits(n: usize, entry: u64) -> bool
    requires { n ≤ max_listed }
    ensures { result ≡ fits_entry n entry }
{
    entry >> 48 < (1 << n)
}

// The lead bits that no basis of n variables with the least point p has: an entry is such a basis exactly if it has none of them (`takes-mask`).
pub fn avoided(n: usize, p: u64) -> u64
    requires n_le_max_listed { n ≤ max_listed }
    requires p_bound { p < 2 ^ n }
    ensures { result ≡ avoided n p }
{
    p + (64 - (1 << n))
}
