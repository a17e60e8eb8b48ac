// How many candidates of a degree have a given least point (document 01, "Primes"): a constant table, by which a listing passes whole points at once.
// What its numbers are is said in specs/, and that they are right in proofs/. Read next: specs/PointCounts.antt.
#![tactic(auto)]

ghost use Rattle.std.specs.Prelude.{◌≡◌, ◌^◌, ◌≤◌, ◌<◌, length};
ghost use Rattle.cubes.specs.Candidates.{candidates_at};
ghost use Rattle.cubes.specs.Records.{max_listed};
ghost use Rattle.point_counts.specs.PointCounts.{point_counts};

// The number of numbers in the table: 64 for each degree from 0 to 6.
pub const COUNT_LENGTH: usize = 448;

// A static is read where it stands; a constant would be stored anew at each use.
static COUNTS: [u16; COUNT_LENGTH] = [
    1, 1, 1, 1, 1, 1, 1, 1, 1, 1, 1, 1, 1, 1, 1, 1, 1, 1, 1, 1, 1, 1, 1, 1, 1, 1, 1, 1, 1, 1, 1, 1,
    1, 1, 1, 1, 1, 1, 1, 1, 1, 1, 1, 1, 1, 1, 1, 1, 1, 1, 1, 1, 1, 1, 1, 1, 1, 1, 1, 1, 1, 1, 1, 1,
    63, 62, 61, 60, 59, 58, 57, 56, 55, 54, 53, 52, 51, 50, 49, 48, 47, 46, 45, 44, 43, 42, 41, 40,
    39, 38, 37, 36, 35, 34, 33, 32, 31, 30, 29, 28, 27, 26, 25, 24, 23, 22, 21, 20, 19, 18, 17, 16,
    15, 14, 13, 12, 11, 10, 9, 8, 7, 6, 5, 4, 3, 2, 1, 0, 651, 620, 590, 560, 533, 504, 476, 448,
    431, 404, 378, 352, 329, 304, 280, 256, 275, 252, 230, 208, 189, 168, 148, 128, 119, 100, 82,
    64, 49, 32, 16, 0, 155, 140, 126, 112, 101, 88, 76, 64, 63, 52, 42, 32, 25, 16, 8, 0, 35, 28,
    22, 16, 13, 8, 4, 0, 7, 4, 2, 0, 1, 0, 0, 0, 1395, 1240, 1100, 960, 862, 736, 624, 512, 533,
    432, 344, 256, 204, 128, 64, 0, 295, 232, 180, 128, 106, 64, 32, 0, 57, 32, 16, 0, 8, 0, 0, 0,
    155, 120, 92, 64, 54, 32, 16, 0, 29, 16, 8, 0, 4, 0, 0, 0, 15, 8, 4, 0, 2, 0, 0, 0, 1, 0, 0, 0,
    0, 0, 0, 0, 651, 496, 376, 256, 220, 128, 64, 0, 118, 64, 32, 0, 16, 0, 0, 0, 61, 32, 16, 0, 8,
    0, 0, 0, 4, 0, 0, 0, 0, 0, 0, 0, 31, 16, 8, 0, 4, 0, 0, 0, 2, 0, 0, 0, 0, 0, 0, 0, 1, 0, 0, 0,
    0, 0, 0, 0, 0, 0, 0, 0, 0, 0, 0, 0, 63, 32, 16, 0, 8, 0, 0, 0, 4, 0, 0, 0, 0, 0, 0, 0, 2, 0, 0,
    0, 0, 0, 0, 0, 0, 0, 0, 0, 0, 0, 0, 0, 1, 0, 0, 0, 0, 0, 0, 0, 0, 0, 0, 0, 0, 0, 0, 0, 0, 0, 0,
    0, 0, 0, 0, 0, 0, 0, 0, 0, 0, 0, 0, 0, 1, 0, 0, 0, 0, 0, 0, 0, 0, 0, 0, 0, 0, 0, 0, 0, 0, 0, 0,
    0, 0, 0, 0, 0, 0, 0, 0, 0, 0, 0, 0, 0, 0, 0, 0, 0, 0, 0, 0, 0, 0, 0, 0, 0, 0, 0, 0, 0, 0, 0, 0,
    0, 0, 0, 0, 0, 0, 0, 0, 0, 0, 0, 0, 0,
];

// The whole table.
pub fn table() -> &'static [u16; COUNT_LENGTH]
    ensures { result.now ≡ point_counts }
{
    &COUNTS
}

fn wide(count: u16) -> u64
    ensures { result ≡ count }
{
    count as u64
}

// How many candidates of n variables and degree d have the least point p: bases of d vectors with no lead bit of p's, nor one beyond n variables.
pub fn candidates_at_point(n: usize, d: usize, p: u64) -> u64
    requires n_le_max_listed { n ≤ max_listed }
    requires d_le_max_listed { d ≤ max_listed }
    requires p_bound { p < 2 ^ n }
    ensures { result ≡ length (candidates_at n d p) }
{
    let avoided = bases::avoided(n, p) as usize;
    wide(table()[d * 64 + avoided])
}
