// The walk over the candidates of a listing (document 01, "Primes"): degree, least point and entry of the table of bases, one after the other; a prime's
// record has the number of on points in it behind those (document 02, No. 6).
// What the functions say of their results is in specs/, the laws about that in proofs/. Read next: crate `point_counts`.
#![tactic(auto)]

ghost use Rattle.std.specs.Prelude.{◌≡◌, [], ◌∷◌, ◌++◌, ◌+◌, ◌*◌, ◌^◌, ◌≤◌, ◌<◌, length, drop};
ghost use Rattle.std.proofs.lemmas.List.Edits.{sets};
ghost use Rattle.cubes.specs.Candidates.{candidates_at};
ghost use Rattle.cubes.specs.Records.{max_listed, record_length};
ghost use Rattle.bases.specs.Bases.{vectors_of};
ghost use Rattle.masks.specs.Points.{OfPoints};
ghost use Rattle.bases.specs.Entry.{candidate_at, EntryAt};
ghost use Rattle.walk.specs.Places.{of_degree_from, from_point};
ghost use Rattle.walk.specs.Walk.{starting, going_on, state_after, pass_masked, walk_masked, Walked};

use cubes::RECORD_LENGTH;
use std::ops::ControlFlow;

// ---- one candidate

// The record after the first k records of the room.
fn put(room: &mut [u8], k: usize, d: usize, p: u64, entry: u64, count: u32)
    requires record_length_in_bounds { record_length * k + record_length ≤ length room.old }
    requires d_bound { d < 256 }
    requires p_bound { p < 256 }
    requires count_bound { count < 256 }
    ensures { room.new ≡ sets room.old (record_length * k) ((d ∷ p ∷ vectors_of 6 entry) ++ (count ∷ [])) }
{
    let at = RECORD_LENGTH * k;
    room[at] = d as u8;
    room[at + 1] = p as u8;
    room[at + 2..at + 8].copy_from_slice(&entry.to_le_bytes()[..6]);
    room[at + 8] = count as u8;
}

// What is left of a walk's allowance, and how many records it has written.
#[derive(Clone, Copy)]
pub struct Tally {
    pub left: u64,
    pub written: usize,
}

// One candidate of a walk: passed, passed and written, or the walk stops before it.
fn pass(
    on: u64,
    free: u64,
    n: usize,
    d: usize,
    p: u64,
    entry: u64,
    tally: Tally,
    room: &mut [u8],
) -> ControlFlow<Tally, Tally>
    requires on_points { OfPoints n on }
    requires free_points { OfPoints n free }
    requires entry_at { EntryAt n d p entry }
    requires written_in_bounds { record_length * tally.written ≤ length room.old }
    ensures { state_after result room.new ≡ pass_masked n on free (candidate_at d p entry) (going_on tally room.old) }
{
    let Tally { left, written } = tally;
    if left == 0 {
        return ControlFlow::Break(tally);
    }
    let count = masks::count_in_prime(on, free, n, d, p, entry);
    if count == 0 {
        return ControlFlow::Continue(Tally {
            left: left - 1,
            written,
        });
    }
    if room.len() - RECORD_LENGTH * written < RECORD_LENGTH {
        return ControlFlow::Break(tally);
    }
    put(&mut *room, written, d, p, entry, count);
    ControlFlow::Continue(Tally {
        left: left - 1,
        written: written + 1,
    })
}

// ---- the candidates of a point, of a degree, and of all

// Where a walk stands that goes on: how many candidates are still to be skipped, and its tally.
#[derive(Clone, Copy)]
pub struct Progress {
    pub skip: u64,
    pub tally: Tally,
}

// The candidates of degree d with the least point p: the entries of d vectors that have none of the lead bits avoided.
fn walk_point(
    on: u64,
    free: u64,
    n: usize,
    d: usize,
    p: u64,
    from: Progress,
    room: &mut [u8],
) -> ControlFlow<Tally, Progress>
    requires on_points { OfPoints n on }
    requires free_points { OfPoints n free }
    requires n_le_max_listed { n ≤ max_listed }
    requires d_le_n { d ≤ n }
    requires p_bound { p < 2 ^ n }
    requires written_in_bounds { record_length * from.tally.written ≤ length room.old }
    ensures { Walked n on free (candidates_at n d p) from room.old result room.new }
{
    let avoided = bases::avoided(n, p) << 48;
    let mut progress = from;
    for &entry in bases::entries_of(d) {
        if entry & avoided != 0 {
            continue;
        }
        if progress.skip > 0 {
            progress.skip -= 1;
            continue;
        }
        progress.tally = pass(on, free, n, d, p, entry, progress.tally, &mut *room)?;
    }
    ControlFlow::Continue(progress)
}

// The candidates of degree d from a least point on.
fn walk_degree(
    on: u64,
    free: u64,
    n: usize,
    d: usize,
    point: u64,
    from: Progress,
    room: &mut [u8],
) -> ControlFlow<Tally, Progress>
    requires on_points { OfPoints n on }
    requires free_points { OfPoints n free }
    requires n_le_max_listed { n ≤ max_listed }
    requires d_le_n { d ≤ n }
    requires point_bound { point < 2 ^ n }
    requires written_in_bounds { record_length * from.tally.written ≤ length room.old }
    ensures { Walked n on free (of_degree_from n d point) from room.old result room.new }
{
    let mut progress = from;
    for p in point..1 << n {
        progress = walk_point(on, free, n, d, p, progress, &mut *room)?;
    }
    ControlFlow::Continue(progress)
}

// The walk over the candidates of a degree from a least point on, and of lower degrees, without the first few: how it ends.
pub fn walk(
    on: u64,
    free: u64,
    n: usize,
    degree: usize,
    point: u64,
    skip: u64,
    allowance: u64,
    room: &mut [u8],
) -> ControlFlow<Tally, Tally>
    requires on_points { OfPoints n on }
    requires free_points { OfPoints n free }
    requires n_le_max_listed { n ≤ max_listed }
    requires degree_le_n { degree ≤ n }
    requires point_bound { point < 2 ^ n }
    ensures { state_after result room.new ≡ walk_masked n on free (drop skip (from_point n degree point)) (going_on (starting allowance) room.old) }
{
    let tally = Tally {
        left: allowance,
        written: 0,
    };
    let mut progress = Progress { skip, tally };
    let mut first = point;
    for d in (0..degree + 1).rev() {
        progress = walk_degree(on, free, n, d, first, progress, &mut *room)?;
        first = 0;
    }
    ControlFlow::Continue(progress.tally)
}
