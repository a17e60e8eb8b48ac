// The listing of primes (document 01, "Primes"): its refusals, where it starts, and the walk of crate `walk` from there. What the listing is, is
// said in crate `cubes`; what the functions say of their results in specs/, the laws about that in proofs/. Read next: specs/Starts.antt.
#![tactic(auto)]

ghost use Rattle.std.specs.Prelude.{◌≡◌, [], ◌≤◌, length};
ghost use Rattle.cubes.specs.Candidates.{candidates_of, candidate_count};
ghost use Rattle.cubes.specs.Records.{max_listed};
ghost use Rattle.cubes.specs.Listing.{listing_fault, listing_answer, listing_after};
ghost use Rattle.listing.specs.Starts.{StartsAt, PointAt};
ghost use Rattle.listing.specs.Answers.{call_of, numbers_of, refused_listing};
ghost use Rattle.table.specs.Answers.{refusal_number, settled};
ghost use Rattle.walk.specs.Walk.{tally_after};

use cubes::MAX_LISTED;
use std::ops::ControlFlow;
use table::{Answer, Refusal};
use walk::Tally;

// Where a listing starts: the degree of its first candidates, and how many of that degree are behind it.
#[derive(Clone, Copy)]
pub struct Start {
    pub degree: usize,
    pub skip: u64,
}

// How many candidates n variables have.
const COUNTS: [u64; 7] = [1, 3, 11, 51, 307, 2451, 26387];

fn candidate_count(n: usize) -> u64
    requires { n ≤ max_listed }
    ensures { result ≡ candidate_count n }
{
    COUNTS[n]
}

// How many candidates of degree d n variables have, seven numbers for each n from 0 to 6.
const DEGREE_COUNTS: [u64; 49] = [
    1, 0, 0, 0, 0, 0, 0, 2, 1, 0, 0, 0, 0, 0, 4, 6, 1, 0, 0, 0, 0, 8, 28, 14, 1, 0, 0, 0, 16, 120,
    140, 30, 1, 0, 0, 32, 496, 1240, 620, 62, 1, 0, 64, 2016, 10416, 11160, 2604, 126, 1,
];

fn degree_count(n: usize, d: usize) -> u64
    requires n_le_max_listed { n ≤ max_listed }
    requires d_le_max_listed { d ≤ max_listed }
    ensures { result ≡ length (candidates_of n d) }
{
    DEGREE_COUNTS[n * 7 + d]
}

// The degree of a listing at a place: whole degrees before the place are passed at once.
fn start_at(n: usize, place: u64) -> Start
    requires { n ≤ max_listed }
    ensures { StartsAt n place result }
{
    let mut skip = place;
    for degree in (1..n + 1).rev() {
        let count = degree_count(n, degree);
        if skip < count {
            return Start { degree, skip };
        }
        skip -= count;
    }
    Start { degree: 0, skip }
}

// The first least point of a listing, and how many candidates from that point on are still to be skipped.
#[derive(Clone, Copy)]
pub struct FirstPoint {
    pub point: u64,
    pub skip: u64,
}

// The point of a listing in its degree: whole points before it are passed at once, too.
fn point_at(n: usize, degree: usize, skip: u64) -> FirstPoint
    requires n_le_max_listed { n ≤ max_listed }
    requires degree_le_n { degree ≤ n }
    ensures { PointAt n degree skip result }
{
    let last: u64 = (1 << n) - 1;
    let mut left = skip;
    for point in 0..last {
        let count = point_counts::candidates_at_point(n, degree, point);
        if left < count {
            return FirstPoint { point, skip: left };
        }
        left -= count;
    }
    FirstPoint {
        point: last,
        skip: left,
    }
}

// The tests of a listing call: those of the table, then too many variables, then a place above the number of candidates.
fn check_call(n: usize, on: &[u16], free: &[u16], place: u64) -> Result<(), Refusal>
    ensures { refusal_number result ≡ listing_fault (call_of n on.now free.now place 0 []) }
{
    table::check_table(n, on, free)?;
    if n > MAX_LISTED {
        return Err(Refusal::Size);
    }
    if place > candidate_count(n) {
        return Err(Refusal::Place);
    }
    Ok(())
}

// What a listing call returns: the refusal, or 0; the next place; how many candidates were passed; how many records were written. C reads the
// refusal as its number.
#[repr(C)]
#[derive(Clone, Copy)]
pub struct Listed {
    pub refusal: u8,
    pub next: u64,
    pub passed: u64,
    pub records: usize,
}

impl Answer for Listed {
    ghost refused_with = { refused_listing };

    fn refused(refusal: Refusal) -> Listed {
        Listed {
            refusal: refusal.number(),
            next: 0,
            passed: 0,
            records: 0,
        }
    }
}

// The tally with which a walk has ended, whether it stopped or came to the end.
fn tally_of(walked: ControlFlow<Tally, Tally>) -> Tally
    ensures { result ≡ tally_after walked }
{
    match walked {
        ControlFlow::Continue(tally) | ControlFlow::Break(tally) => tally,
    }
}

// The tests of the call, then the walk from its place on.
fn try_list_primes(
    n: usize,
    on: &[u16],
    free: &[u16],
    place: u64,
    allowance: u64,
    room: &mut [u8],
) -> Result<Listed, Refusal>
    ensures numbers { numbers_of (settled refused_listing result) ≡ listing_answer (call_of n on.now free.now place allowance room.old) }
    ensures room_after { room.new ≡ listing_after (call_of n on.now free.now place allowance room.old) }
{
    check_call(n, on, free, place)?;
    let on_mask = masks::points::mask_of(on);
    let free_mask = masks::points::mask_of(free);
    let start = start_at(n, place);
    let first = point_at(n, start.degree, start.skip);
    let walked = walk::walk(
        on_mask,
        free_mask,
        n,
        start.degree,
        first.point,
        first.skip,
        allowance,
        &mut *room,
    );
    let tally = tally_of(walked);
    let passed = allowance - tally.left;
    Ok(Listed {
        refusal: 0,
        next: place + passed,
        passed,
        records: tally.written,
    })
}

// The listing of the primes of a table from a place on, with an allowance of candidates; the records at the front of the room.
pub fn list_primes(
    n: usize,
    on: &[u16],
    free: &[u16],
    place: u64,
    allowance: u64,
    room: &mut [u8],
) -> Listed
    ensures result_value { numbers_of result ≡ listing_answer (call_of n on.now free.now place allowance room.old) }
    ensures room_after { room.new ≡ listing_after (call_of n on.now free.now place allowance room.old) }
{
    table::settle(try_list_primes(n, on, free, place, allowance, &mut *room))
}
