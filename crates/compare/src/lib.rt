// Two stored tables laid side by side (document 02, No. 1): each point that they mark differently, with both marks, and the number of these.
// What the words mean is in specs/, the laws about them in proofs/. Read next: specs/Differences.antt.
#![tactic(auto)]

ghost use Rattle.std.specs.Prelude.{◌≡◌, [], ◌∷◌, ◌+◌, ◌≤◌, ◌<◌, length};
ghost use Rattle.std.proofs.lemmas.List.Edits.{sets};
ghost use Rattle.records.specs.Kinds.{low_byte, high_byte};
ghost use Rattle.table.specs.Flags.{max_points};
ghost use Rattle.table.specs.Refusal.{fault_of};
ghost use Rattle.table.specs.Answers.{fault_from, settled};
ghost use Rattle.table.specs.Decision.{front};
ghost use Rattle.point_marks.specs.Marks.{mark_at};
ghost use Rattle.compare.specs.Differences.{differing, difference_length, handed_bytes, stopped_at};
ghost use Rattle.compare.specs.Answer.{compare_tests, refused_comparison, compare_answer, compare_after};

use table::{Answer, MAX_POINTS, Refusal};

// The bytes of a record, as `difference_length` in specs/.
pub const DIFFERENCE_LENGTH: usize = 4;

// What comparing gives: the refusal or 0, its byte place, how many records are written, the point to go on from, and how many points differ in all.
// C reads the refusal as its number.
#[repr(C)]
#[derive(Clone, Copy)]
pub struct Comparison {
    pub refusal: u8,
    pub place: usize,
    pub records: usize,
    pub next: usize,
    pub total: usize,
}

// What a listing gives: how many records it wrote, and the point that it stopped before.
#[derive(Clone, Copy)]
pub struct Stopped {
    pub records: usize,
    pub next: usize,
}

impl Answer for Comparison {
    ghost refused_with = { refused_comparison };

    fn refused(refusal: Refusal) -> Comparison {
        Comparison {
            refusal: refusal.number(),
            place: refusal.place(),
            records: 0,
            next: 0,
            total: 0,
        }
    }
}

// The tests of comparing in their order: the left table, the right table, both variable counts, the first point.
fn check_compare(left: &[u8], right: &[u8], first: usize) -> Result<(), Refusal>
    ensures { fault_from result ≡ fault_of (compare_tests left.now right.now first) }
{
    stored::check_stored(left)?;
    stored::check_stored(right)?;
    let n = stored::variables(left);
    if n != stored::variables(right) {
        return Err(Refusal::Counts);
    }
    if first > (table::point_count(n) as usize) {
        return Err(Refusal::FirstPoint);
    }
    Ok(())
}

// How many points below the size differ. Counted in 16 bits, of which the compiler adds up more at once than of 64: `filter(..).count()`, which
// counts in 64, takes 3 microseconds more of the 20 that a call may take.
fn count_differing(left: &[u8; MAX_POINTS], right: &[u8; MAX_POINTS], size: usize) -> usize
    requires { size ≤ max_points }
    ensures { result ≡ length (differing (mark_at left.now) (mark_at right.now) size) }
{
    let mut count: u16 = 0;
    for p in 0..size {
        if left[p] != right[p] {
            count += 1;
        }
    }
    count as usize
}

// The record of a differing point at a place. The room is C's, and the place in it the only other thing that a writer of records would hold.
fn put_difference(room: &mut [u8], at: usize, point: u16, left: u8, right: u8)
    requires { at + difference_length ≤ length room.old }
    ensures { room.new ≡ sets room.old at (low_byte point ∷ high_byte point ∷ left ∷ right ∷ []) }
{
    records::put_word(&mut *room, at, point);
    room[at + 2] = left;
    room[at + 3] = right;
}

// The records of the differing points from a first point on, as many as the room has place for, written to its front.
fn write_differing(
    left: &[u8; MAX_POINTS],
    right: &[u8; MAX_POINTS],
    first: usize,
    size: usize,
    room: &mut [u8],
) -> Stopped
    requires first_le_size { first ≤ size }
    requires size_le_max_points { size ≤ max_points }
    ensures stopped { result ≡ stopped_at (mark_at left.now) (mark_at right.now) first size (length room.old) }
    ensures room_after { room.new ≡ front (handed_bytes (mark_at left.now) (mark_at right.now) first size (length room.old)) room.old }
{
    let fit = room.len() / DIFFERENCE_LENGTH;
    let mut records = 0;
    for p in first..size {
        if left[p] == right[p] {
            continue;
        }
        if records == fit {
            return Stopped { records, next: p };
        }
        put_difference(
            &mut *room,
            DIFFERENCE_LENGTH * records,
            p as u16,
            left[p],
            right[p],
        );
        records += 1;
    }
    Stopped {
        records,
        next: size,
    }
}

// Two stored tables compared from a first point on, or why they are refused. A refusal writes nothing.
fn try_compare(
    left: &[u8],
    right: &[u8],
    first: usize,
    room: &mut [u8],
) -> Result<Comparison, Refusal>
    ensures answer { settled refused_comparison result ≡ compare_answer left.now right.now first room.old }
    ensures room_after { room.new ≡ compare_after left.now right.now first room.old }
{
    check_compare(left, right, first)?;
    let size = table::point_count(stored::variables(left)) as usize;
    let left_marks = point_marks::marks_of(left);
    let right_marks = point_marks::marks_of(right);
    let total = count_differing(&left_marks, &right_marks, size);
    let stopped = write_differing(&left_marks, &right_marks, first, size, &mut *room);
    Ok(Comparison {
        refusal: 0,
        place: 0,
        records: stopped.records,
        next: stopped.next,
        total,
    })
}

// Two stored tables compared from a first point on: the records of the points that differ, at the front of the room until one doesn't fit.
// A refusal writes nothing.
pub fn compare(left: &[u8], right: &[u8], first: usize, room: &mut [u8]) -> Comparison
    ensures value { result ≡ compare_answer left.now right.now first room.old }
    ensures room_after { room.new ≡ compare_after left.now right.now first room.old }
{
    table::settle(try_compare(left, right, first, room))
}
