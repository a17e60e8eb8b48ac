// The stored table (document 01, "The written form"): its bytes are walked from the left, tested, and read into lists of on and free points.
// Read next: specs/Layout.antt.
#![tactic(auto)]

ghost use Rattle.std.specs.Prelude.{◌≡◌, ◌+◌, ◌≤◌, ◌<◌, length, get_or, drop};
ghost use Rattle.std.specs.Bool.{beq};
ghost use Rattle.gf2.specs.Limits.{max_variables};
ghost use Rattle.table.specs.Refusal.{fault_of};
ghost use Rattle.table.specs.Answers.{fault_from, settled};
ghost use Rattle.table.specs.Decision.{front};
ghost use Rattle.table.specs.Table.{outside, unordered};
ghost use Rattle.stored.specs.Marks.{no_mark, marks, marked_points, stored_variables, stored_points};
ghost use Rattle.stored.specs.Reading.{read_tests, refused_read, read_answer, read_on_after, read_free_after};
ghost use Rattle.stored.specs.Stored.{LaidOut, point_tests, stored_tests};
ghost use Rattle.stored.specs.Layout.{first_table_step, table_step, walk_table_from, walked};

use records::{Kind, Step, WORD_RECORD_LENGTH, Walk};
use std::ops::ControlFlow;
use table::{Answer, BytesFault, Refusal};

// Where the records of points begin, as `first_point` in specs/.
pub const FIRST_POINT: usize = 2;

// The bytes of the longest stored table, as `longest_table` in specs/.
pub const LONGEST_TABLE: usize = FIRST_POINT
    + WORD_RECORD_LENGTH * table::MAX_POINTS
    + WORD_RECORD_LENGTH;

// What reading gives: the refusal or 0, its byte place, n, and how many on and free points there are. C reads the refusal as its number.
#[repr(C)]
#[derive(Clone, Copy)]
pub struct TableRead {
    pub refusal: u8,
    pub place: usize,
    pub variables: usize,
    pub on_count: usize,
    pub free_count: usize,
}

impl Answer for TableRead {
    ghost refused_with = { refused_read };

    fn refused(refusal: Refusal) -> TableRead {
        TableRead {
            refusal: refusal.number(),
            place: refusal.place(),
            variables: 0,
            on_count: 0,
            free_count: 0,
        }
    }
}

// The first record of a table.
fn first_step(bytes: &[u8]) -> Step
    requires { 0 < length bytes.now }
    ensures { result ≡ first_table_step (get_or bytes.now 0 0) (drop 1 bytes.now) }
{
    match records::head_of(bytes[0], 0) {
        Ok((Kind::Variables, body)) => records::body_step(bytes, 0, body),
        Ok(_) => ControlFlow::Break(Err(BytesFault::WrongKind(0))),
        Err(fault) => ControlFlow::Break(Err(fault)),
    }
}

// A later record, at the place, with a number of records before it.
fn record_step(bytes: &[u8], count: usize, place: usize) -> Step
    requires { place < length bytes.now }
    ensures { result ≡ table_step count (get_or bytes.now place 0) place (drop (place + 1) bytes.now) }
{
    if place == LONGEST_TABLE {
        return ControlFlow::Break(Err(BytesFault::After(place)));
    }
    match records::head_of(bytes[place], place) {
        Ok((Kind::On | Kind::Free, body)) => records::body_step(bytes, place, body),
        Ok((Kind::End, body)) => records::end_step(bytes, count, place, body),
        Ok(_) => ControlFlow::Break(Err(BytesFault::WrongKind(place))),
        Err(fault) => ControlFlow::Break(Err(fault)),
    }
}

// The walk over the records after the first, from the place on. The place moves by the length of each record, which is why no range counts it.
fn walk_records(bytes: &[u8], start: usize) -> Walk
    requires { start ≤ length bytes.now }
    ensures { result ≡ walk_table_from 0 0 start (drop start bytes.now) }
{
    let mut count = 0;
    let mut place = start;
    while place < bytes.len() {
        match record_step(bytes, count, place) {
            ControlFlow::Break(end) => return end,
            ControlFlow::Continue(length) => {
                place = place + 1 + length;
                count += 1;
            }
        }
    }
    Err(BytesFault::Missing(place))
}

// The walk over the bytes of a table.
pub fn walk_table(bytes: &[u8]) -> Walk
    ensures { result ≡ walked bytes.now }
{
    if bytes.is_empty() {
        return Err(BytesFault::Missing(0));
    }
    match first_step(bytes) {
        ControlFlow::Break(end) => end,
        ControlFlow::Continue(length) => walk_records(bytes, 1 + length),
    }
}

// n, the body of the first record. This function and those after it take bytes, which `LaidOut` says are laid out as a table: a struct of such bytes
// would ask more of the callers of the public ones.
#[tactic(auto, using(crate::proofs::Laying::places))]
pub fn variables(bytes: &[u8]) -> usize
    requires { LaidOut bytes.now }
    ensures { result ≡ stored_variables bytes.now }
{
    bytes[1] as usize
}

// The number of records of points: the first record, theirs and the end record take up all the bytes.
#[tactic(auto, using(crate::proofs::Laying::places))]
pub fn record_count(bytes: &[u8]) -> usize
    requires { LaidOut bytes.now }
    ensures { result ≡ length (marks bytes.now) }
{
    (bytes.len() - FIRST_POINT) / WORD_RECORD_LENGTH - 1
}

// The point of a record, by the record's number.
#[tactic(auto, using(crate::proofs::Laying::places))]
pub fn point_at(bytes: &[u8], i: usize) -> u16
    requires laid_out { LaidOut bytes.now }
    requires i_in_bounds { i < length (marks bytes.now) }
    ensures { result ≡ get_or (stored_points bytes.now) i 0 }
{
    let place = FIRST_POINT + WORD_RECORD_LENGTH * i;
    records::word(bytes[place + 1], bytes[place + 2])
}

// A point of a record is 2^n or more. Table's `outside` asks it of a list; one function over both would be no plainer than the chain.
fn points_outside(bytes: &[u8], n: usize) -> bool
    requires laid_out { LaidOut bytes.now }
    requires n_le_max_variables { n ≤ max_variables }
    ensures { result ≡ outside n (stored_points bytes.now) }
{
    let size = table::point_count(n);
    (0..record_count(bytes)).any(|i| point_at(bytes, i) >= size)
}

// The point of a record isn't greater than that of the record before it.
fn points_unordered(bytes: &[u8]) -> bool
    requires { LaidOut bytes.now }
    ensures { result ≡ unordered (stored_points bytes.now) }
{
    (1..record_count(bytes)).any(|i| point_at(bytes, i) <= point_at(bytes, i - 1))
}

// The tests of bytes that are laid out: n, then all points, then their order as one list.
fn check_points(bytes: &[u8]) -> Result<(), Refusal>
    requires { LaidOut bytes.now }
    ensures { fault_from result ≡ fault_of (point_tests bytes.now) }
{
    let n = variables(bytes);
    if table::bad_count(n) {
        return Err(Refusal::Variables);
    }
    if points_outside(bytes, n) {
        return Err(Refusal::Point);
    }
    if points_unordered(bytes) {
        return Err(Refusal::Order);
    }
    Ok(())
}

// The tests of a stored table: the layout over the whole length, with its place, then n and the points.
pub fn check_stored(bytes: &[u8]) -> Result<(), Refusal>
    ensures { fault_from result ≡ fault_of (stored_tests bytes.now) }
{
    walk_table(bytes)?;
    check_points(bytes)
}

// A record, by its number, is of an on point if those are asked for, or else of a free point. A flag says which, as `is_on` does of a mark in specs/.
#[tactic(auto, using(crate::proofs::Laying::places))]
pub fn is_marked(bytes: &[u8], i: usize, on: bool) -> bool
    requires laid_out { LaidOut bytes.now }
    requires i_in_bounds { i < length (marks bytes.now) }
    ensures { result ≡ beq on (get_or (marks bytes.now) i no_mark).is_on }
{
    let place = FIRST_POINT + WORD_RECORD_LENGTH * i;
    on == (bytes[place] == records::ON_KIND)
}

// The number of on points, or of free points. They are counted before the first is written, since a refusal leaves the rooms as they were.
// A chain of `filter` and `count` branches at each record, which a table of points at random makes twice as slow.
fn count_points(bytes: &[u8], on: bool) -> usize
    requires { LaidOut bytes.now }
    ensures { result ≡ length (marked_points on (marks bytes.now)) }
{
    let mut found = 0;
    for i in 0..record_count(bytes) {
        if is_marked(bytes, i, on) {
            found += 1;
        }
    }
    found
}

// The on points, or the free points, written to the front of the room; how many they are.
fn write_points(bytes: &[u8], on: bool, room: &mut [u16]) -> usize
    requires laid_out { LaidOut bytes.now }
    requires enough_room { length (marked_points on (marks bytes.now)) ≤ length room.old }
    ensures count { result ≡ length (marked_points on (marks bytes.now)) }
    ensures room_after { room.new ≡ front (marked_points on (marks bytes.now)) room.old }
{
    let mut at = 0;
    for i in 0..record_count(bytes) {
        if is_marked(bytes, i, on) {
            room[at] = point_at(bytes, i);
            at += 1;
        }
    }
    at
}

// The tests of reading into rooms of these lengths.
fn check_read(bytes: &[u8], on_room: usize, free_room: usize) -> Result<(), Refusal>
    ensures { fault_from result ≡ fault_of (read_tests bytes.now on_room free_room) }
{
    check_stored(bytes)?;
    if on_room < count_points(bytes, true) || free_room < count_points(bytes, false) {
        return Err(Refusal::Room);
    }
    Ok(())
}

// The stored table read into two rooms, one for the on points and one for the free points, or why it is refused. A refusal writes to neither.
pub fn try_read(bytes: &[u8], on: &mut [u16], free: &mut [u16]) -> Result<TableRead, Refusal>
    ensures refusal { fault_from result ≡ fault_of (read_tests bytes.now (length on.old) (length free.old)) }
    ensures answer { settled refused_read result ≡ read_answer bytes.now (length on.old) (length free.old) }
    ensures on_after { on.new ≡ read_on_after bytes.now on.old free.old }
    ensures free_after { free.new ≡ read_free_after bytes.now on.old free.old }
{
    check_read(bytes, on.len(), free.len())?;
    let on_count = write_points(bytes, true, &mut *on);
    let free_count = write_points(bytes, false, &mut *free);
    Ok(TableRead {
        refusal: 0,
        place: 0,
        variables: variables(bytes),
        on_count,
        free_count,
    })
}

// The same for C, with the refusal's number in the answer.
pub fn read_table(bytes: &[u8], on: &mut [u16], free: &mut [u16]) -> TableRead
    ensures value { result ≡ read_answer bytes.now (length on.old) (length free.old) }
    ensures on_after { on.new ≡ read_on_after bytes.now on.old free.old }
    ensures free_after { free.new ≡ read_free_after bytes.now on.old free.old }
{
    table::settle(try_read(bytes, on, free))
}
