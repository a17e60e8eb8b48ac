// The tests of a table (document 01, "Refusal numbers") and flags that mark points. What the words mean is in specs/, the laws about them
// in proofs/. Read next: specs/Refusal.antt.
#![tactic(auto)]

ghost use Rattle.std.specs.Prelude.{◌≡◌, false, ◌≤◌, ◌^◌};
ghost use Rattle.gf2.specs.Limits.{max_variables};
ghost use Rattle.table.specs.declared.Refusal.{Refusal};
ghost use Rattle.table.specs.declared.Refusal.TheVariants.{Bytes};
ghost use Rattle.table.specs.Refusal.{has_place};
ghost use Rattle.table.specs.Answers.{bytes_fault_number, bytes_fault_place, number_of, place_of, refusal_number, settled};
ghost use Rattle.table.specs.Table.{bad_count, outside, unordered, shared, table_fault};
ghost use Rattle.table.specs.Flags.{marked, flags_of};

use gf2::MAX_VARIABLES;

// What is wrong with bytes, and at which byte place.
#[derive(Clone, Copy, Debug, PartialEq, Eq)]
pub enum BytesFault {
    WrongKind(usize),
    Missing(usize),
    WrongVariables(usize),
    WrongFactor(usize),
    NotCanonical(usize),
    WrongCount(usize),
    After(usize),
    TooMany(usize),
}

impl BytesFault {
    // The refusal number.
    pub fn number(self) -> u8
        ensures { result ≡ bytes_fault_number self }
    {
        match self {
            BytesFault::WrongKind(_) => 20,
            BytesFault::Missing(_) => 21,
            BytesFault::WrongVariables(_) => 22,
            BytesFault::WrongFactor(_) => 23,
            BytesFault::NotCanonical(_) => 24,
            BytesFault::WrongCount(_) => 25,
            BytesFault::After(_) => 26,
            BytesFault::TooMany(_) => 27,
        }
    }

    // The byte place.
    pub fn place(self) -> usize
        ensures { result ≡ bytes_fault_place self }
    {
        match self {
            BytesFault::WrongKind(place)
            | BytesFault::Missing(place)
            | BytesFault::WrongVariables(place)
            | BytesFault::WrongFactor(place)
            | BytesFault::NotCanonical(place)
            | BytesFault::WrongCount(place)
            | BytesFault::After(place)
            | BytesFault::TooMany(place) => place,
        }
    }
}

// Why an input is refused. `specs/Refusal.antt` says of each what is at fault.
#[derive(Clone, Copy, Debug, PartialEq, Eq)]
pub enum Refusal {
    Variables,
    Point,
    Order,
    Shared,
    Size,
    Affine,
    Room,
    Place,
    Counts,
    FirstPoint,
    EmptyForm,
    Records,
    Bytes(BytesFault),
}

impl Refusal {
    // The number that a call gives for it.
    pub fn number(self) -> u8
        ensures { result ≡ number_of self }
    {
        match self {
            Refusal::Variables => 1,
            Refusal::Point => 2,
            Refusal::Order => 3,
            Refusal::Shared => 4,
            Refusal::Size => 5,
            Refusal::Affine => 6,
            Refusal::Room => 7,
            Refusal::Place => 9,
            Refusal::Counts => 10,
            Refusal::FirstPoint => 11,
            Refusal::EmptyForm => 12,
            Refusal::Records => 17,
            Refusal::Bytes(fault) => fault.number(),
        }
    }

    // The byte place that a call gives for it, 0 where its number has none.
    pub fn place(self) -> usize
        ensures { result ≡ place_of self }
    {
        match self {
            Refusal::Bytes(fault) => fault.place(),
            _ => 0,
        }
    }
}

impl From<BytesFault> for Refusal {
    ghost from_gives = { λ fault refusal. refusal ≡ Bytes fault };

    fn from(fault: BytesFault) -> Refusal {
        Refusal::Bytes(fault)
    }
}

// The answer of a call, which has one for every refusal: its number, its place if the answer has a field for it, and 0 in all other fields.
pub trait Answer {
    ghost refused_with: { Refusal → Self };

    fn refused(refusal: Refusal) -> Self
        ensures { result ≡ refused_with refusal };
}

// What a call gives for what it found.
pub fn settle<A: Answer>(found: Result<A, Refusal>) -> A
    ensures { result ≡ settled A.refused_with found }
{
    match found {
        Ok(answer) => answer,
        Err(refusal) => A::refused(refusal),
    }
}

// The number of a refusal has a byte place. It takes the number and no `Refusal`, since a report has no more than the number.
#[tactic(auto, unfolding(crate::specs::Refusal::has_place))]
pub fn has_place(number: u8) -> bool
    ensures { result ≡ has_place number }
{
    matches!(number, 20..=27)
}

// The number of points of the largest number of variables, as `max_points` in specs/.
pub const MAX_POINTS: usize = 1 << MAX_VARIABLES;

// The number of points of n variables. Not `1 << n`: from that the compiler makes a test `p < count` in a loop a shift in every turn.
pub fn point_count(n: usize) -> u16
    requires { n ≤ max_variables }
    ensures { result ≡ 2 ^ n }
{
    (MAX_POINTS >> (MAX_VARIABLES - n)) as u16
}

// The place of a point's flag.
pub fn flag_place(point: u16) -> usize
    ensures { result ≡ point }
{
    point as usize
}

// n is 0 or above the largest number of variables.
pub fn bad_count(n: usize) -> bool
    ensures { result ≡ bad_count n }
{
    n == 0 || n > MAX_VARIABLES
}

// A point of the list is 2^n or more.
pub fn outside(n: usize, points: &[u16]) -> bool
    requires { n ≤ max_variables }
    ensures { result ≡ outside n points.now }
{
    let size = point_count(n);
    points.iter().any(|&point| point >= size)
}

// A point isn't greater than the one before it.
pub fn unordered(points: &[u16]) -> bool
    ensures { result ≡ unordered points.now }
{
    !points.is_sorted_by(|point, next| point < next)
}

// The flags with those of the points set, and the others as they were.
pub fn mark(points: &[u16], mut flags: [bool; MAX_POINTS]) -> [bool; MAX_POINTS]
    requires { outside max_variables points.now ≡ false }
    ensures { result ≡ marked points.now flags }
{
    for &point in points {
        flags[flag_place(point)] = true;
    }
    flags
}

// The flags of the points, all others clear.
pub fn flags_of(points: &[u16]) -> [bool; MAX_POINTS]
    requires { outside max_variables points.now ≡ false }
    ensures { result ≡ flags_of points.now }
{
    let clear = [false; MAX_POINTS];
    mark(points, clear)
}

// A point stands in both lists.
pub fn shared(on: &[u16], free: &[u16]) -> bool
    requires on_value { outside max_variables on.now ≡ false }
    requires free_value { outside max_variables free.now ≡ false }
    ensures { result ≡ shared on.now free.now }
{
    let flags = flags_of(on);
    for &point in free {
        if flags[flag_place(point)] {
            return true;
        }
    }
    false
}

// The tests of a table in their order, each over both lists before the next.
pub fn check_table(n: usize, on: &[u16], free: &[u16]) -> Result<(), Refusal>
    ensures { refusal_number result ≡ table_fault n on.now free.now }
{
    if bad_count(n) {
        return Err(Refusal::Variables);
    }
    if outside(n, on) || outside(n, free) {
        return Err(Refusal::Point);
    }
    if unordered(on) || unordered(free) {
        return Err(Refusal::Order);
    }
    if shared(on, free) {
        return Err(Refusal::Shared);
    }
    Ok(())
}
