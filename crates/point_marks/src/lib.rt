// The marks of a stored table by point, as one array of numbers (document 02, No. 1). The table is read by the functions of crate `stored`.
// Read next: specs/Marks.antt.
#![tactic(auto)]

ghost use Rattle.std.specs.Prelude.{◌≡◌};
ghost use Rattle.stored.specs.Stored.{stored_fault};
ghost use Rattle.point_marks.specs.Marks.{record_mark, MarksOf};

use table::MAX_POINTS;

// The three marks, as in specs/. Numbers and no enum: every other place compares them as bytes or writes them as such.
pub const OFF_MARK: u8 = 0;

pub const ON_MARK: u8 = 1;

pub const FREE_MARK: u8 = 2;

// The mark of a record.
fn record_mark(on: bool) -> u8
    ensures { result ≡ record_mark on }
{
    if on { ON_MARK } else { FREE_MARK }
}

// The mark of every point: each record puts in that of its own, and all others are off.
pub fn marks_of(bytes: &[u8]) -> [u8; MAX_POINTS]
    requires { stored_fault bytes.now ≡ 0 }
    ensures { MarksOf bytes.now result }
{
    let mut marks = [OFF_MARK; MAX_POINTS];
    for i in 0..stored::record_count(bytes) {
        let place = table::flag_place(stored::point_at(bytes, i));
        marks[place] = record_mark(stored::is_marked(bytes, i, true));
    }
    marks
}
