// The two loops over the index of a form in a list that the caller lends (document 02, No. 5): `matches` looks at its records, `update` changes them.
// All that is decided of one record is decided in crate `index`. Read next: src/lib.rt of crate `glospruma`.
#![tactic(auto)]

ghost use Rattle.std.specs.Prelude.{◌≡◌, length};
ghost use Rattle.index.specs.Records.{bound_of, agrees_upto};
ghost use Rattle.index.specs.Changes.{Changes, updated};

use index::{Indexed, PointRecord};

// The records of the list that belong to the form are those of its points. There is no early exit, so that the loop has no branch.
pub fn matches(list: &[PointRecord], form: &[u8]) -> bool
    ensures { result ≡ agrees_upto form.now list.now (bound_of form.now (length list.now)) }
{
    let many = index::bound(form, list.len());
    let mut same = true;
    for (point, record) in list[..many].iter().enumerate() {
        same = index::still(same, *record, form, point);
    }
    same
}

// Every record that the answer reaches is changed, by its point and what it was; the others stay.
pub fn update(list: &mut [PointRecord], bytes: &[u8], answer: Indexed, way: u8)
    requires { Changes way bytes.now answer list.old }
    ensures { list.new ≡ updated way bytes.now answer list.old }
{
    let many = index::reach(answer, list.len());
    for (point, record) in list[..many].iter_mut().enumerate() {
        *record = index::changed(*record, point, bytes, answer, way);
    }
}
