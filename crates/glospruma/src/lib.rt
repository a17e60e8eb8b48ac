// The public calls, exported to C and Rust, and nothing else: each hands its arguments to the crate that does the work. The three that keep an index are calls in
// a row without a branch: crate `index` decides, and `index_list` goes over the list. A call takes numbers and lent
// slices, asks nothing of its caller, and says in its contract what it returns and what every lent slice holds afterwards, on all inputs. A refused
// call returns the number of document 01, "Refusal numbers", or of document 02, with all other numbers 0 and all lent memory as before. Read next: crate `claims`.
#![tactic(auto)]

ghost use Rattle.std.specs.Prelude.{◌≡◌, length};
ghost use Rattle.stored.specs.Reading.{read_answer, read_on_after, read_free_after};
ghost use Rattle.compare.specs.Answer.{compare_answer, compare_after};
ghost use Rattle.form_calls.specs.Reading.{points_answer, points_after, rewrite_answer, rewrite_after};
ghost use Rattle.cubes.specs.Listing.{listing_answer, listing_after};
ghost use Rattle.listing.specs.Answers.{call_of, numbers_of};
ghost use Rattle.writing.specs.Writing.{write_answer, write_after};
ghost use Rattle.index.specs.Answers.{build_answer, build_after, append_answer, append_list_after, append_after, remove_answer, remove_list_after, remove_after};
ghost use Rattle.report.specs.Answer.{report_answer, report_after};
ghost use Rattle.analysis.specs.Spaces.{linear_space_answer, complete_answer, complete_after, analyse_answer, analyse_after};
ghost use Rattle.analysis.specs.Affine.{affine_answer, affine_after};

use analysis::{AffineSpace, Analysis, Completion, LinearSpace};
use compare::Comparison;
use form_calls::{FormPoints, FormRewrite};
use index::{Indexed, PointRecord};
use listing::Listed;
use report::ReportWritten;
use stored::TableRead;
use writing::FormWritten;

// A stored table read into two rooms, one for its on points and one for its free points. Refusals 20, 21, 25, 26, then 1, 2, 3, then 7 for
// either room.
#[unsafe(no_mangle)]
pub extern "C" fn glospruma_read_table(bytes: &[u8], on: &mut [u16], free: &mut [u16]) -> TableRead
    ensures value { result ≡ read_answer bytes.now (length on.old) (length free.old) }
    ensures on_after { on.new ≡ read_on_after bytes.now on.old free.old }
    ensures free_after { free.new ≡ read_free_after bytes.now on.old free.old }
{
    stored::read_table(bytes, &mut *on, &mut *free)
}

// Two stored tables compared from a first point on: a record at the front of the room for each point that they mark differently, until one doesn't fit,
// and the number of all such points. Refusals 20, 21, 25, 26, 1, 2, 3 of the left table, then of the right one, then 10, 11; a room that runs short stops the
// listing.
#[unsafe(no_mangle)]
pub extern "C" fn glospruma_compare(
    left: &[u8],
    right: &[u8],
    first: usize,
    room: &mut [u8],
) -> Comparison
    ensures value { result ≡ compare_answer left.now right.now first room.old }
    ensures room_after { room.new ≡ compare_after left.now right.now first room.old }
{
    compare::compare(left, right, first, &mut *room)
}

// The linear space of the function that is on at the given points and off elsewhere. Refusals 1, 2, 3.
#[unsafe(no_mangle)]
pub extern "C" fn glospruma_linear_space(n: usize, on: &[u16]) -> LinearSpace
    ensures { result ≡ linear_space_answer n on.now }
{
    analysis::linear_space(n, on)
}

// The completed function's points, rising, at the front of the room. Refusals 1, 2, 3, 4, then 7.
#[unsafe(no_mangle)]
pub extern "C" fn glospruma_complete(
    n: usize,
    on: &[u16],
    free: &[u16],
    room: &mut [u16],
) -> Completion
    ensures value { result ≡ complete_answer n on.now free.now room.old }
    ensures room_after { room.new ≡ complete_after n on.now free.now room.old }
{
    analysis::complete(n, on, free, &mut *room)
}

// The linear space of the completed function, and the points of its restriction, rising, at the front of the room. Refusals 1, 2, 3, 4, then 7.
#[unsafe(no_mangle)]
pub extern "C" fn glospruma_analyse(
    n: usize,
    on: &[u16],
    free: &[u16],
    room: &mut [u16],
) -> Analysis
    ensures value { result ≡ analyse_answer n on.now free.now room.old }
    ensures room_after { room.new ≡ analyse_after n on.now free.now room.old }
{
    analysis::analyse(n, on, free, &mut *room)
}

// The smallest affine space that holds the on points, and their projection at the front of the room. Refusals 1, 2, 3, 6, then 7.
#[unsafe(no_mangle)]
pub extern "C" fn glospruma_affine(n: usize, on: &[u16], room: &mut [u16]) -> AffineSpace
    ensures value { result ≡ affine_answer n on.now room.old }
    ensures room_after { room.new ≡ affine_after n on.now room.old }
{
    analysis::affine(n, on, &mut *room)
}

// The points of a form, rising, at the front of the room. Refusals 20 to 27, then 7.
#[unsafe(no_mangle)]
pub extern "C" fn glospruma_form_points(bytes: &[u8], room: &mut [u16]) -> FormPoints
    ensures value { result ≡ points_answer bytes.now room.old }
    ensures room_after { room.new ≡ points_after bytes.now room.old }
{
    form_calls::form_points(bytes, &mut *room)
}

// A form read and written again, at the front of the room: the same bytes. Refusals 20 to 27, then 7.
#[unsafe(no_mangle)]
pub extern "C" fn glospruma_form_rewrite(bytes: &[u8], room: &mut [u8]) -> FormRewrite
    ensures value { result ≡ rewrite_answer bytes.now room.old }
    ensures room_after { room.new ≡ rewrite_after bytes.now room.old }
{
    form_calls::form_rewrite(bytes, &mut *room)
}

// The primes of a table from a place on: candidates are passed in order until the end, the end of the allowance, or a prime that no longer
// fits; the primes' records stand at the front of the room. Refusals 1, 2, 3, 4, 5, 9; a room that runs short stops the listing.
#[unsafe(no_mangle)]
pub extern "C" fn glospruma_list_primes(
    n: usize,
    on: &[u16],
    free: &[u16],
    place: u64,
    allowance: u64,
    room: &mut [u8],
) -> Listed
    ensures result_value { numbers_of result ≡ listing_answer (call_of n on.now free.now place allowance room.old) }
    ensures room_after { room.new ≡ listing_after (call_of n on.now free.now place allowance room.old) }
{
    listing::list_primes(n, on, free, place, allowance, &mut *room)
}

// The form of a table, at the front of the room: its bytes and its products are counted. Refusals 1, 2, 3, 4, 5, then 7.
#[unsafe(no_mangle)]
pub extern "C" fn glospruma_write_form(
    n: usize,
    on: &[u16],
    free: &[u16],
    room: &mut [u8],
) -> FormWritten
    ensures value { result ≡ write_answer n on.now free.now room.old }
    ensures room_after { room.new ≡ write_after n on.now free.now room.old }
{
    writing::write_form(n, on, free, &mut *room)
}

// The index of a form built at the front of the list: a record for each of its points. Refusals 20 to 27, then 7 for the list.
#[unsafe(no_mangle)]
pub extern "C" fn glospruma_index_build(form: &[u8], list: &mut [PointRecord]) -> Indexed
    ensures value { result ≡ build_answer form.now list.old }
    ensures list_after { list.new ≡ build_after form.now list.old }
{
    let answer = index::build_answer(form, list.len());
    index_list::update(list, form, answer, index::BUILD);
    answer
}

// A product appended to a form: the new form at the front of the room, and the product counted at its points in the list, which begins with the index of
// the form. Refusals 20 to 27 of the form, then 20, 21, 23, 24 of the product, then 7 for the list, 17, 27, then 7 for the room.
#[unsafe(no_mangle)]
pub extern "C" fn glospruma_index_append(
    form: &[u8],
    product: &[u8],
    list: &mut [PointRecord],
    room: &mut [u8],
) -> Indexed
    ensures value { result ≡ append_answer form.now product.now list.old room.old }
    ensures list_after { list.new ≡ append_list_after form.now product.now list.old room.old }
    ensures room_after { room.new ≡ append_after form.now product.now list.old room.old }
{
    let same = index_list::matches(list, form);
    let answer = index::append_form(form, product, list.len(), same, room);
    index_list::update(list, product, answer, index::APPEND);
    answer
}

// The last product taken from a form: the new form at the front of the room, and the product no longer counted in the list, which begins with the index of
// the form. Refusals 20 to 27, then 7 for the list, 17, 12, then 7 for the room.
#[unsafe(no_mangle)]
pub extern "C" fn glospruma_index_remove(
    form: &[u8],
    list: &mut [PointRecord],
    room: &mut [u8],
) -> Indexed
    ensures value { result ≡ remove_answer form.now list.old room.old }
    ensures list_after { list.new ≡ remove_list_after form.now list.old room.old }
    ensures room_after { room.new ≡ remove_after form.now list.old room.old }
{
    let same = index_list::matches(list, form);
    let answer = index::remove_form(form, list.len(), same, room);
    index_list::update(list, form, answer, index::REMOVE);
    answer
}

// The printed report of a stored table, at the front of the room; a refused table has a report too. Refusal 7.
#[unsafe(no_mangle)]
pub extern "C" fn glospruma_report(bytes: &[u8], room: &mut [u8]) -> ReportWritten
    ensures value { result ≡ report_answer bytes.now room.old }
    ensures room_after { room.new ≡ report_after bytes.now room.old }
{
    report::write_report(bytes, &mut *room)
}
