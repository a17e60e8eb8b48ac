// The index of a form (document 02, No. 5): a record for each point says how many products hold it, and which is the first. Everything here works on one record, or on
// bytes; crate `index_list` goes over the lent list with it. Read next: specs/Records.antt.
#![tactic(auto)]

ghost use Rattle.std.specs.Prelude.{◌≡◌, cond, ◌++◌, ◌+◌, ◌≤◌, ◌<◌, ◌^◌, ltb, length};
ghost use Rattle.table.specs.Refusal.{fault_of};
ghost use Rattle.table.specs.Answers.{fault_from, settled};
ghost use Rattle.table.specs.Decision.{front};
ghost use Rattle.records.specs.Kinds.{encode_end, word_record_length};
ghost use Rattle.form.specs.Decoding.{form_products, form_variables};
ghost use Rattle.form.specs.Refusal.{IsForm};
ghost use Rattle.index.specs.Records.{HasPoint, bound_of, no_product, point_record_of, still_of};
ghost use Rattle.index.specs.Changes.{ChangesAt, Few, WholeProduct, changed_of, add_holder, drop_holder, factor_begins, product_seen, reach_of};
ghost use Rattle.index.specs.Answers.{append_after_by, append_answer_by, append_tests, build_answer_by, last_place, list_tests, refused_index, remove_after_by, remove_answer_by, remove_tests};

use form::{FACTOR_LENGTH, FIRST_PRODUCT, MAX_PRODUCTS, PRODUCT_LENGTH};
use records::{FACTOR_KIND, WORD_RECORD_LENGTH};
use table::{Answer, BytesFault, Refusal};

// How many products hold a point, and the first of them, counted from 0, or `NO_PRODUCT`.
#[repr(C)]
#[derive(Clone, Copy, Debug, PartialEq, Eq)]
pub struct PointRecord {
    pub count: u16,
    pub first: u16,
}

// What a call gives: the refusal or 0, its byte place, and the numbers of the form that the list then belongs to, which are its n, its length in bytes
// and how many products it has. C reads the refusal as its number.
#[repr(C)]
#[derive(Clone, Copy, Debug, PartialEq, Eq)]
pub struct Indexed {
    pub refusal: u8,
    pub place: usize,
    pub variables: usize,
    pub length: usize,
    pub products: usize,
}

// The number that stands for no product, as `no_product` in specs/. It is a number and no `Option`, since C reads the record.
pub const NO_PRODUCT: u16 = 65535;

// The ways to change a list, as `build_way`, `append_way` and `remove_way` in specs/. They are numbers since `changed` takes every number: an enum would
// ask more of its callers.
pub const BUILD: u8 = 0;

pub const APPEND: u8 = 1;

pub const REMOVE: u8 = 2;

// What a product says of a point, and where the record after its last factor begins. Both are always given: this is no flag beside a value.
#[derive(Clone, Copy, Debug, PartialEq, Eq)]
pub struct ProductSeen {
    pub holds: bool,
    pub next: usize,
}

// A factor begins at the place.
#[tactic(auto, unfolding(crate::specs::Changes::factor_begins))]
fn factor_begins(bytes: &[u8], place: usize) -> bool
    ensures { result ≡ factor_begins bytes.now place }
{
    bytes.get(place) == Some(&FACTOR_KIND)
}

// The product whose 50 stands at the place, seen from a point.
fn product_seen(bytes: &[u8], place: usize, point: u16) -> ProductSeen
    requires { WholeProduct bytes.now place }
    ensures { result ≡ product_seen bytes.now place point }
{
    let mut next = place + PRODUCT_LENGTH;
    let mut holds = true;
    // No range goes over the factors: where they end is seen only at the record after them.
    while factor_begins(bytes, next) {
        holds = form_calls::still_holds(bytes, next, holds, point);
        next += FACTOR_LENGTH;
    }
    ProductSeen { holds, next }
}

// The record once a product of this number is counted too, if it holds the point.
fn add_holder(old: PointRecord, holds: bool, number: u16) -> PointRecord
    requires { old.count < no_product }
    ensures { result ≡ cond holds (add_holder number old) old }
{
    if !holds {
        return old;
    }
    if old.count == 0 {
        return PointRecord {
            count: 1,
            first: number,
        };
    }
    PointRecord {
        count: old.count + 1,
        ..old
    }
}

// The record once the last product is no longer counted, if it holds the point.
fn drop_holder(old: PointRecord, holds: bool) -> PointRecord
    ensures { result ≡ cond holds (drop_holder old) old }
{
    if !holds {
        return old;
    }
    if old.count <= 1 {
        return PointRecord {
            count: 0,
            first: NO_PRODUCT,
        };
    }
    PointRecord {
        count: old.count - 1,
        ..old
    }
}

// The record that a form gives a point: its products are counted one after the other.
fn record_at(bytes: &[u8], point: u16) -> PointRecord
    requires { IsForm bytes.now }
    ensures { result ≡ point_record_of (form_products bytes.now) point }
{
    let mut found = PointRecord {
        count: 0,
        first: NO_PRODUCT,
    };
    let mut place = FIRST_PRODUCT;
    for number in 0..product_count(bytes) {
        let seen = product_seen(bytes, place, point);
        found = add_holder(found, seen.holds, number as u16);
        place = seen.next;
    }
    found
}

// The n of an accepted form.
fn form_variables(form: &[u8]) -> usize
    requires { IsForm form.now }
    ensures { result ≡ form_variables form.now }
{
    form[1] as usize
}

// How many points an accepted form has.
fn form_size(form: &[u8]) -> usize
    requires { IsForm form.now }
    ensures { result ≡ 2 ^ form_variables form.now }
{
    table::point_count(form_variables(form)) as usize
}

// How many of the records that are lent belong to the form.
#[tactic(auto, unfolding(crate::specs::Records::bound_of))]
pub fn bound(form: &[u8], records: usize) -> usize
    ensures { result ≡ bound_of form.now records }
{
    match form::check_form(form) {
        Ok(()) => records.min(form_size(form)),
        Err(_) => 0,
    }
}

// The records before a point are right, and so is the point's own.
#[tactic(auto, unfolding(crate::specs::Records::same_record))]
pub fn still(right: bool, old: PointRecord, form: &[u8], point: usize) -> bool
    requires { HasPoint form.now point }
    ensures { result ≡ still_of form.now point right old }
{
    right && old == record_at(form, point as u16)
}

// How many of the records that are lent a call changes. The answer is C's struct, so its refusal is a number here.
#[tactic(auto, unfolding(crate::specs::Changes::reach_of))]
pub fn reach(answer: Indexed, records: usize) -> usize
    requires { Few answer }
    ensures { result ≡ reach_of answer records }
{
    if answer.refusal != 0 {
        return 0;
    }
    records.min(table::point_count(answer.variables) as usize)
}

// The record of a point after an accepted call.
pub fn changed(
    old: PointRecord,
    point: usize,
    bytes: &[u8],
    answer: Indexed,
    way: u8,
) -> PointRecord
    requires { ChangesAt way bytes.now answer point old }
    ensures { result ≡ changed_of way bytes.now answer point old }
{
    match way {
        APPEND => {
            let seen = product_seen(bytes, 0, point as u16);
            add_holder(old, seen.holds, (answer.products - 1) as u16)
        }
        REMOVE => {
            let seen = product_seen(bytes, answer.length - WORD_RECORD_LENGTH, point as u16);
            drop_holder(old, seen.holds)
        }
        _ => record_at(bytes, point as u16),
    }
}

// How many products an accepted form has: its end record says it.
fn product_count(form: &[u8]) -> usize
    requires { IsForm form.now }
    ensures { result ≡ length (form_products form.now) }
{
    let end = form.len() - WORD_RECORD_LENGTH;
    records::word(form[end + 1], form[end + 2]) as usize
}

impl Answer for Indexed {
    ghost refused_with = { refused_index };

    fn refused(refusal: Refusal) -> Indexed {
        Indexed {
            refusal: refusal.number(),
            place: refusal.place(),
            variables: 0,
            length: 0,
            products: 0,
        }
    }
}

// Refused where a list of so many records is short for an accepted form, or its first records aren't those of the form. That
// they are (`same`) is a fact that the caller found, and switches no step.
#[tactic(auto, unfolding(table::specs::Refusal::first_fault, table::specs::Refusal::first_place))]
fn check_list(form: &[u8], records: usize, same: bool) -> Result<(), Refusal>
    requires { IsForm form.now }
    ensures { fault_from result ≡ fault_of (list_tests form.now records same) }
{
    if records < form_size(form) {
        return Err(Refusal::Room);
    }
    if !same {
        return Err(Refusal::Records);
    }
    Ok(())
}

// The numbers of a form whose index a list of so many records can hold, or why it can't.
fn try_build(form: &[u8], records: usize) -> Result<Indexed, Refusal>
    ensures { settled refused_index result ≡ build_answer_by form.now records }
{
    form::check_form(form)?;
    check_list(form, records, true)?;
    Ok(Indexed {
        refusal: 0,
        place: 0,
        variables: form_variables(form),
        length: form.len(),
        products: product_count(form),
    })
}

// The answer of building the index of a form in a list of so many records.
pub fn build_answer(form: &[u8], records: usize) -> Indexed
    ensures { result ≡ build_answer_by form.now records }
{
    table::settle(try_build(form, records))
}

// A form at the front of the room: the bytes that are kept of another, those that are added, and the end record with the number of products.
fn put_form(kept: &[u8], added: &[u8], products: u16, room: &mut [u8])
    requires { length kept.now + length added.now + word_record_length ≤ length room.old }
    ensures { room.new ≡ front ((kept.now ++ added.now) ++ encode_end products) room.old }
{
    let next = kept.len();
    let end = next + added.len();
    room[..next].copy_from_slice(kept);
    room[next..end].copy_from_slice(added);
    records::put_end(room, end, products);
}

// Refused where a product can't be appended to a form with a list of so many records, before its room is tested.
fn check_append(form: &[u8], product: &[u8], records: usize, same: bool) -> Result<(), Refusal>
    ensures { fault_from result ≡ fault_of (append_tests form.now product.now records same) }
{
    form::check_form(form)?;
    form::check_product(product, form_variables(form))?;
    check_list(form, records, same)?;
    if product_count(form) >= MAX_PRODUCTS {
        return Err(Refusal::Bytes(BytesFault::TooMany(0)));
    }
    Ok(())
}

// A room of so many bytes is shorter than two lengths together. Their sum need not be a number of the machine.
fn too_short(room: usize, first: usize, second: usize) -> bool
    ensures { result ≡ ltb room (first + second) }
{
    room < second || room - second < first
}

// A product appended to a form at the front of the room, or why it isn't. A refusal writes nothing.
fn try_append(
    form: &[u8],
    product: &[u8],
    records: usize,
    same: bool,
    room: &mut [u8],
) -> Result<Indexed, Refusal>
    ensures value { settled refused_index result
        ≡ append_answer_by form.now product.now records same room.old }
    ensures room_after { room.new ≡ append_after_by form.now product.now records same room.old }
{
    check_append(form, product, records, same)?;
    if too_short(room.len(), form.len(), product.len()) {
        return Err(Refusal::Room);
    }
    let end = form.len() - WORD_RECORD_LENGTH;
    let products = product_count(form) + 1;
    put_form(&form[..end], product, products as u16, room);
    Ok(Indexed {
        refusal: 0,
        place: 0,
        variables: form_variables(form),
        length: form.len() + product.len(),
        products,
    })
}

// A product appended to a form: the new form at the front of the room. Whether the list of so many records begins with the index of the form is
// known.
pub fn append_form(
    form: &[u8],
    product: &[u8],
    records: usize,
    same: bool,
    room: &mut [u8],
) -> Indexed
    ensures value { result ≡ append_answer_by form.now product.now records same room.old }
    ensures room_after { room.new ≡ append_after_by form.now product.now records same room.old }
{
    table::settle(try_append(form, product, records, same, room))
}

// Where the last of so many products of an accepted form begins.
fn last_product(form: &[u8], products: usize) -> usize
    requires form { IsForm form.now }
    requires products_value { products ≡ length (form_products form.now) }
    requires le_products { 1 ≤ products }
    ensures { result ≡ last_place form.now }
{
    let mut place = FIRST_PRODUCT;
    for passed in 1..products {
        place = product_seen(form, place, 0).next;
    }
    place
}

// Refused where the last product can't be taken from a form with a list of so many records, before its room is tested.
fn check_remove(form: &[u8], records: usize, same: bool) -> Result<(), Refusal>
    ensures { fault_from result ≡ fault_of (remove_tests form.now records same) }
{
    form::check_form(form)?;
    check_list(form, records, same)?;
    if product_count(form) == 0 {
        return Err(Refusal::EmptyForm);
    }
    Ok(())
}

// The last product taken from a form at the front of the room, or why it isn't. A refusal writes nothing.
fn try_remove(form: &[u8], records: usize, same: bool, room: &mut [u8]) -> Result<Indexed, Refusal>
    ensures value { settled refused_index result
        ≡ remove_answer_by form.now records same room.old }
    ensures room_after { room.new ≡ remove_after_by form.now records same room.old }
{
    check_remove(form, records, same)?;
    let products = product_count(form);
    let last = last_product(form, products);
    if room.len() < last + WORD_RECORD_LENGTH {
        return Err(Refusal::Room);
    }
    put_form(&form[..last], &[], (products - 1) as u16, room);
    Ok(Indexed {
        refusal: 0,
        place: 0,
        variables: form_variables(form),
        length: last + WORD_RECORD_LENGTH,
        products: products - 1,
    })
}

// The last product taken from a form: the new form at the front of the room. Whether the list of so many records begins with the index of the form
// is known.
pub fn remove_form(form: &[u8], records: usize, same: bool, room: &mut [u8]) -> Indexed
    ensures value { result ≡ remove_answer_by form.now records same room.old }
    ensures room_after { room.new ≡ remove_after_by form.now records same room.old }
{
    table::settle(try_remove(form, records, same, room))
}
