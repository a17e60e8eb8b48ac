// The calls that read a form (document 01, "The written form"): its bytes are valued at a point, read into points and written again.
// Read next: specs/Reading.antt.
#![tactic(auto)]

ghost use Rattle.std.specs.Prelude.{◌≡◌, ◌&&◌, ◌+◌, ◌≤◌, length, drop};
ghost use Rattle.gf2.specs.Finite.{select};
ghost use Rattle.table.specs.Answers.{settled};
ghost use Rattle.table.specs.Decision.{front};
ghost use Rattle.product.specs.Product.{factor_at};
ghost use Rattle.form.specs.Form.{form_at};
ghost use Rattle.form.specs.Decoding.{decode_form, factor_of};
ghost use Rattle.form.specs.Counting.{factor_length};
ghost use Rattle.form.specs.Refusal.{IsForm};
ghost use Rattle.form_calls.specs.Reading.{points_after, points_answer, refused_points, rewrite_after, rewrite_answer, refused_rewrite};

use form::{FACTOR_LENGTH, FIRST_PRODUCT, PRODUCT_LENGTH};
use records::{FACTOR_KIND, PRODUCT_KIND};
use table::{Answer, Refusal};

// What reading the points gives: the refusal or 0, its byte place, n, and how many points there are. C reads the refusal as its number.
#[repr(C)]
#[derive(Clone, Copy, Debug, PartialEq, Eq)]
pub struct FormPoints {
    pub refusal: u8,
    pub place: usize,
    pub variables: usize,
    pub count: usize,
}

// What writing a form again gives: the refusal or 0, its byte place, and how many bytes are written. C reads the refusal as its number.
#[repr(C)]
#[derive(Clone, Copy, Debug, PartialEq, Eq)]
pub struct FormRewrite {
    pub refusal: u8,
    pub place: usize,
    pub length: usize,
}

// A product that held the point so far holds it with the factor at the place too.
pub fn still_holds(bytes: &[u8], place: usize, holds: bool, point: u16) -> bool
    requires { place + factor_length ≤ length bytes.now }
    ensures { result ≡ holds && factor_at (factor_of (drop (place + 1) bytes.now)) point }
{
    holds && product::factor_at(bytes[place + 1], form::mask_at(bytes, place), point)
}

// The value of an accepted form at a point: true when some product is.
pub fn form_at(bytes: &[u8], point: u16) -> bool
    requires { IsForm bytes.now }
    ensures { result ≡ form_at (decode_form bytes.now) point }
{
    let mut place = FIRST_PRODUCT;
    let mut holds = false;
    // No range goes over the places: the next one is known once the record there is read.
    loop {
        match bytes[place] {
            PRODUCT_KIND if holds => return true,
            PRODUCT_KIND => {
                holds = true;
                place += PRODUCT_LENGTH;
            }
            FACTOR_KIND => {
                holds = still_holds(bytes, place, holds, point);
                place += FACTOR_LENGTH;
            }
            _ => return holds,
        }
    }
}

// How many points below a bound an accepted form has. They are counted before the first is written, since a refusal leaves the room as it was.
fn count_points(bytes: &[u8], size: u16) -> usize
    requires { IsForm bytes.now }
    ensures { result ≡ length (select (form_at (decode_form bytes.now)) size) }
{
    (0..size).filter(|point| form_at(bytes, *point)).count()
}

// The points below a bound of an accepted form, written to the front of a room that has place for them.
fn write_points(bytes: &[u8], size: u16, room: &mut [u16])
    requires form { IsForm bytes.now }
    requires size_in_bounds { length (select (form_at (decode_form bytes.now)) size) ≤ length room.old }
    ensures { room.new ≡ front (select (form_at (decode_form bytes.now)) size) room.old }
{
    for (place, point) in (0..size).filter(|point| form_at(bytes, *point)).enumerate() {
        room[place] = point;
    }
}

impl Answer for FormPoints {
    ghost refused_with = { refused_points };

    fn refused(refusal: Refusal) -> FormPoints {
        FormPoints {
            refusal: refusal.number(),
            place: refusal.place(),
            variables: 0,
            count: 0,
        }
    }
}

impl Answer for FormRewrite {
    ghost refused_with = { refused_rewrite };

    fn refused(refusal: Refusal) -> FormRewrite {
        FormRewrite {
            refusal: refusal.number(),
            place: refusal.place(),
            length: 0,
        }
    }
}

// The points of a form at the front of the room, or why none are given. A refusal writes nothing.
fn try_points(bytes: &[u8], room: &mut [u16]) -> Result<FormPoints, Refusal>
    ensures value { settled refused_points result ≡ points_answer bytes.now room.old }
    ensures room_after { room.new ≡ points_after bytes.now room.old }
{
    form::check_form(bytes)?;
    let variables = bytes[1] as usize;
    let size = table::point_count(variables);
    let count = count_points(bytes, size);
    if room.len() < count {
        return Err(Refusal::Room);
    }
    write_points(bytes, size, room);
    Ok(FormPoints {
        refusal: 0,
        place: 0,
        variables,
        count,
    })
}

// The points of a form, rising, at the front of the room; refused are bytes that are no form (20 to 27), then a room that is short (7).
pub fn form_points(bytes: &[u8], room: &mut [u16]) -> FormPoints
    ensures value { result ≡ points_answer bytes.now room.old }
    ensures room_after { room.new ≡ points_after bytes.now room.old }
{
    table::settle(try_points(bytes, room))
}

// A form at the front of the room, or why it isn't written. A refusal writes nothing.
fn try_rewrite(bytes: &[u8], room: &mut [u8]) -> Result<FormRewrite, Refusal>
    ensures value { settled refused_rewrite result ≡ rewrite_answer bytes.now room.old }
    ensures room_after { room.new ≡ rewrite_after bytes.now room.old }
{
    form::check_form(bytes)?;
    if room.len() < bytes.len() {
        return Err(Refusal::Room);
    }
    room[..bytes.len()].copy_from_slice(bytes);
    Ok(FormRewrite {
        refusal: 0,
        place: 0,
        length: bytes.len(),
    })
}

// A form that was read, written to the front of the room, which gives the same bytes; refused are bytes that are no form (20 to 27), then a
// room that is short (7).
pub fn form_rewrite(bytes: &[u8], room: &mut [u8]) -> FormRewrite
    ensures value { result ≡ rewrite_answer bytes.now room.old }
    ensures room_after { room.new ≡ rewrite_after bytes.now room.old }
{
    table::settle(try_rewrite(bytes, room))
}
