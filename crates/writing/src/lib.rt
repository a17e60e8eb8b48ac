// The form of a table, written as bytes into lent room (document 01, "The written form"). What is written is crate `cover`'s `written_form`.
// Read next: specs/Writing.antt.
#![tactic(auto)]

ghost use Rattle.std.specs.Prelude.{◌≡◌, [], ◌∷◌, ◌+◌, ◌-◌, ◌≤◌, length};
ghost use Rattle.std.proofs.lemmas.List.Edits.{sets};
ghost use Rattle.gf2.specs.Limits.{max_variables};
ghost use Rattle.basis.specs.Short.{listed, short};
ghost use Rattle.basis.specs.Reduced.{vectors_of, BasisWithin};
ghost use Rattle.table.specs.Answers.{settled};
ghost use Rattle.table.specs.Decision.{front};
ghost use Rattle.space.specs.Restriction.{restriction};
ghost use Rattle.space.specs.Witness.{flagged};
ghost use Rattle.product.specs.Product.{factor};
ghost use Rattle.cubes.specs.Records.{max_listed};
ghost use Rattle.form.specs.Encoding.{encode_factors, encode_products, encode_form};
ghost use Rattle.choice.specs.Chosen.{products_by, IsChoice, Chose};
ghost use Rattle.factors.specs.Factors.{product_in, IsProduct};
ghost use Rattle.writing.specs.Products.{product_length, products_length, form_length};
ghost use Rattle.writing.specs.Writing.{refused_form, write_answer, write_after};

use basis::{Basis, ShortList};
use choice::{Choice, MAX_CHOSEN};
use cubes::MAX_LISTED;
use factors::FactorList;
use form::{FACTOR_LENGTH, FIRST_PRODUCT};
use records::WORD_RECORD_LENGTH;
use table::{Answer, MAX_POINTS, Refusal};

// What writing the form of a table gives: the refusal or 0, how many bytes are written, and how many products the form has. C reads the
// refusal as its number.
#[repr(C)]
#[derive(Clone, Copy)]
pub struct FormWritten {
    pub refusal: u8,
    pub length: usize,
    pub products: usize,
}

// ---- the bytes

// A factor's record at a place.
fn put_factor(room: &mut [u8], at: usize, constant: u16, mask: u16)
    requires at_in_bounds { at + 4 ≤ length room.old }
    requires constant_bound { constant ≤ 1 }
    ensures { room.new ≡ sets room.old at (encode_factors (factor constant mask ∷ [])) }
{
    room[at] = records::FACTOR_KIND;
    room[at + 1] = constant as u8;
    records::put_word(&mut *room, at + 2, mask);
}

// A product at a place: its kind and its factors. The place behind it is returned.
fn put_product(room: &mut [u8], at: usize, factors: FactorList) -> usize
    requires product { IsProduct factors }
    requires factors_in_bounds { at + product_length (length (product_in factors)) ≤ length room.old }
    ensures value { result ≡ at + product_length (length (product_in factors)) }
    ensures room_after { room.new ≡ sets room.old at (encode_products (product_in factors ∷ [])) }
{
    let constants = factors.constants.as_slice();
    room[at] = records::PRODUCT_KIND;
    let mut place = at + 1;
    for (i, &mask) in factors.masks.as_slice().iter().enumerate() {
        put_factor(&mut *room, place, constants[i], mask);
        place += FACTOR_LENGTH;
    }
    place
}

// The number of bytes of the form of a choice.
fn form_length(choice: &Choice, m: usize) -> usize
    requires { IsChoice m choice.now }
    ensures { result ≡ form_length m choice.now }
{
    let mut length = FIRST_PRODUCT;
    for &prime in choice.as_slice() {
        length += 1 + FACTOR_LENGTH * (m - prime.degree);
    }
    length + WORD_RECORD_LENGTH
}

// The products of a choice, with the equations put in, behind the first record. The place behind them is returned.
fn put_products(equations: ShortList, m: usize, choice: &Choice, room: &mut [u8]) -> usize
    requires equations_value { equations ≡ short (listed equations) }
    requires choice { IsChoice m choice.now }
    requires choice_in_bounds { form_length m choice.now ≤ length room.old }
    ensures value { result ≡ 2 + products_length m choice.now.primes choice.now.count }
    ensures room_after { room.new ≡ sets room.old 2 (encode_products (products_by (listed equations) m choice.now choice.now.count)) }
{
    let mut at = FIRST_PRODUCT;
    for &prime in choice.as_slice() {
        let product = factors::product_of(equations, m, prime);
        at = put_product(&mut *room, at, product);
    }
    at
}

// The form of n variables with the products of a choice, at the front of the room.
fn put_form(n: usize, equations: ShortList, m: usize, choice: &Choice, room: &mut [u8])
    requires n_le_max_variables { n ≤ max_variables }
    requires equations_value { equations ≡ short (listed equations) }
    requires choice { IsChoice m choice.now }
    requires choice_in_bounds { form_length m choice.now ≤ length room.old }
    ensures { room.new ≡ front (encode_form (record { variables = n; products = products_by (listed equations) m choice.now choice.now.count })) room.old }
{
    room[0] = records::VARIABLES_KIND;
    room[1] = n as u8;
    let at = put_products(equations, m, choice, &mut *room);
    records::put_end(&mut *room, at, choice.count as u16);
}

// ---- the call

// The primes chosen for the restriction, by a basis, of the function that the flags give.
pub fn choose_restriction(flags: &[bool; MAX_POINTS], basis: Basis, n: usize) -> Choice
    requires basis_within { BasisWithin n basis }
    requires len_bound { n - basis.len ≤ max_listed }
    ensures { Chose (n - basis.len) (restriction n (vectors_of basis) (flagged flags.now)) result }
{
    let leads = basis.leads();
    let count = projection::count_kept(flags, leads, n);
    let mut points = [0u16; MAX_CHOSEN];
    projection::write_kept(flags, leads, n, &mut points);
    choice::choose(n - basis.len, &points[0..count])
}

impl Answer for FormWritten {
    ghost refused_with = { refused_form };

    fn refused(refusal: Refusal) -> FormWritten {
        FormWritten {
            refusal: refusal.number(),
            length: 0,
            products: 0,
        }
    }
}

// The tests in their order, then the bytes at the front of the room.
fn try_write_form(
    n: usize,
    on: &[u16],
    free: &[u16],
    room: &mut [u8],
) -> Result<FormWritten, Refusal>
    ensures value { settled refused_form result ≡ write_answer n on.now free.now room.old }
    ensures room_after { room.new ≡ write_after n on.now free.now room.old }
{
    table::check_table(n, on, free)?;
    let completed = space::complete(n, on, free);
    let flags = completed.flags;
    let basis = completed.basis;
    let m = n - basis.len;
    if m > MAX_LISTED {
        return Err(Refusal::Size);
    }
    let choice = choose_restriction(&flags, basis, n);
    let length = form_length(&choice, m);
    if room.len() < length {
        return Err(Refusal::Room);
    }
    let equations = projection::equations(basis, n);
    put_form(n, equations, m, &choice, &mut *room);
    Ok(FormWritten {
        refusal: 0,
        length,
        products: choice.count,
    })
}

// The form of a table, at the front of the room. Refusals 1, 2, 3, 4, 5, then 7.
pub fn write_form(n: usize, on: &[u16], free: &[u16], room: &mut [u8]) -> FormWritten
    ensures value { result ≡ write_answer n on.now free.now room.old }
    ensures room_after { room.new ≡ write_after n on.now free.now room.old }
{
    table::settle(try_write_form(n, on, free, &mut *room))
}
