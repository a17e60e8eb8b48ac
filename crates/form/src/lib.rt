// The written form (document 01, "The written form"): its bytes are walked from the left, and refused where they are no form.
// Read next: specs/Form.antt.
#![tactic(auto)]

ghost use Rattle.std.specs.Prelude.{◌≡◌, ◌&&◌, not, List, [], ℕ, ◌+◌, ◌≤◌, ◌<◌, eqb, length, get_or, drop};
ghost use Rattle.gf2.specs.Limits.{max_variables};
ghost use Rattle.table.specs.Refusal.{fault_of};
ghost use Rattle.table.specs.Answers.{fault_from};
ghost use Rattle.records.specs.Kinds.{body_length};
ghost use Rattle.records.specs.declared.Kind.TheVariants.{Variables, Factor as FactorKind};
ghost use Rattle.product.specs.Product.{Factor, agrees, factor, fits};
ghost use Rattle.form.specs.Decoding.{factor_of};
ghost use Rattle.form.specs.Refusal.{form_tests, product_tests};
ghost use Rattle.records.specs.Walks.{body_step};
ghost use Rattle.form.specs.Walk.{is_alone, behind, variables_step, first_form_step, factor_step, product_step, form_step, awaited_kind, record_step, records_ending, walk_records_from, walked_form};
ghost use Rattle.form.specs.Counting.{Counted, behind_by, counts_after, factor_length, factors_before};

use records::{FACTOR_KIND, Kind, PRODUCT_KIND, Step, Walk};
use std::ops::ControlFlow;
use table::{BytesFault, Refusal};

// The most products of a form, as `max_products` in specs/.
pub const MAX_PRODUCTS: usize = 64;

// Where the first product begins, and the lengths of the records that begin a product and give a factor, their kind included.
pub const FIRST_PRODUCT: usize = 2;

pub const PRODUCT_LENGTH: usize = 1;

pub const FACTOR_LENGTH: usize = 4;

// What the walk reads after the first record: a form, or a product alone.
#[derive(Clone, Copy, Debug, PartialEq, Eq)]
enum Extent {
    Form,
    ProductAlone,
}

// What lies behind the walk: how many products, and how many factors the last of them has.
#[derive(Clone, Copy, Debug, PartialEq, Eq)]
pub struct Counts {
    pub products: usize,
    pub factors: usize,
}

// What reads the records of a form after its first, or of a product alone: it stands at a place of the bytes, knows n and what lies behind the place.
#[derive(Clone, Copy, Debug)]
struct Reader<'a> {
    bytes: &'a [u8],
    variables: usize,
    counts: Counts,
    place: usize,
    ghost counted: { Counted variables bytes.now counts place },
}

// n, in a body of the given length.
fn variables_step(bytes: &[u8], body: usize) -> Step
    requires bytes_nonzero { 0 < length bytes.now }
    requires body_value { body ≡ body_length Variables }
    ensures { result ≡ variables_step (body_step body 0 (drop 1 bytes.now)) (drop 1 bytes.now) }
{
    let length = records::body_step(bytes, 0, body)?;
    if table::bad_count(bytes[1] as usize) {
        return ControlFlow::Break(Err(BytesFault::WrongVariables(1)));
    }
    ControlFlow::Continue(length)
}

// The first record of a form, which gives n.
fn first_step(bytes: &[u8]) -> Step
    requires { 0 < length bytes.now }
    ensures { result ≡ first_form_step (get_or bytes.now 0 0) (drop 1 bytes.now) }
{
    match records::head_of(bytes[0], 0) {
        Ok((Kind::Variables, body)) => variables_step(bytes, body),
        Ok(_) => ControlFlow::Break(Err(BytesFault::WrongKind(0))),
        Err(fault) => ControlFlow::Break(Err(fault)),
    }
}

// The mask of the factor whose record begins at the place.
pub fn mask_at(bytes: &[u8], place: usize) -> u16
    requires { place + factor_length ≤ length bytes.now }
    ensures { result ≡ (factor_of (drop (place + 1) bytes.now)).mask }
{
    records::word(bytes[place + 2], bytes[place + 3])
}

// A factor of n variables: the constant is 0 or 1, the mask 1 to 2^n - 1.
#[tactic(auto, unfolding(product::specs::Product::fits))]
fn fits(n: usize, constant: u8, mask: u16) -> bool
    requires { n ≤ max_variables }
    ensures { result ≡ fits n (factor constant mask) }
{
    constant <= 1 && mask >= 1 && mask < table::point_count(n)
}

// The kind byte stands wrong in a product alone after a number of products: its 50 is awaited, then its factors.
fn misplaced(byte: u8, extent: Extent, products: usize) -> bool
    ensures { result ≡ is_alone extent && not (eqb byte (awaited_kind products)) }
{
    match extent {
        Extent::Form => false,
        Extent::ProductAlone if products == 0 => byte != PRODUCT_KIND,
        Extent::ProductAlone => byte != FACTOR_KIND,
    }
}

// What is found where no byte is left, after a number of products.
fn records_ending(extent: Extent, products: usize, place: usize) -> Walk
    ensures { (factors : List Factor) → result ≡ records_ending (is_alone extent) (behind products factors) place }
{
    match extent {
        Extent::ProductAlone if products != 0 => Ok(products),
        _ => Err(BytesFault::Missing(place)),
    }
}

impl<'a> Reader<'a> {
    // At a place that no product lies before.
    fn new(bytes: &'a [u8], variables: usize, place: usize) -> Reader<'a>
        requires { (variables ≤ max_variables) × (place ≤ length bytes.now) }
        ensures bytes { result.bytes.now ≡ bytes.now }
        ensures variables { result.variables ≡ variables }
        ensures behind { behind_by result.bytes.now result.counts result.place ≡ behind 0 [] }
        ensures place { result.place ≡ place }
    {
        Reader {
            bytes,
            variables,
            counts: Counts {
                products: 0,
                factors: 0,
            },
            place,
        }
    }

    // A product begins at the place.
    fn product_step(&self, body: usize) -> Step
        requires { self.now.place < length self.now.bytes.now }
        ensures { result
            ≡ product_step
            self.now.counts.products
            body
            self.now.place
            (drop (self.now.place + 1) self.now.bytes.now) }
    {
        if self.counts.products < MAX_PRODUCTS {
            records::body_step(self.bytes, self.place, body)
        } else {
            ControlFlow::Break(Err(BytesFault::TooMany(self.place)))
        }
    }

    // The mask agrees with those of the factors in the records right before the place.
    fn agrees_before(&self, mask: u16) -> bool
        requires { 0 < mask }
        ensures { (constant : ℕ) → result
            ≡ agrees
            (factors_before self.now.counts.factors self.now.bytes.now self.now.place)
            (factor constant mask) }
    {
        for behind in 0..self.counts.factors {
            let at = self.place - FACTOR_LENGTH * (behind + 1);
            if !product::apart(mask_at(self.bytes, at), mask) {
                return false;
            }
        }
        true
    }

    // The factor at the place: constant and mask first, then that it agrees with those before it in its product.
    fn factor_step(&self, body: usize) -> Step
        requires place_in_bounds { self.now.place < length self.now.bytes.now }
        requires body_value { body ≡ body_length FactorKind }
        ensures { result
            ≡ factor_step
            self.now.variables
            self.now.counts.products
            (factors_before self.now.counts.factors self.now.bytes.now self.now.place)
            body
            self.now.place
            (drop (self.now.place + 1) self.now.bytes.now) }
    {
        if self.counts.products == 0 {
            return ControlFlow::Break(Err(BytesFault::WrongKind(self.place)));
        }
        let length = records::body_step(self.bytes, self.place, body)?;
        let mask = mask_at(self.bytes, self.place);
        if !fits(self.variables, self.bytes[self.place + 1], mask) {
            return ControlFlow::Break(Err(BytesFault::WrongFactor(self.place + 1)));
        }
        if !self.agrees_before(mask) {
            return ControlFlow::Break(Err(BytesFault::NotCanonical(self.place + 1)));
        }
        ControlFlow::Continue(length)
    }

    // A record after the first, at the place.
    fn record_step(&self) -> Step
        requires { self.now.place < length self.now.bytes.now }
        ensures { result
            ≡ form_step
            self.now.variables
            (behind_by self.now.bytes.now self.now.counts self.now.place)
            (get_or self.now.bytes.now self.now.place 0)
            self.now.place
            (drop (self.now.place + 1) self.now.bytes.now) }
    {
        match records::head_of(self.bytes[self.place], self.place) {
            Ok((Kind::Product, body)) => self.product_step(body),
            Ok((Kind::Factor, body)) => self.factor_step(body),
            Ok((Kind::End, body)) => {
                records::end_step(self.bytes, self.counts.products, self.place, body)
            }
            Ok(_) => ControlFlow::Break(Err(BytesFault::WrongKind(self.place))),
            Err(fault) => ControlFlow::Break(Err(fault)),
        }
    }

    // A record after the first of a form, or a record of a product alone, at the place.
    fn awaited_step(&self, extent: Extent) -> Step
        requires { self.now.place < length self.now.bytes.now }
        ensures { result
            ≡ record_step
            (is_alone extent)
            self.now.variables
            (behind_by self.now.bytes.now self.now.counts self.now.place)
            (get_or self.now.bytes.now self.now.place 0)
            self.now.place
            (drop (self.now.place + 1) self.now.bytes.now) }
    {
        if misplaced(self.bytes[self.place], extent, self.counts.products) {
            return ControlFlow::Break(Err(BytesFault::WrongKind(self.place)));
        }
        self.record_step()
    }

    // The counts once the record at the place is passed too.
    fn counts_after(&self) -> Counts
        requires { self.now.place < length self.now.bytes.now }
        ensures { result ≡ counts_after (get_or self.now.bytes.now self.now.place 0) self.now.counts }
    {
        match self.bytes[self.place] {
            PRODUCT_KIND => Counts {
                products: self.counts.products + 1,
                factors: 0,
            },
            FACTOR_KIND => Counts {
                factors: self.counts.factors + 1,
                ..self.counts
            },
            _ => self.counts,
        }
    }

    // The walk from the place on over the records after the first of a form, or over those of a product alone.
    fn walk(mut self, extent: Extent) -> Walk
        ensures { result
            ≡ walk_records_from
            (is_alone extent)
            self.entry.variables
            0
            (behind_by self.entry.bytes.now self.entry.counts self.entry.place)
            self.entry.place
            (drop self.entry.place self.entry.bytes.now) }
    {
        // No range goes over the places: the next one is known once the record there is read.
        while self.place < self.bytes.len() {
            match self.awaited_step(extent) {
                ControlFlow::Continue(length) => {
                    self.counts = self.counts_after();
                    self.place += 1 + length;
                }
                ControlFlow::Break(end) => return end,
            }
        }
        records_ending(extent, self.counts.products, self.place)
    }
}

// The walk over the bytes of a form.
pub fn walk_form(bytes: &[u8]) -> Walk
    ensures { result ≡ walked_form bytes.now }
{
    if bytes.is_empty() {
        return Err(BytesFault::Missing(0));
    }
    match first_step(bytes) {
        ControlFlow::Continue(length) => {
            Reader::new(bytes, bytes[1] as usize, 1 + length).walk(Extent::Form)
        }
        ControlFlow::Break(end) => end,
    }
}

// Refused where the bytes are no form.
pub fn check_form(bytes: &[u8]) -> Result<(), Refusal>
    ensures { fault_from result ≡ fault_of (form_tests bytes.now) }
{
    walk_form(bytes)?;
    Ok(())
}

// Refused where the bytes are no product of n variables.
pub fn check_product(bytes: &[u8], n: usize) -> Result<(), Refusal>
    requires { n ≤ max_variables }
    ensures { fault_from result ≡ fault_of (product_tests n bytes.now) }
{
    Reader::new(bytes, n, 0).walk(Extent::ProductAlone)?;
    Ok(())
}
