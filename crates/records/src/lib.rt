// Records of the written form (document 01, "The written form"): one byte of kind, then a body whose length the kind fixes; wider
// numbers are low byte first. The readers of stored tables and of forms and the writers of both go by these functions. Read next: specs/Kinds.antt.
#![tactic(auto)]

ghost use Rattle.std.specs.Prelude.{◌≡◌, [], ◌∷◌, ◌+◌, ◌≤◌, ◌<◌, length, drop};
ghost use Rattle.std.proofs.lemmas.List.Edits.{sets};
ghost use Rattle.records.specs.Kinds.{body_length, head_of, word_of, low_byte, high_byte, encode_record, word_record_length, encode_end};
ghost use Rattle.records.specs.declared.Kind.TheVariants.{End};
ghost use Rattle.records.specs.Walks.{body_step, end_step};

use std::ops::ControlFlow;
use table::BytesFault;

// The kind bytes, as the constants of the same names in specs/.
pub const VARIABLES_KIND: u8 = 0x4E;

pub const PRODUCT_KIND: u8 = 0x50;

pub const FACTOR_KIND: u8 = 0x58;

pub const END_KIND: u8 = 0x45;

pub const ON_KIND: u8 = 0x4F;

pub const FREE_KIND: u8 = 0x44;

// The length of a record of a kind and a number of two bytes, as `word_record_length` in specs/.
pub const WORD_RECORD_LENGTH: usize = 3;

// What a record is.
#[derive(Clone, Copy, Debug, PartialEq, Eq)]
pub enum Kind {
    Variables,
    Product,
    Factor,
    End,
    On,
    Free,
}

// What a walk over the bytes of a table or a form finds: what is asked for, with its number of points or products, or the first fault from
// the left with its place (document 02, No. 3).
pub type Walk = Result<usize, BytesFault>;

// What a walk finds at one record: a whole one, with the length of its body, after which it goes on; or what the walk ends with.
pub type Step = ControlFlow<Walk, usize>;

// The decision over the kind byte, which stands at the place. No other function refuses an unknown kind.
#[tactic(auto, unfolding(crate::specs::Kinds::head_of))]
pub fn head_of(byte: u8, place: usize) -> Result<(Kind, usize), BytesFault>
    ensures { result ≡ head_of byte place }
{
    match byte {
        VARIABLES_KIND => Ok((Kind::Variables, 1)),
        PRODUCT_KIND => Ok((Kind::Product, 0)),
        FACTOR_KIND => Ok((Kind::Factor, 3)),
        END_KIND => Ok((Kind::End, 2)),
        ON_KIND => Ok((Kind::On, 2)),
        FREE_KIND => Ok((Kind::Free, 2)),
        _ => Err(BytesFault::WrongKind(place)),
    }
}

// The number that two bytes stand for, low byte first.
pub fn word(low: u8, high: u8) -> u16
    ensures { result ≡ word_of low high }
{
    u16::from_le_bytes([low, high])
}

// A number of two bytes at a place, low byte first.
pub fn put_word(room: &mut [u8], at: usize, word: u16)
    requires { at + 2 ≤ length room.old }
    ensures { room.new ≡ sets room.old at (low_byte word ∷ high_byte word ∷ []) }
{
    room[at..at + 2].copy_from_slice(&word.to_le_bytes());
}

// A record of a kind and a number of two bytes at a place. The kind is a byte, any byte, so that a caller needs no `Kind` for it.
pub fn put_record(room: &mut [u8], at: usize, kind: u8, word: u16)
    requires { at + word_record_length ≤ length room.old }
    ensures { room.new ≡ sets room.old at (encode_record kind word) }
{
    room[at] = kind;
    put_word(&mut *room, at + 1, word);
}

// The end record at a place, with the number of points or products.
pub fn put_end(room: &mut [u8], at: usize, count: u16)
    requires { at + word_record_length ≤ length room.old }
    ensures { room.new ≡ sets room.old at (encode_end count) }
{
    put_record(&mut *room, at, END_KIND, count);
}

// The body of the record at the place, of the given length.
pub fn body_step(bytes: &[u8], place: usize, body: usize) -> Step
    requires { place < length bytes.now }
    ensures { result ≡ body_step body place (drop (place + 1) bytes.now) }
{
    if body < bytes.len() - place {
        ControlFlow::Continue(body)
    } else {
        ControlFlow::Break(Err(BytesFault::Missing(bytes.len())))
    }
}

// The end record at the place, with a body of the given length: the number of points or products before it, and nothing after.
pub fn end_step(bytes: &[u8], count: usize, place: usize, body: usize) -> Step
    requires place_in_bounds { place < length bytes.now }
    requires body_value { body ≡ body_length End }
    ensures { result
        ≡ end_step
        (body_step body place (drop (place + 1) bytes.now))
        count
        place
        (drop (place + 1) bytes.now) }
{
    let length = body_step(bytes, place, body)?;
    let next = place + 1 + length;
    if word(bytes[place + 1], bytes[place + 2]) as usize != count {
        ControlFlow::Break(Err(BytesFault::WrongCount(place + 1)))
    } else if next < bytes.len() {
        ControlFlow::Break(Err(BytesFault::After(next)))
    } else {
        ControlFlow::Break(Ok(count))
    }
}
