// Reads a truth table in Berkeley PLA from standard input and writes one output of it as a stored table to standard output. The output is the
// first argument, counted from 1; without one it is the first. A refusal goes to standard error as its number and, where a line is at fault, that
// line (docs/PLA.md). `main` only reads, calls and writes. Read next: specs/Choosing.antt, and crate `pla`, whose call is made.
#![tactic(auto)]

ghost use Rattle.std.specs.Prelude.{◌≡◌, List, ℕ, ◌≤◌, length};
ghost use Rattle.stored.specs.Layout.{longest_table};
ghost use Rattle.streams.specs.Reading.{StartOf};
ghost use Rattle.text.specs.Writing.{Fits, HasRoom, Wrote, with_text};
ghost use Rattle.pla_to_table.specs.Choosing.{chosen_output};
ghost use Rattle.pla_to_table.specs.Messages.{message_room, refused_message, too_long};
ghost use Rattle.pla_to_table.specs.Answer.{pla_room, written, Stands};

use std::env::{Env, FillError};
use text::Writer;

// The longest text that is read, and one byte more, by which a longer one is known.
const MAX_TEXT: usize = 1_048_576;

const PLA_ROOM: usize = MAX_TEXT + 1;

// Room for every message.
const MESSAGE_ROOM: usize = 38;

// The longest argument that is read. A longer one is taken for an empty one, which is refused.
const ARGUMENT_ROOM: usize = 16;

// How many bytes go to standard output and to standard error.
#[derive(Clone, Copy, Debug, PartialEq, Eq)]
struct Lengths {
    table: usize,
    message: usize,
}

// Room for a text. The contract gives only the length, which lending the array needs.
fn text_room() -> [u8; PLA_ROOM]
    ensures { pla_room ≡ length result }
{
    [0; PLA_ROOM]
}

// Room for the longest stored table. The contract gives only the length, as that of `text_room`.
fn table_room() -> [u8; stored::LONGEST_TABLE]
    ensures { longest_table ≡ length result }
{
    [0; stored::LONGEST_TABLE]
}

// The output that the arguments choose. An argument that is no number stands for one above all outputs.
fn chosen(words: usize, argument: &[u8]) -> usize
    ensures { result ≡ chosen_output words argument.now }
{
    if words < 2 {
        return 1;
    }
    pla_text::number(argument).unwrap_or(pla_text::NUMBER_LIMIT)
}

// The message of a refusal.
#[tactic(auto, unfolding(crate::specs::Messages::refused_message), using(text::proofs::Writing::parts))]
fn put_refused(out: &mut Writer<'_>, number: u8, line: usize)
    requires { Fits out.old (refused_message number line) }
    ensures { out.new ≡ with_text out.old (refused_message number line) }
{
    if line == 0 {
        lines::number_line(out, b"refused ", number as usize);
        return;
    }
    out.labelled(b"refused ", number as usize);
    lines::number_line(out, b" line ", line);
}

// The message of a refusal, at the front of the room.
#[tactic(auto, unfolding(text::specs::Writing::with_text))]
fn write_refused(room: &mut [u8], number: u8, line: usize) -> usize
    requires { HasRoom room.old 0 (refused_message number line) }
    ensures wrote { Wrote room.old 0 (refused_message number line) room.new result }
    ensures upper_bound { result ≤ length room.new }
{
    let mut out = Writer::new(&mut *room, 0);
    put_refused(&mut out, number, line);
    out.place()
}

// The message that a text is too long, at the front of the room.
#[tactic(auto, unfolding(text::specs::Writing::with_text))]
fn write_too_long(room: &mut [u8]) -> usize
    requires { HasRoom room.old 0 too_long }
    ensures { Wrote room.old 0 too_long room.new result }
{
    let mut out = Writer::new(&mut *room, 0);
    out.word(b"text too long\n");
    out.place()
}

// What is written for a text that starts with the first `count` bytes of the room for it, into the two other rooms; how many bytes each has.
fn answer_text(
    input: &[u8],
    count: usize,
    output: usize,
    table: &mut [u8],
    message: &mut [u8],
) -> Lengths
    requires input_len { length input.now ≡ pla_room }
    requires count_in_bounds { count ≤ length input.now }
    requires table_len { length table.old ≡ longest_table }
    requires message_len { length message.old ≡ message_room }
    ensures stands { (whole : List ℕ) → StartOf whole input.now count → Stands (written whole output) table.new message.new result }
    ensures table_in_bounds { result.table ≤ length table.new }
    ensures message_in_bounds { result.message ≤ length message.new }
{
    if count > MAX_TEXT {
        return Lengths {
            table: 0,
            message: write_too_long(&mut *message),
        };
    }
    match pla::read_pla(&input[..count], output, &mut *table) {
        Ok(length) => Lengths {
            table: length,
            message: 0,
        },
        Err(refusal) => Lengths {
            table: 0,
            message: write_refused(&mut *message, refusal.number(), refusal.line()),
        },
    }
}

// How many words started the program, its own name among them.
fn word_count(rt: &impl Env) -> usize {
    for i in 0..usize::MAX {
        if matches!(rt.arg(i, &mut []), Err(FillError::NotPresent)) {
            return i;
        }
    }
    usize::MAX
}

fn main(rt: HostRuntime) {
    let mut input = text_room();
    let Ok(count) = streams::read_input(&rt, &mut input) else {
        return;
    };
    let mut argument = [0u8; ARGUMENT_ROOM];
    let length = rt.arg(1, &mut argument).unwrap_or(0);
    let output = chosen(word_count(&rt), &argument[..length]);
    let mut table = table_room();
    let mut message = [0u8; MESSAGE_ROOM];
    let lengths = answer_text(&input, count, output, &mut table, &mut message);
    let table_length = lengths.table;
    let message_length = lengths.message;
    streams::print(&rt, &table[..table_length]);
    streams::complain(&rt, &message[..message_length]);
}
