// A truth table in Berkeley PLA, one chosen output of it, read as a stored table (docs/PLA.md). What the words mean is in specs/, the laws about them in
// proofs/. Read next: specs/Table.antt.
#![tactic(auto)]

ghost use Rattle.std.specs.Prelude.{◌≡◌, ◌||◌, Some, ◌+◌, ◌≤◌, length};
ghost use Rattle.std.specs.Result.{IfOk};
ghost use Rattle.std.proofs.lemmas.List.Edits.{sets};
ghost use Rattle.gf2.specs.Limits.{max_variables};
ghost use Rattle.table.specs.Refusal.{first_fault};
ghost use Rattle.table.specs.Decision.{front};
ghost use Rattle.stored.specs.Layout.{first_point, table_length};
ghost use Rattle.stored.specs.Encoding.{encode_marks, encode_table};
ghost use Rattle.pla_cubes.specs.Meaning.{free_by};
ghost use Rattle.pla.specs.declared.PlaRefusal.TheVariants.{Line};
ghost use Rattle.pla.specs.Table.{flag_marks, mark_of};
ghost use Rattle.pla.specs.Answer.{answer_of, end_tests, line_of, miscounted, number_of, pla_after, pla_answer, result_line, result_number};

use pla_cubes::{Flags, PointFlags};
use pla_lines::{Head, LineFault, LineRefusal};
use pla_text::TableType;
use records::WORD_RECORD_LENGTH;
use stored::FIRST_POINT;

// Why a text is refused: a line at fault, with its number; what is missing or wrong at its end; or the room is short.
#[derive(Clone, Copy, Debug, PartialEq, Eq)]
pub enum PlaRefusal {
    Line(LineFault, usize),
    Head,
    Count,
    Output,
    Room,
}

impl PlaRefusal {
    // Its refusal number (docs/PLA.md).
    pub fn number(self) -> u8
        ensures { result ≡ number_of self }
    {
        match self {
            PlaRefusal::Line(fault, _) => fault.number(),
            PlaRefusal::Head => 38,
            PlaRefusal::Count => 39,
            PlaRefusal::Output => 40,
            PlaRefusal::Room => 7,
        }
    }

    // The line at fault, or 0.
    pub fn line(self) -> usize
        ensures { result ≡ line_of self }
    {
        match self {
            PlaRefusal::Line(_, line) => line,
            _ => 0,
        }
    }
}

impl From<LineRefusal> for PlaRefusal {
    ghost from_gives = { λ line refusal. refusal ≡ Line line.fault line.line };

    fn from(refusal: LineRefusal) -> PlaRefusal {
        PlaRefusal::Line(refusal.fault, refusal.line)
    }
}

// A number of cubes was given, and it isn't theirs.
fn miscounted(head: Head) -> bool
    ensures { result ≡ miscounted head }
{
    match head.products {
        Some(products) => products != head.cubes,
        None => false,
    }
}

// The end of a text; it gives the number of inputs.
#[tactic(auto, unfolding(table::specs::Refusal::first_fault))]
fn check_text(output: usize, head: Head) -> Result<usize, PlaRefusal>
    ensures fault { result_number result ≡ first_fault (end_tests output head) }
    ensures no_line { result_line result ≡ 0 }
    ensures inputs { IfOk result (λ n. head.variables ≡ Some n) }
{
    let (Some(variables), Some(outputs)) = (head.variables, head.outputs) else {
        return Err(PlaRefusal::Head);
    };
    if miscounted(head) {
        return Err(PlaRefusal::Count);
    }
    if output == 0 || output > outputs {
        return Err(PlaRefusal::Output);
    }
    Ok(variables)
}

// By what is said of it, a point is free, unless it is on.
#[tactic(auto, unfolding(pla_cubes::specs::Meaning::free_by))]
fn is_free(kind: Option<TableType>, said: PointFlags) -> bool
    ensures { result ≡ free_by kind said.zero said.dash }
{
    match kind {
        Some(TableType::F) => false,
        Some(TableType::Fr) => !said.zero,
        Some(TableType::Fd) | None => said.dash,
    }
}

// By what is said of it, a point has a mark.
fn is_marked(kind: Option<TableType>, said: PointFlags) -> bool
    ensures { result ≡ said.one || free_by kind said.zero said.dash }
{
    said.one || is_free(kind, said)
}

// How many of the points of n variables are marked. Type, n and flags are three parameters: a struct of them would be a `Reading` whose number of inputs
// is taken out, and no plainer.
fn count_marks(kind: Option<TableType>, n: usize, flags: &Flags) -> usize
    requires { n ≤ max_variables }
    ensures { result ≡ length (flag_marks kind n flags.now) }
{
    let size = table::point_count(n) as usize;
    flags[..size]
        .iter()
        .filter(|said| is_marked(kind, **said))
        .count()
}

// The record of a point's mark, if it has one, written at a place; the place behind it. On and free are what a record's kind is of, and switch no step.
fn write_mark(room: &mut [u8], at: usize, on: bool, free: bool, point: u16) -> usize
    requires { at + length (encode_marks (mark_of on free point)) ≤ length room.old }
    ensures place { result ≡ at + length (encode_marks (mark_of on free point)) }
    ensures room_after { room.new ≡ sets room.old at (encode_marks (mark_of on free point)) }
{
    if on {
        records::put_record(room, at, records::ON_KIND, point);
        return at + WORD_RECORD_LENGTH;
    }
    if free {
        records::put_record(room, at, records::FREE_KIND, point);
        return at + WORD_RECORD_LENGTH;
    }
    at
}

// The records of the marks of n variables, written behind the first record.
fn write_marks(kind: Option<TableType>, n: usize, flags: &Flags, room: &mut [u8]) -> usize
    requires n_le_max_variables { n ≤ max_variables }
    requires flags_in_bounds { first_point + length (encode_marks (flag_marks kind n flags.now)) ≤ length room.old }
    ensures place { result ≡ first_point + length (encode_marks (flag_marks kind n flags.now)) }
    ensures room_after { room.new ≡ sets room.old first_point (encode_marks (flag_marks kind n flags.now)) }
{
    let mut at = FIRST_POINT;
    for point in 0..table::point_count(n) {
        let said = flags[table::flag_place(point)];
        at = write_mark(&mut *room, at, said.one, is_free(kind, said), point);
    }
    at
}

// The stored table of n variables, written to the front of a room that has place for it.
fn write_table(kind: Option<TableType>, n: usize, flags: &Flags, count: usize, room: &mut [u8])
    requires n_le_max_variables { n ≤ max_variables }
    requires count_value { count ≡ length (flag_marks kind n flags.now) }
    requires count_in_bounds { table_length count ≤ length room.old }
    ensures { room.new ≡ front (encode_table n (flag_marks kind n flags.now)) room.old }
{
    room[0] = records::VARIABLES_KIND;
    room[1] = n as u8;
    let at = write_marks(kind, n, flags, &mut *room);
    records::put_end(&mut *room, at, count as u16);
}

// The chosen output, counted from 1, of a truth table in Berkeley PLA as a stored table at the front of the room; it gives the table's length. Refused
// are a line at fault with its own number, then what is wrong at the end of the text, then a room that is short.
pub fn read_pla(text: &[u8], output: usize, room: &mut [u8]) -> Result<usize, PlaRefusal>
    ensures answer { answer_of result ≡ pla_answer text.now output room.old }
    ensures room_after { room.new ≡ pla_after text.now output room.old }
{
    let reading = pla_lines::read_lines(text, output)?;
    let kind = reading.head.kind;
    let n = check_text(output, reading.head)?;
    let count = count_marks(kind, n, &reading.flags);
    let length = FIRST_POINT + WORD_RECORD_LENGTH * count + WORD_RECORD_LENGTH;
    if room.len() < length {
        return Err(PlaRefusal::Room);
    }
    write_table(kind, n, &reading.flags, count, room);
    Ok(length)
}
