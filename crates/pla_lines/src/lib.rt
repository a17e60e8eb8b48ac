// The lines of a truth table in Berkeley PLA, read one by one: what each says, what is refused, and flags that hold what the cubes so far say. What the
// words mean is in specs/, the laws about them in proofs/. Read next: specs/Lines.antt.
#![tactic(auto)]

ghost use Rattle.std.specs.Prelude.{◌≡◌, Option, None, Some, not, ◌&&◌, List, [], ◌∷◌, ◌≢◌, ℕ, ◌≤◌, is_none, get_or};
ghost use Rattle.std.specs.Result.{IfOk};
ghost use Rattle.gf2.specs.Limits.{max_variables};
ghost use Rattle.table.specs.Refusal.{test, first_fault};
ghost use Rattle.pla_text.specs.declared.Statement.TheVariants.{Cube};
ghost use Rattle.pla_text.specs.Text.{content_of, symbols_of};
ghost use Rattle.pla_cubes.specs.Cubes.{Row};
ghost use Rattle.pla_cubes.specs.Meaning.{apart_below, is_fr};
ghost use Rattle.pla_cubes.specs.Flagging.{Flagged, unsaid};
ghost use Rattle.pla_lines.specs.Lines.{after_end, bad_inputs, bad_outputs, directive_tests, fault_number, head_after, out_of_turn, shape_tests};
ghost use Rattle.pla_lines.specs.Reading.{read_content, read_statement, read_text};
ghost use Rattle.pla_lines.specs.Bounds.{Bounded, GatheredBy, line_number, most_cubes, reading_of, refusal_line, refusal_number, result_number};

use pla_cubes::{Flags, UNSAID};
use pla_text::{Statement, TableType};
use table::MAX_POINTS;

// What is wrong with a line: a directive by itself, what it says of the inputs or the outputs, its place or that of a cube, a line after the end, a cube
// by itself, or a cube against those before it.
#[derive(Clone, Copy, Debug, PartialEq, Eq)]
pub enum LineFault {
    Directive,
    Inputs,
    Outputs,
    Sequence,
    AfterEnd,
    Cube,
    Contradiction,
}

impl LineFault {
    // Its refusal number (docs/PLA.md).
    pub fn number(self) -> u8
        ensures { result ≡ fault_number self }
    {
        match self {
            LineFault::Directive => 31,
            LineFault::Inputs => 32,
            LineFault::Outputs => 33,
            LineFault::Sequence => 34,
            LineFault::AfterEnd => 35,
            LineFault::Cube => 36,
            LineFault::Contradiction => 37,
        }
    }
}

// The most outputs of a table, as `max_outputs` in specs/.
pub const MAX_OUTPUTS: usize = 4096;

// What the lines so far said: the numbers and the type, if they are given; how many cubes there are; whether the end was reached.
#[derive(Clone, Copy, Debug, PartialEq, Eq)]
pub struct Head {
    pub variables: Option<usize>,
    pub outputs: Option<usize>,
    pub kind: Option<TableType>,
    pub products: Option<usize>,
    pub cubes: usize,
    pub ended: bool,
}

// What the lines so far said, and what their cubes say.
#[derive(Clone, Copy)]
pub struct Reading {
    pub head: Head,
    pub flags: Flags,
}

// The first line at fault, counted from 1, and what the lines before it said.
#[derive(Clone, Copy)]
pub struct LineRefusal {
    pub fault: LineFault,
    pub line: usize,
    pub before: Reading,
}

// After the end only empty lines may follow.
#[tactic(auto, unfolding(table::specs::Refusal::first_fault))]
fn check_end(head: Head) -> Result<(), LineFault>
    ensures { result_number result ≡ first_fault (after_end head ∷ []) }
{
    if head.ended {
        return Err(LineFault::AfterEnd);
    }
    Ok(())
}

// A directive that may be given once and before the first cube, with what it says being wrong or not.
#[tactic(auto, unfolding(table::specs::Refusal::first_fault))]
fn check_once(head: Head, given: bool, wrong: bool, fault: LineFault) -> Result<(), LineFault>
    ensures { result_number result ≡ first_fault (after_end head ∷ out_of_turn head given ∷ test (fault_number fault) wrong ∷ []) }
{
    check_end(head)?;
    if given || head.cubes != 0 {
        return Err(LineFault::Sequence);
    }
    if wrong {
        return Err(fault);
    }
    Ok(())
}

// The number of inputs is missing, 0 or above the limit.
fn bad_inputs(count: Option<usize>) -> bool
    ensures { result ≡ bad_inputs count }
{
    match count {
        Some(count) => table::bad_count(count),
        None => true,
    }
}

// The number of outputs is missing, 0 or above the limit.
fn bad_outputs(count: Option<usize>) -> bool
    ensures { result ≡ bad_outputs count }
{
    match count {
        Some(count) => count == 0 || count > MAX_OUTPUTS,
        None => true,
    }
}

// A statement that is no cube.
#[tactic(auto, unfolding(table::specs::Refusal::first_fault))]
fn check_directive(head: Head, statement: Statement) -> Result<(), LineFault>
    ensures { result_number result ≡ first_fault (directive_tests head statement) }
{
    match statement {
        Statement::Empty | Statement::Cube => Ok(()),
        Statement::Wrong => {
            check_end(head)?;
            Err(LineFault::Directive)
        }
        Statement::Inputs(count) => check_once(
            head,
            head.variables.is_some(),
            bad_inputs(count),
            LineFault::Inputs,
        ),
        Statement::Outputs(count) => check_once(
            head,
            head.outputs.is_some(),
            bad_outputs(count),
            LineFault::Outputs,
        ),
        Statement::Products(count) => check_once(
            head,
            head.products.is_some(),
            count.is_none(),
            LineFault::Directive,
        ),
        Statement::Meaning(kind) => check_once(
            head,
            head.kind.is_some(),
            kind.is_none(),
            LineFault::Directive,
        ),
        Statement::Names | Statement::End => check_end(head),
    }
}

// The head after a statement.
#[tactic(auto, unfolding(crate::specs::Lines::head_after))]
fn head_after(head: Head, statement: Statement) -> Head
    requires { Bounded head most_cubes }
    ensures { result ≡ head_after head statement }
{
    match statement {
        Statement::Empty | Statement::Wrong | Statement::Names => head,
        Statement::Inputs(count) => Head {
            variables: count,
            ..head
        },
        Statement::Outputs(count) => Head {
            outputs: count,
            ..head
        },
        Statement::Products(count) => Head {
            products: count,
            ..head
        },
        Statement::Meaning(kind) => Head { kind, ..head },
        Statement::End => Head {
            ended: true,
            ..head
        },
        Statement::Cube => Head {
            cubes: head.cubes + 1,
            ..head
        },
    }
}

// A cube by itself; it gives the numbers of inputs and outputs.
#[tactic(auto, unfolding(table::specs::Refusal::first_fault))]
fn check_shape(head: Head, content: &[u8]) -> Result<(usize, usize), LineFault>
    ensures fault { result_number result ≡ first_fault (shape_tests head (symbols_of content.now)) }
    ensures sizes { IfOk result (λ sizes. (head.variables ≡ Some sizes.0) × (head.outputs ≡ Some sizes.1)) }
{
    check_end(head)?;
    let (Some(variables), Some(outputs)) = (head.variables, head.outputs) else {
        return Err(LineFault::Sequence);
    };
    if !pla_cubes::is_cube(content, variables, outputs) {
        return Err(LineFault::Cube);
    }
    Ok((variables, outputs))
}

// Of type fr, a point of n variables is both on and off.
fn clashes(kind: Option<TableType>, n: usize, flags: &Flags) -> bool
    requires { n ≤ max_variables }
    ensures { result ≡ is_fr kind && not (apart_below (λ p. (get_or flags.now p unsaid).one) (λ p. (get_or flags.now p unsaid).zero) n) }
{
    matches!(kind, Some(TableType::Fr)) && !pla_cubes::apart(flags, n)
}

// A line with a statement that is no cube.
fn read_directive(reading: &mut Reading, statement: Statement) -> Result<(), LineFault>
    requires { Bounded reading.old.head most_cubes }
    ensures { (number output : ℕ) (rows : List Row) (symbols : List ℕ) → Flagged reading.old.flags rows → statement ≢ Cube → GatheredBy (result_number result) (line_number result number) reading.new (read_statement output number reading.old.head rows symbols statement) }
{
    check_directive(reading.head, statement)?;
    reading.head = head_after(reading.head, statement);
    Ok(())
}

// A line with a cube.
fn read_cube(reading: &mut Reading, content: &[u8], output: usize) -> Result<(), LineFault>
    requires { Bounded reading.old.head most_cubes }
    ensures { (number : ℕ) (rows : List Row) → Flagged reading.old.flags rows → GatheredBy (result_number result) (line_number result number) reading.new (read_statement output number reading.old.head rows (symbols_of content.now) Cube) }
{
    let head = reading.head;
    let (n, outputs) = check_shape(head, content)?;
    let inputs = pla_cubes::inputs_of(content, n);
    let symbol = pla_cubes::output_symbol(content, n, outputs, output);
    let marked = pla_cubes::flags_with(&reading.flags, &inputs[..n], symbol);
    if clashes(head.kind, n, &marked) {
        return Err(LineFault::Contradiction);
    }
    reading.head = head_after(head, Statement::Cube);
    reading.flags = marked;
    Ok(())
}

// A line. One at fault leaves the reading as it was.
fn read_line(reading: &mut Reading, line: &[u8], output: usize) -> Result<(), LineFault>
    requires { Bounded reading.old.head most_cubes }
    ensures { (number : ℕ) (rows : List Row) → Flagged reading.old.flags rows → GatheredBy (result_number result) (line_number result number) reading.new (read_content output number reading.old.head rows (content_of line.now)) }
{
    let content = pla_text::content(line);
    match pla_text::line_statement(content) {
        Statement::Cube => read_cube(reading, content, output),
        statement => read_directive(reading, statement),
    }
}

// All lines of a text, up to the first at fault.
pub fn read_lines(text: &[u8], output: usize) -> Result<Reading, LineRefusal>
    ensures { GatheredBy (refusal_number result) (refusal_line result) (reading_of result) (read_text output text.now) }
{
    let mut reading = Reading {
        head: Head {
            variables: None,
            outputs: None,
            kind: None,
            products: None,
            cubes: 0,
            ended: false,
        },
        flags: [UNSAID; MAX_POINTS],
    };
    for (index, line) in text.split(|byte| *byte == b'\n').enumerate() {
        if let Err(fault) = read_line(&mut reading, line, output) {
            return Err(LineRefusal {
                fault,
                line: index + 1,
                before: reading,
            });
        }
    }
    Ok(reading)
}
