// The cubes of a truth table in Berkeley PLA: their symbols tested, the points that they cover, and flags that hold what they say. What the words mean
// is in specs/, the laws about them in proofs/. Read next: specs/Cubes.antt.
#![tactic(auto)]

ghost use Rattle.std.specs.Prelude.{◌≡◌, ◌||◌, List, ◌∷◌, ℕ, ◌+◌, ◌≤◌, ◌<◌, eqb, length, get_or, take};
ghost use Rattle.gf2.specs.Limits.{max_variables};
ghost use Rattle.table.specs.Flags.{max_points};
ghost use Rattle.pla_text.specs.Text.{symbols_of};
ghost use Rattle.pla_cubes.specs.Cubes.{Row, allows, covers, is_cube, is_input, is_output, max_outputs, row_of, takes};
ghost use Rattle.pla_cubes.specs.Meaning.{apart_below};
ghost use Rattle.pla_cubes.specs.Flagging.{Flagged, marked, unsaid};

use gf2::MAX_VARIABLES;
use table::MAX_POINTS;

// What the cubes so far say of a point: whether a 1, a 0 or a dash covers it.
#[derive(Clone, Copy, Debug, PartialEq, Eq)]
pub struct PointFlags {
    pub one: bool,
    pub zero: bool,
    pub dash: bool,
}

// The flags of all points.
pub type Flags = [PointFlags; MAX_POINTS];

// No cube covers the point.
pub const UNSAID: PointFlags = PointFlags {
    one: false,
    zero: false,
    dash: false,
};

// A symbol of an input.
fn is_input(symbol: u8) -> bool
    ensures { result ≡ is_input symbol }
{
    matches!(symbol, b'0' | b'1' | b'-')
}

// A symbol of an output.
fn is_output(symbol: u8) -> bool
    ensures { result ≡ is_output symbol }
{
    is_input(symbol) || symbol == b'~'
}

// With so many inputs and outputs to come, the symbol may be the next.
fn takes(inputs: usize, outputs: usize, symbol: u8) -> bool
    ensures { result ≡ takes inputs outputs symbol }
{
    if inputs > 0 {
        return is_input(symbol);
    }
    outputs > 0 && is_output(symbol)
}

// A line's symbols are those of exactly so many inputs and then of exactly so many outputs.
pub fn is_cube(content: &[u8], inputs: usize, outputs: usize) -> bool
    ensures { result ≡ is_cube inputs outputs (symbols_of content.now) }
{
    let mut n = inputs;
    let mut o = outputs;
    for symbol in content {
        if pla_text::is_blank(*symbol) {
            continue;
        }
        if !takes(n, o, *symbol) {
            return false;
        }
        if n > 0 {
            n -= 1;
            continue;
        }
        o -= 1;
    }
    n == 0 && o == 0
}

// The symbols of the inputs of a line that has as many.
pub fn inputs_of(content: &[u8], n: usize) -> [u8; MAX_VARIABLES]
    requires n_le_max_variables { n ≤ max_variables }
    requires n_in_bounds { n ≤ length (symbols_of content.now) }
    ensures { take n result ≡ take n (symbols_of content.now) }
{
    let mut inputs = [b'-'; MAX_VARIABLES];
    for i in 0..n {
        inputs[i] = pla_text::symbol_at(content, i).unwrap_or(b'-');
    }
    inputs
}

// The symbol of the chosen output, counted from 1, in a cube; a tilde where there is no such output.
pub fn output_symbol(content: &[u8], n: usize, outputs: usize, output: usize) -> u8
    requires n_le_max_variables { n ≤ max_variables }
    requires outputs_le_max_outputs { outputs ≤ max_outputs }
    requires content_len { length (symbols_of content.now) ≡ n + outputs }
    ensures { result ≡ (row_of n output (symbols_of content.now)).output }
{
    if output == 0 || output > outputs {
        return b'~';
    }
    pla_text::symbol_at(content, n + (output - 1)).unwrap_or(b'~')
}

// An input's symbol allows the value.
fn allows(symbol: u8, value: bool) -> bool
    ensures { result ≡ allows symbol value }
{
    match symbol {
        b'0' => !value,
        b'1' => value,
        _ => true,
    }
}

// The cube of these inputs covers the point.
fn covers(inputs: &[u8], point: u16) -> bool
    requires { length inputs.now ≤ max_variables }
    ensures { result ≡ covers inputs.now point }
{
    for (i, symbol) in inputs.iter().enumerate() {
        let place = (inputs.len() - 1 - i) as u32;
        if !allows(*symbol, gf2::bit(place, point)) {
            return false;
        }
    }
    true
}

// What is said of a point, once a cube that covers it has this symbol.
#[tactic(auto, unfolding(crate::specs::Flagging::marked))]
fn marked(said: PointFlags, symbol: u8) -> PointFlags
    ensures { result ≡ marked said symbol }
{
    match symbol {
        b'1' => PointFlags { one: true, ..said },
        b'0' => PointFlags { zero: true, ..said },
        b'-' => PointFlags { dash: true, ..said },
        _ => said,
    }
}

// The flags once a row with these inputs and this symbol is read too. A call of its own: inlined, the copies of the flags are unrolled, point by point.
#[inline(never)]
pub fn flags_with(flags: &Flags, inputs: &[u8], symbol: u8) -> Flags
    requires { length inputs.now ≤ max_variables }
    ensures { (rows : List Row) → Flagged flags.now rows → Flagged result (record { inputs = inputs.now; output = symbol } ∷ rows) }
{
    let mut next = *flags;
    if !is_input(symbol) {
        return next;
    }
    for (point, said) in next.iter_mut().enumerate() {
        if covers(inputs, point as u16) {
            *said = marked(*said, symbol);
        }
    }
    next
}

// No point of n variables has both a 1 and a 0.
pub fn apart(flags: &Flags, n: usize) -> bool
    requires { n ≤ max_variables }
    ensures { result ≡ apart_below (λ p. (get_or flags.now p unsaid).one) (λ p. (get_or flags.now p unsaid).zero) n }
{
    let size = table::point_count(n) as usize;
    !flags[..size].iter().any(|said| said.one && said.zero)
}
