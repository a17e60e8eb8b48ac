// The text of a truth table in Berkeley PLA: a line's part before its comment, numbers, and the statement that a line makes. What the words mean is in
// specs/, the laws about them in proofs/. Read next: specs/Text.antt.
#![tactic(auto)]

ghost use Rattle.std.specs.Prelude.{◌≡◌, ◌<◌, false, ◌∷◌, length, get_or};
ghost use Rattle.std.specs.List.{slice_get};
ghost use Rattle.std.specs.Option.{option_copied};
ghost use Rattle.pla_text.specs.Text.{is_blank, content_of, symbols_of, words_of};
ghost use Rattle.pla_text.specs.Numbers.{with_digit, number_of, number_limit};
ghost use Rattle.pla_text.specs.Statements.{type_of, operand_of, directive_of, words_told, statement_of};

// The types of a table: which cubes have a meaning.
#[derive(Clone, Copy, Debug, PartialEq, Eq)]
pub enum TableType {
    F,
    Fd,
    Fr,
}

// The statement that a line makes: nothing, a directive that is unknown or has a wrong number of words, the known directives, or a cube. A word that is
// no number, or no type, is `None`. A wrong directive is a statement and no error, since after the end it is refused as all others are.
#[derive(Clone, Copy, Debug, PartialEq, Eq)]
pub enum Statement {
    Empty,
    Wrong,
    Inputs(Option<usize>),
    Outputs(Option<usize>),
    Products(Option<usize>),
    Meaning(Option<TableType>),
    Names,
    End,
    Cube,
}

// Numbers are below this, as in specs/.
pub const NUMBER_LIMIT: usize = 1_000_000_000;

// The byte is a blank.
pub fn is_blank(byte: u8) -> bool
    ensures { result ≡ is_blank byte }
{
    byte == b' ' || byte == b'\t' || byte == b'\r'
}

// What a line says, without its comment.
pub fn content(line: &[u8]) -> &[u8]
    ensures { result.now ≡ content_of line.now }
{
    let end = line.iter().position(|byte| *byte == b'#');
    &line[..end.unwrap_or(line.len())]
}

// A number with one digit more.
#[tactic(auto, unfolding(crate::specs::Numbers::with_digit))]
fn with_digit(value: usize, byte: u8) -> Option<usize>
    requires { value < number_limit }
    ensures { result ≡ with_digit value byte }
{
    if !byte.is_ascii_digit() {
        return None;
    }
    let next = 10 * value + (byte - b'0') as usize;
    (next < NUMBER_LIMIT).then_some(next)
}

// The number that a word stands for.
pub fn number(word: &[u8]) -> Option<usize>
    ensures { result ≡ number_of word.now }
{
    let mut value = 0;
    for byte in word {
        value = with_digit(value, *byte)?;
    }
    Some(value)
}

// The type that a word names.
#[tactic(auto, unfolding(crate::specs::Statements::type_of))]
fn type_of(word: &[u8]) -> Option<TableType>
    ensures { result ≡ type_of word.now }
{
    if word == b"f".as_slice() {
        Some(TableType::F)
    } else if word == b"fd".as_slice() {
        Some(TableType::Fd)
    } else if word == b"fr".as_slice() {
        Some(TableType::Fr)
    } else {
        None
    }
}

// A directive with one word after it.
#[tactic(auto, unfolding(crate::specs::Statements::operand_of))]
fn operand(name: &[u8], word: &[u8]) -> Statement
    ensures { result ≡ operand_of name.now word.now }
{
    if name == b".i".as_slice() {
        Statement::Inputs(number(word))
    } else if name == b".o".as_slice() {
        Statement::Outputs(number(word))
    } else if name == b".p".as_slice() {
        Statement::Products(number(word))
    } else if name == b".type".as_slice() {
        Statement::Meaning(type_of(word))
    } else {
        Statement::Wrong
    }
}

// A directive by its name, the first word that follows it, and whether another follows.
#[tactic(auto, unfolding(crate::specs::Statements::directive_of, crate::specs::Statements::end_of, crate::specs::Statements::words_told))]
fn directive(name: &[u8], word: Option<&[u8]>, more: bool) -> Statement
    ensures { result ≡ directive_of name.now (words_told (option_copied word.entry) more) }
{
    if name == b".ilb".as_slice() || name == b".ob".as_slice() {
        return Statement::Names;
    }
    if name == b".e".as_slice() || name == b".end".as_slice() {
        return if word.is_none() {
            Statement::End
        } else {
            Statement::Wrong
        };
    }
    match word {
        Some(word) if !more => operand(name, word),
        _ => Statement::Wrong,
    }
}

// A line's content from its first word on, or nothing where it has none.
fn from_word(content: &[u8]) -> &[u8]
    ensures words { words_of result.now ≡ words_of content.now }
    ensures begins { is_blank (get_or result.now 0 0) ≡ false }
{
    match content.iter().position(|byte| !is_blank(*byte)) {
        Some(start) => &content[start..],
        None => &[],
    }
}

// The first word of a line that begins with one, and the line from its next word on.
fn split_word(line: &[u8]) -> (&[u8], &[u8])
    requires some { 0 < length line.now }
    requires begins { is_blank (get_or line.now 0 0) ≡ false }
    ensures words { words_of line.now ≡ result.0.now ∷ words_of result.1.now }
    ensures next { is_blank (get_or result.1.now 0 0) ≡ false }
{
    match line.iter().position(|byte| is_blank(*byte)) {
        Some(end) => (&line[..end], from_word(&line[end..])),
        None => (line, &[]),
    }
}

// The statement that a line makes, by what stands before its comment. A cube is told by its first byte, wherever the word ends.
pub fn line_statement(content: &[u8]) -> Statement
    ensures { result ≡ statement_of (words_of content.now) }
{
    let line = from_word(content);
    if line.is_empty() {
        return Statement::Empty;
    }
    if !line.starts_with(b".") {
        return Statement::Cube;
    }
    let (name, rest) = split_word(line);
    if rest.is_empty() {
        return directive(name, None, false);
    }
    let (word, rest) = split_word(rest);
    directive(name, Some(word), !rest.is_empty())
}

// The symbol of a line by its number, counted from 0 and without the blanks.
pub fn symbol_at(content: &[u8], number: usize) -> Option<u8>
    ensures { result ≡ slice_get (symbols_of content.now) number }
{
    content
        .iter()
        .copied()
        .filter(|byte| !is_blank(*byte))
        .nth(number)
}
