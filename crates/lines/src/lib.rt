// The lines of the printed report: each function writes one, or several of a kind, behind what a writer has written. Read next: specs/Lib.antt.
#![tactic(auto)]

ghost use Rattle.std.specs.Prelude.{◌≡◌, ◌≤◌, length};
ghost use mathlib.Core.List.{zip_with, flat_map};
ghost use Rattle.gf2.specs.Limits.{max_variables};
ghost use Rattle.product.specs.Product.{factor};
ghost use Rattle.text.specs.Writing.{Fits, with_text};
ghost use Rattle.lines.specs.Lines.{number_line, fault_line, counts_line, degree_line, numbers_text, numbers_line, variables_text, equation_line, equation_lines, factor_text, product_text, product_line};

use text::Writer;

// A word and a number.
#[tactic(auto, unfolding(crate::specs::Lines::number_line), using(text::proofs::Writing::parts))]
pub fn number_line(out: &mut Writer<'_>, word: &[u8], n: usize)
    requires { Fits out.old (number_line word.now n) }
    ensures { out.new ≡ with_text out.old (number_line word.now n) }
{
    out.labelled(word, n);
    out.word(b"\n");
}

// A refusal, with its byte place if its number has one. It takes the number and no `Refusal`, since every number has a line.
#[tactic(auto, unfolding(crate::specs::Lines::fault_line), using(text::proofs::Writing::parts))]
pub fn fault_line(out: &mut Writer<'_>, number: u8, place: usize)
    requires { Fits out.old (fault_line number place) }
    ensures { out.new ≡ with_text out.old (fault_line number place) }
{
    if !table::has_place(number) {
        number_line(out, b"refused ", number as usize);
        return;
    }
    out.labelled(b"refused ", number as usize);
    number_line(out, b" at ", place);
}

// The numbers of on points and of free points.
#[tactic(auto, unfolding(crate::specs::Lines::counts_line), using(text::proofs::Writing::parts))]
pub fn counts_line(out: &mut Writer<'_>, on: usize, free: usize)
    requires { Fits out.old (counts_line on free) }
    ensures { out.new ≡ with_text out.old (counts_line on free) }
{
    out.labelled(b"on ", on);
    number_line(out, b" free ", free);
}

// The degree, marked as that of the simple way if asked.
#[tactic(auto, unfolding(crate::specs::Lines::degree_line), using(text::proofs::Writing::parts))]
pub fn degree_line(out: &mut Writer<'_>, simple: bool, k: usize)
    requires { Fits out.old (degree_line simple k) }
    ensures { out.new ≡ with_text out.old (degree_line simple k) }
{
    if !simple {
        number_line(out, b"degree ", k);
        return;
    }
    out.labelled(b"degree ", k);
    out.word(b" simple\n");
}

// Numbers, or `-` for none.
fn numbers_text(out: &mut Writer<'_>, numbers: &[u16])
    requires { Fits out.old (numbers_text numbers.now) }
    ensures { out.new ≡ with_text out.old (numbers_text numbers.now) }
{
    if numbers.is_empty() {
        out.word(b" -");
        return;
    }
    out.numbers(numbers);
}

// A word and a list of numbers.
#[tactic(auto, unfolding(crate::specs::Lines::numbers_line), using(text::proofs::Writing::parts))]
pub fn numbers_line(out: &mut Writer<'_>, word: &[u8], numbers: &[u16])
    requires { Fits out.old (numbers_line word.now numbers.now) }
    ensures { out.new ≡ with_text out.old (numbers_line word.now numbers.now) }
{
    out.word(word);
    numbers_text(out, numbers);
    out.word(b"\n");
}

// The names of the variables of a mask, in index order.
fn variables_text(out: &mut Writer<'_>, between: &[u8], n: usize, mask: u16)
    requires n_le_max_variables { n ≤ max_variables }
    requires fits { Fits out.old (variables_text between.now n mask) }
    ensures { out.new ≡ with_text out.old (variables_text between.now n mask) }
{
    let variables = basis::variables_of(mask, n);
    out.names(between, variables.as_slice());
}

// One reduction equation, by its index and its mask.
#[tactic(auto, unfolding(crate::specs::Lines::equation_line), using(text::proofs::Writing::parts))]
fn equation_line(out: &mut Writer<'_>, n: usize, index: usize, mask: u16)
    requires n_le_max_variables { n ≤ max_variables }
    requires fits { Fits out.old (equation_line n index mask) }
    ensures { out.new ≡ with_text out.old (equation_line n index mask) }
{
    out.labelled(b"y", index);
    out.word(b" = ");
    variables_text(out, b" + ", n, mask);
    out.word(b"\n");
}

// The reduction equations y1, y2, ..
pub fn equation_lines(out: &mut Writer<'_>, n: usize, masks: &[u16])
    requires n_le_max_variables { n ≤ max_variables }
    requires fits { Fits out.old (equation_lines n 1 masks.now) }
    ensures { out.new ≡ with_text out.old (equation_lines n 1 masks.now) }
{
    for (i, &mask) in masks.iter().enumerate() {
        equation_line(out, n, 1 + i, mask);
    }
}

// One factor, after its blank.
#[tactic(auto, unfolding(crate::specs::Lines::factor_text), using(text::proofs::Writing::parts))]
fn factor_text(out: &mut Writer<'_>, n: usize, constant: u16, mask: u16)
    requires n_le_max_variables { n ≤ max_variables }
    requires fits { Fits out.old (factor_text n (factor constant mask)) }
    ensures { out.new ≡ with_text out.old (factor_text n (factor constant mask)) }
{
    out.word(b" ");
    variables_text(out, b"+", n, mask);
    out.labelled(b"=", constant as usize);
}

// The factors in their order, one for each constant and mask.
fn factors_text(out: &mut Writer<'_>, n: usize, constants: &[u16], masks: &[u16])
    requires n_le_max_variables { n ≤ max_variables }
    requires constants_len { length constants.now ≡ length masks.now }
    requires fits { Fits out.old (flat_map (factor_text n) (zip_with factor constants.now masks.now)) }
    ensures { out.new ≡ with_text out.old (flat_map (factor_text n) (zip_with factor constants.now masks.now)) }
{
    for (&constant, &mask) in constants.iter().zip(masks) {
        factor_text(out, n, constant, mask);
    }
}

// The factors, or `1` for none.
fn product_text(out: &mut Writer<'_>, n: usize, constants: &[u16], masks: &[u16])
    requires n_le_max_variables { n ≤ max_variables }
    requires constants_len { length constants.now ≡ length masks.now }
    requires fits { Fits out.old (product_text n (zip_with factor constants.now masks.now)) }
    ensures { out.new ≡ with_text out.old (product_text n (zip_with factor constants.now masks.now)) }
{
    if masks.is_empty() {
        out.word(b" 1");
        return;
    }
    factors_text(out, n, constants, masks);
}

// One product, by the constants and the masks of its factors.
#[tactic(auto, unfolding(crate::specs::Lines::product_line), using(text::proofs::Writing::parts))]
pub fn product_line(out: &mut Writer<'_>, n: usize, constants: &[u16], masks: &[u16])
    requires n_le_max_variables { n ≤ max_variables }
    requires constants_len { length constants.now ≡ length masks.now }
    requires fits { Fits out.old (product_line n (zip_with factor constants.now masks.now)) }
    ensures { out.new ≡ with_text out.old (product_line n (zip_with factor constants.now masks.now)) }
{
    out.word(b"product");
    product_text(out, n, constants, masks);
    out.word(b"\n");
}
