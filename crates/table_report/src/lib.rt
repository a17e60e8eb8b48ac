// The report of a table, written behind what a writer has written. Read next: specs/Text.antt.
#![tactic(auto)]

ghost use Rattle.std.specs.Prelude.{◌≡◌, ◌≤◌};
ghost use Rattle.gf2.specs.Limits.{max_variables};
ghost use Rattle.gf2.specs.Basis.{canonical_places, variables_at};
ghost use Rattle.basis.specs.Short.{listed, short};
ghost use Rattle.basis.specs.Reduced.{vectors_of, BasisWithin};
ghost use Rattle.table.specs.Table.{Accepted};
ghost use Rattle.space.specs.Restriction.{equations, restriction};
ghost use Rattle.space.specs.Witness.{flagged};
ghost use Rattle.cover.specs.WrittenForm.{product_by};
ghost use Rattle.choice.specs.Search.{candidate_of, PrimeAt};
ghost use Rattle.choice.specs.Chosen.{IsChoice};
ghost use Rattle.text.specs.Writing.{Fits, with_text};
ghost use Rattle.lines.specs.Words.{canonical_word};
ghost use Rattle.lines.specs.Lines.{numbers_line, equation_lines, product_line};
ghost use Rattle.table_report.specs.Text.{is_simple, space_text, table_text};
ghost use Rattle.table_report.specs.Parts.{choice_text, form_lines, function_text, Restricts};

use basis::{Basis, ShortList};
use choice::{Choice, Prime};
use cubes::MAX_LISTED;
use space::MAX_SEARCHED;
use table::{MAX_POINTS, Refusal};
use text::Writer;

// ---- the products

// The line of one prime that was chosen: its product, with the equations put in.
fn chosen_line(out: &mut Writer<'_>, n: usize, equations: ShortList, m: usize, prime: Prime)
    requires n_le_max_variables { n ≤ max_variables }
    requires equations_value { equations ≡ short (listed equations) }
    requires prime_at { PrimeAt m prime }
    requires fits { Fits out.old (product_line n (product_by (listed equations) m (candidate_of prime))) }
    ensures { out.new ≡ with_text out.old (product_line n (product_by (listed equations) m (candidate_of prime))) }
{
    let product = factors::product_of(equations, m, prime);
    lines::product_line(
        out,
        n,
        product.constants.as_slice(),
        product.masks.as_slice(),
    );
}

// The lines of the primes that were chosen, in the order taken.
fn choice_text(out: &mut Writer<'_>, n: usize, equations: ShortList, m: usize, choice: &Choice)
    requires n_le_max_variables { n ≤ max_variables }
    requires equations_value { equations ≡ short (listed equations) }
    requires choice { IsChoice m choice.now }
    requires fits { Fits out.old (choice_text n (listed equations) m choice.now) }
    ensures { out.new ≡ with_text out.old (choice_text n (listed equations) m choice.now) }
{
    for &prime in choice.as_slice() {
        chosen_line(out, n, equations, m, prime);
    }
}

// The lines of the form, by the points of the restriction: `refused 5`, or the products.
fn form_lines(out: &mut Writer<'_>, n: usize, basis: Basis, points: &[u16])
    requires restricts { Restricts n basis points.now }
    requires fits { Fits out.old (form_lines n (vectors_of basis) points.now) }
    ensures { out.new ≡ with_text out.old (form_lines n (vectors_of basis) points.now) }
{
    let m = n - basis.len;
    if m > MAX_LISTED {
        lines::number_line(out, b"refused ", Refusal::Size.number() as usize);
        return;
    }
    let choice = choice::choose(m, points);
    let equations = projection::equations(basis, n);
    choice_text(out, n, equations, m, &choice);
}

// ---- the space

// The line of the canonical variables.
fn canonical_line(out: &mut Writer<'_>, n: usize, basis: Basis)
    requires basis_within { BasisWithin n basis }
    requires fits { Fits out.old (numbers_line canonical_word (variables_at n (canonical_places n (vectors_of basis)))) }
    ensures { out.new ≡ with_text out.old (numbers_line canonical_word (variables_at n (canonical_places n (vectors_of basis)))) }
{
    let canonical = basis.canonical(n);
    lines::numbers_line(out, b"canonical", canonical.as_slice());
}

// The lines of the reduction equations.
fn equations_text(out: &mut Writer<'_>, n: usize, basis: Basis)
    requires basis_within { BasisWithin n basis }
    requires fits { Fits out.old (equation_lines n 1 (equations n (vectors_of basis))) }
    ensures { out.new ≡ with_text out.old (equation_lines n 1 (equations n (vectors_of basis))) }
{
    let equations = projection::equations(basis, n);
    lines::equation_lines(out, n, equations.as_slice());
}

// Degree, canonical variables, reduction equations, restriction. Whether the degree is that of the simple way is printed, and switches no step.
#[tactic(auto, unfolding(crate::specs::Text::space_text), using(text::proofs::Writing::parts))]
fn space_text(out: &mut Writer<'_>, n: usize, simple: bool, basis: Basis, points: &[u16])
    requires basis_within { BasisWithin n basis }
    requires fits { Fits out.old (space_text n simple (vectors_of basis) points.now) }
    ensures { out.new ≡ with_text out.old (space_text n simple (vectors_of basis) points.now) }
{
    lines::degree_line(out, simple, basis.degree());
    canonical_line(out, n, basis);
    equations_text(out, n, basis);
    lines::numbers_line(out, b"restriction", points);
}

// ---- the table

// All lines of the completed function, by the points of its restriction.
#[tactic(auto, unfolding(crate::specs::Parts::function_text), using(text::proofs::Writing::parts))]
fn function_text(out: &mut Writer<'_>, n: usize, simple: bool, basis: Basis, points: &[u16])
    requires restricts { Restricts n basis points.now }
    requires fits { Fits out.old (function_text n simple (vectors_of basis) points.now) }
    ensures { out.new ≡ with_text out.old (function_text n simple (vectors_of basis) points.now) }
{
    space_text(out, n, simple, basis, points);
    form_lines(out, n, basis, points);
}

// The same by the flags of the function, which give the points: the step before, and no twin.
fn flags_text(
    out: &mut Writer<'_>,
    n: usize,
    simple: bool,
    flags: &[bool; MAX_POINTS],
    basis: Basis,
)
    requires basis_within { BasisWithin n basis }
    requires fits { Fits out.old (function_text n simple (vectors_of basis) (restriction n (vectors_of basis) (flagged flags.now))) }
    ensures { out.new ≡ with_text out.old (function_text n simple (vectors_of basis) (restriction n (vectors_of basis) (flagged flags.now))) }
{
    let leads = basis.leads();
    let count = projection::count_kept(flags, leads, n);
    let mut points = [0u16; MAX_POINTS];
    projection::write_kept(flags, leads, n, &mut points);
    function_text(out, n, simple, basis, &points[0..count]);
}

// The degree is that of the simple way, and free points exist.
#[tactic(auto, using(std::proofs::lemmas::Bool::Decides::nat_tests), unfolding(crate::specs::Text::is_simple))]
fn is_simple(n: usize, free: &[u16]) -> bool
    ensures { result ≡ is_simple n free.now }
{
    n > MAX_SEARCHED && !free.is_empty()
}

// The report of an accepted table.
pub fn table_text(out: &mut Writer<'_>, n: usize, on: &[u16], free: &[u16])
    requires accepted { Accepted n on.now free.now }
    requires fits { Fits out.old (table_text n on.now free.now) }
    ensures { out.new ≡ with_text out.old (table_text n on.now free.now) }
{
    lines::number_line(out, b"variables ", n);
    lines::counts_line(out, on.len(), free.len());
    let simple = is_simple(n, free);
    let completed = space::complete(n, on, free);
    let flags = completed.flags;
    flags_text(out, n, simple, &flags, completed.basis);
}
