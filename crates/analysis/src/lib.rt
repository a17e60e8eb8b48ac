// The answers on the spaces of a table: linear space, completed function, its analysis, and smallest affine space (document 01, "Points and spaces").
// Each function takes numbers and lent slices, asks nothing of its caller, and says in its contract what it returns and what every lent slice holds
// afterwards, on all inputs. The function `try_..` beside a call finds its answer or why it is refused. Read next: specs/Spaces.antt.
#![tactic(auto)]

ghost use Rattle.std.specs.Prelude.{◌≡◌, ◌≤◌, ◌<◌, length, MatchResult};
ghost use Rattle.gf2.specs.Limits.{max_variables};
ghost use Rattle.table.specs.Answers.{settled};
ghost use Rattle.table.specs.Decision.{front};
ghost use Rattle.space.specs.Witness.{flagged};
ghost use Rattle.projection.specs.Masks.{kept};
ghost use Rattle.space_answer.specs.Answer.{refused_space};
ghost use Rattle.analysis.specs.Spaces.{linear_space_answer, refused_completion, complete_answer, complete_after, refused_analysis, analyse_answer, analyse_after};
ghost use Rattle.analysis.specs.Affine.{refused_affine, affine_answer, affine_after};

use basis::{Basis, ShortList};
pub use space_answer::LinearSpace;
use table::{Answer, MAX_POINTS, Refusal};

// The completed function: how many points, its degree, and the degrees with all free points off and with all of them on.
#[repr(C)]
#[derive(Clone, Copy)]
pub struct Completion {
    pub refusal: u8,
    pub count: usize,
    pub degree: usize,
    pub k0: usize,
    pub k1: usize,
}

// The completed function's linear space, canonical variables by index, equation masks, and how many points its restriction has.
#[repr(C)]
#[derive(Clone, Copy)]
pub struct Analysis {
    pub refusal: u8,
    pub degree: usize,
    pub basis: Basis,
    pub canonical: ShortList,
    pub equations: ShortList,
    pub count: usize,
}

// The smallest affine space of the on points: its least point, its dimension and basis, and how many points are projected.
#[repr(C)]
#[derive(Clone, Copy)]
pub struct AffineSpace {
    pub refusal: u8,
    pub least: u16,
    pub dimension: usize,
    pub basis: Basis,
    pub count: usize,
}

impl Answer for Completion {
    ghost refused_with = { refused_completion };

    fn refused(refusal: Refusal) -> Completion {
        Completion {
            refusal: refusal.number(),
            count: 0,
            degree: 0,
            k0: 0,
            k1: 0,
        }
    }
}

impl Answer for Analysis {
    ghost refused_with = { refused_analysis };

    fn refused(refusal: Refusal) -> Analysis {
        Analysis {
            refusal: refusal.number(),
            degree: 0,
            basis: Basis::EMPTY,
            canonical: ShortList::EMPTY,
            equations: ShortList::EMPTY,
            count: 0,
        }
    }
}

impl Answer for AffineSpace {
    ghost refused_with = { refused_affine };

    fn refused(refusal: Refusal) -> AffineSpace {
        AffineSpace {
            refusal: refusal.number(),
            least: 0,
            dimension: 0,
            basis: Basis::EMPTY,
            count: 0,
        }
    }
}

// What `linear_space` finds, or why it is refused.
fn try_linear_space(n: usize, on: &[u16]) -> Result<LinearSpace, Refusal>
    ensures { settled refused_space result ≡ linear_space_answer n on.now }
{
    table::check_table(n, on, &[])?;
    let flags = table::flags_of(on);
    let basis = space::linear_space(&flags, n);
    Ok(LinearSpace::from(basis))
}

// The linear space of the function that is on at the given points and off elsewhere. Refusals 1, 2, 3.
pub fn linear_space(n: usize, on: &[u16]) -> LinearSpace
    ensures { result ≡ linear_space_answer n on.now }
{
    table::settle(try_linear_space(n, on))
}

// The points that the lead mask keeps, at the front of the room, and how many they are; or the refusal of a room that is too short for them.
fn put_kept(
    flags: &[bool; MAX_POINTS],
    leads: u16,
    n: usize,
    room: &mut [u16],
) -> Result<usize, Refusal>
    requires { n ≤ max_variables }
    ensures { let points = kept n leads (flagged flags.now) in MatchResult result (λ count. (count ≡ length points) × (count ≤ length room.old) × (room.new ≡ front points room.old)) (λ refusal. (refusal ≡ Refusal.Room) × (length room.old < length points) × (room.new ≡ room.old)) }
{
    let count = projection::count_kept(flags, leads, n);
    if room.len() < count {
        return Err(Refusal::Room);
    }
    projection::write_kept(flags, leads, n, &mut *room);
    Ok(count)
}

// What `complete` finds, or why it is refused.
fn try_complete(n: usize, on: &[u16], free: &[u16], room: &mut [u16]) -> Result<Completion, Refusal>
    ensures value { settled refused_completion result ≡ complete_answer n on.now free.now room.old }
    ensures room_after { room.new ≡ complete_after n on.now free.now room.old }
{
    table::check_table(n, on, free)?;
    let completed = space::complete(n, on, free);
    let count = put_kept(&completed.flags, 0, n, &mut *room)?;
    Ok(Completion {
        refusal: 0,
        count,
        degree: completed.basis.len,
        k0: completed.k0,
        k1: completed.k1,
    })
}

// The completed function's points, rising, at the front of the room. Refusals 1, 2, 3, 4, then 7.
pub fn complete(n: usize, on: &[u16], free: &[u16], room: &mut [u16]) -> Completion
    ensures value { result ≡ complete_answer n on.now free.now room.old }
    ensures room_after { room.new ≡ complete_after n on.now free.now room.old }
{
    table::settle(try_complete(n, on, free, &mut *room))
}

// What `analyse` finds, or why it is refused.
fn try_analyse(n: usize, on: &[u16], free: &[u16], room: &mut [u16]) -> Result<Analysis, Refusal>
    ensures value { settled refused_analysis result ≡ analyse_answer n on.now free.now room.old }
    ensures room_after { room.new ≡ analyse_after n on.now free.now room.old }
{
    table::check_table(n, on, free)?;
    let completed = space::complete(n, on, free);
    let basis = completed.basis;
    let count = put_kept(&completed.flags, basis.leads(), n, &mut *room)?;
    let canonical = basis.canonical(n);
    let equations = projection::equations(basis, n);
    Ok(Analysis {
        refusal: 0,
        degree: basis.len,
        basis,
        canonical,
        equations,
        count,
    })
}

// The linear space of the completed function, and the points of its restriction, rising, at the front of the room. Refusals 1, 2, 3, 4, then 7.
pub fn analyse(n: usize, on: &[u16], free: &[u16], room: &mut [u16]) -> Analysis
    ensures value { result ≡ analyse_answer n on.now free.now room.old }
    ensures room_after { room.new ≡ analyse_after n on.now free.now room.old }
{
    table::settle(try_analyse(n, on, free, &mut *room))
}

// What `affine` finds, or why it is refused.
fn try_affine(n: usize, on: &[u16], room: &mut [u16]) -> Result<AffineSpace, Refusal>
    ensures value { settled refused_affine result ≡ affine_answer n on.now room.old }
    ensures room_after { room.new ≡ affine_after n on.now room.old }
{
    table::check_table(n, on, &[])?;
    if on.is_empty() {
        return Err(Refusal::Affine);
    }
    if room.len() < on.len() {
        return Err(Refusal::Room);
    }
    let basis = projection::directions(on);
    let least = basis.reduce(on[0]);
    projection::write_projection(on, basis.leads(), n, &mut *room);
    Ok(AffineSpace {
        refusal: 0,
        least,
        dimension: basis.len,
        basis,
        count: on.len(),
    })
}

// The smallest affine space that holds the on points, and their projection at the front of the room. Refusals 1, 2, 3, 6, then 7.
pub fn affine(n: usize, on: &[u16], room: &mut [u16]) -> AffineSpace
    ensures value { result ≡ affine_answer n on.now room.old }
    ensures room_after { room.new ≡ affine_after n on.now room.old }
{
    table::settle(try_affine(n, on, &mut *room))
}
