// Points and vectors of n variables under XOR (document 01, "Points and spaces"): the lead of a vector, the parity of common bits,
// and the step that clears a lead bit. What the words mean is in specs/, the laws about them in proofs/. Read next: crate `basis`.
#![tactic(auto)]

ghost use Rattle.std.specs.Prelude.{◌≡◌, ◌<◌};
ghost use Rattle.gf2.specs.Bits.{bit, lead};
ghost use Rattle.gf2.specs.Parity.{odd};
ghost use Rattle.gf2.specs.Basis.{clear};

// The largest number of variables of a table, as `max_variables` in specs/.
pub const MAX_VARIABLES: usize = 12;

// The highest place of a 16-bit number, in which points and vectors are held.
const HIGHEST_PLACE: u32 = 15;

// The bit of x at a place.
pub fn bit(place: u32, x: u16) -> bool
    requires { place < 16 }
    ensures { result ≡ bit place x }
{
    (x >> place) % 2 == 1
}

// The place of the highest set bit of a vector that is not 0, by its count of leading zeros.
pub fn lead(v: u16) -> u32
    requires { 0 < v }
    ensures { result ≡ lead v }
{
    HIGHEST_PLACE - v.leading_zeros()
}

// Whether the number of mask bits set in the point is odd, by its count of ones.
pub fn parity(mask: u16, point: u16) -> bool
    ensures { result ≡ odd mask point }
{
    (mask & point).count_ones() % 2 == 1
}

// x with the lead bit of b cleared by XOR with b. The bit is set in x exactly if that makes x smaller.
pub fn clear_lead(b: u16, x: u16) -> u16
    requires { 0 < b }
    ensures { result ≡ clear b x }
{
    let cleared = x ^ b;
    cleared.min(x)
}
