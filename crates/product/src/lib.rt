// XOR factors and canonical products (document 01, "The written form"): the lowest bit of a mask, a factor at a point, and the test for two
// masks of one product. What the words mean is in specs/, the laws about them in proofs/. Read next: specs/Lowest.antt.
#![tactic(auto)]

ghost use Rattle.std.specs.Prelude.{◌≡◌, ◌<◌};
ghost use Rattle.product.specs.Lowest.{lowest};
ghost use Rattle.product.specs.Product.{factor, factor_at, apart_masks};

// The place of the lowest set bit of a mask that is not 0, by its count of trailing zeros.
pub fn lowest(mask: u16) -> u32
    requires { 0 < mask }
    ensures { result ≡ lowest mask }
{
    mask.trailing_zeros()
}

// Whether a factor is true at a point: the number of mask bits set in it is odd for constant 1, even for constant 0. The constant is a number and no `bool`,
// since that of a record can be any byte.
pub fn factor_at(constant: u8, mask: u16, point: u16) -> bool
    ensures { result ≡ factor_at (factor constant mask) point }
{
    gf2::parity(mask, point) == (constant == 1)
}

// Whether factors of two masks may stand in a canonical product, the first before the second: their lowest bits fall, and that of the first is
// not set in the second. That of the second is then below every bit of the first.
pub fn apart(first: u16, second: u16) -> bool
    requires { (0 < first) × (0 < second) }
    ensures { result ≡ apart_masks first second }
{
    let high = lowest(first);
    let low = lowest(second);
    low < high && !gf2::bit(high, second)
}
