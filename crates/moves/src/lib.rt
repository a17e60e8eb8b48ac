// A mask, the bits of one word, with each place x moved to x XOR v: each bit of v exchanges blocks of places. What that means is said in specs/, the
// laws about it in proofs/. Read next: specs/Moves.antt.
#![tactic(auto)]

ghost use Rattle.std.specs.Prelude.{◌^◌, ◌<◌};
ghost use Rattle.moves.specs.Moves.{mask_size, Moved, EachMoved};

// The places whose number has bit k clear, as `low_places`.
static LOW_PLACES: [u64; 6] = [
    0x5555555555555555,
    0x3333333333333333,
    0x0F0F0F0F0F0F0F0F,
    0x00FF00FF00FF00FF,
    0x0000FFFF0000FFFF,
    0x00000000FFFFFFFF,
];

// The mask with each place x moved to x XOR 2^k: blocks of 2^k places are exchanged.
fn exchange(mask: u64, k: usize) -> u64
    requires { k < 6 }
    ensures { Moved (2 ^ k) mask result }
{
    let width: u64 = 1 << k;
    let low = LOW_PLACES[k];
    ((mask >> width) & low) | ((mask & low) << width)
}

// Each of the masks with its blocks of 2^k places exchanged.
fn exchange_each(masks: &mut [u64], k: usize)
    requires { k < 6 }
    ensures { EachMoved (2 ^ k) masks.old masks.new }
{
    for mask in masks {
        *mask = exchange(*mask, k);
    }
}

// Masks with each place x moved to x XOR v: for each bit of v one test, and then all of them.
pub fn each_moved<const N: usize>(masks: [u64; N], v: u64) -> [u64; N]
    requires { v < mask_size }
    ensures { EachMoved v masks.entry result }
{
    let mut turned = masks;
    for k in 0..6 {
        if (v >> k) % 2 == 1 {
            exchange_each(&mut turned, k);
        }
    }
    turned
}

// The mask with each place x moved to x XOR v.
pub fn moved(mask: u64, v: u64) -> u64
    requires { v < mask_size }
    ensures { Moved v mask result }
{
    let [turned] = each_moved([mask], v);
    turned
}
