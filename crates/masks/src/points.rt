// Sets of points of at most six variables as masks: bit x of a mask stands for point x. All cosets of a space are tested at once.
ghost use Rattle.std.specs.Prelude.{◌≡◌, false};
ghost use Rattle.table.specs.Table.{outside};
ghost use Rattle.cubes.specs.Records.{max_listed};
ghost use Rattle.bases.specs.Bases.{vectors_of};
ghost use Rattle.masks.specs.Points.{MaskOf, Fitting, EveryPoint};

// The mask of a list of points.
pub fn mask_of(points: &[u16]) -> u64
    requires { outside max_listed points.now ≡ false }
    ensures { MaskOf points.now result }
{
    let mut mask = 0;
    for &point in points {
        mask |= 1 << table::flag_place(point);
    }
    mask
}

// The points whose coset of the space of an entry of d vectors lies in the mask.
pub fn every_point(mask: u64, entry: u64, d: usize) -> u64
    requires { Fitting (vectors_of d entry) }
    ensures { EveryPoint (vectors_of d entry) mask result }
{
    let mut every = mask;
    let mut rest = entry;
    for _ in 0..d {
        every &= moves::moved(every, rest % 256);
        rest /= 256;
    }
    every
}
