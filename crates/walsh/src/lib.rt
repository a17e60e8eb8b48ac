// The add-and-subtract transform of whole numbers, one to a point of n variables, in place (document 02, No. 7). What the words mean is in specs/, the
// laws about them in proofs/. Read next: specs/Sums.antt.
#![tactic(auto)]

ghost use Rattle.std.specs.Prelude.{◌≡◌, ◌+◌, ◌*◌, length};
ghost use Rattle.walsh.specs.Numbers.{Summable, pair_crossed, four_crossed, PairCrossable, FourCrossable, Halved, Quartered, Blocks, Passed, Transformable, Transformed, InBlocks};

// The numbers at place u and half a list behind it, crossed: their sum and their difference.
fn cross_pair(numbers: &mut [i64], u: usize, half: usize)
    requires { PairCrossable numbers.old u half }
    ensures { numbers.new ≡ pair_crossed numbers.old u half }
{
    let v = u + half;
    let a = numbers[u];
    let b = numbers[v];
    numbers[u] = a + b;
    numbers[v] = a - b;
}

// One pass: all numbers of a list of two halves crossed.
fn cross_halves(numbers: &mut [i64], half: usize)
    requires numbers_len { length numbers.old ≡ half + half }
    requires summable { Summable 2 numbers.old }
    ensures { Halved half numbers.old numbers.new }
{
    for u in 0..half {
        cross_pair(&mut *numbers, u, half);
    }
}

// The four numbers from place u on, a quarter of the list apart, crossed: two passes at once, so that each number is read and written once for both.
fn cross_four(numbers: &mut [i64], u: usize, quarter: usize)
    requires { FourCrossable numbers.old u quarter }
    ensures { numbers.new ≡ four_crossed numbers.old u quarter }
{
    let v = u + quarter;
    let w = v + quarter;
    let x = w + quarter;
    let a = numbers[u];
    let b = numbers[v];
    let c = numbers[w];
    let d = numbers[x];
    let even_sum = a + c;
    let odd_sum = b + d;
    let even_difference = a - c;
    let odd_difference = b - d;
    numbers[u] = even_sum + odd_sum;
    numbers[v] = even_sum - odd_sum;
    numbers[w] = even_difference + odd_difference;
    numbers[x] = even_difference - odd_difference;
}

// All numbers of a list of four quarters crossed.
fn cross_quarters(numbers: &mut [i64], quarter: usize)
    requires numbers_len { length numbers.old ≡ 4 * quarter }
    requires summable { Summable 4 numbers.old }
    ensures { Quartered quarter numbers.old numbers.new }
{
    for u in 0..quarter {
        cross_four(&mut *numbers, u, quarter);
    }
}

// Two passes: all numbers of each block of four quarters crossed.
fn pass(numbers: &mut [i64], quarter: usize)
    requires { Blocks quarter numbers.old }
    ensures { Passed quarter numbers.old numbers.new }
{
    let block = 4 * quarter;
    for start in (0..numbers.len()).step_by(block) {
        cross_quarters(&mut numbers[start..start + block], quarter);
    }
}

// One pass where the number of variables is odd, so that two at a time can follow; hands back the size of the blocks that are left.
fn first_pass(numbers: &mut [i64], n: usize) -> usize
    requires { Transformable n numbers.old }
    ensures { InBlocks n numbers.old result numbers.new }
{
    let size = numbers.len();
    if n % 2 == 0 {
        return size;
    }
    let half = size / 2;
    cross_halves(&mut *numbers, half);
    half
}

// The transform of the numbers of n variables, in place. No range of a `for` gives the block sizes, each a quarter of the one before.
pub fn transform(numbers: &mut [i64], n: usize)
    requires { Transformable n numbers.old }
    ensures { Transformed n numbers.old numbers.new }
{
    let mut block = first_pass(&mut *numbers, n);
    while block > 1 {
        block /= 4;
        pass(&mut *numbers, block);
    }
}
