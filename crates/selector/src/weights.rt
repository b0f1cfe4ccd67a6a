// The weights of a point: how much it gives to each number below 2^w.
ghost use Rattle.std.specs.Prelude.{◌≡◌, ℕ, ◌*◌, ◌/◌, ◌^◌, ◌<◌, ◌≤◌, map, length, drop, slice_index_or};
ghost use Rattle.selector.specs.Prefix.{weight_count, Weighs, Spread};
ghost use Rattle.selector.specs.Weights.{bit, factor, eq};

use ring::Ring;

// Writes the first weights of a point, as many as the buffer has room for, and tells how many.
pub fn equality_prefix<R: Ring>(point: &[R], buffer: &mut [R]) -> usize
    ensures count { result ≡ weight_count (length point.now) (length buffer.old) }
    ensures weights { (i : ℕ) → i < result → slice_index_or (map R.Ring.value buffer.new) i R.Ring.ops.nought ≡ eq R.Ring.ops (map R.Ring.value point.now) i }
    ensures kept { drop result buffer.new ≡ drop result buffer.old }
{
    weigh(R::one(), point, buffer)
}

// The same weights, each by a scale.
pub(crate) fn weigh<R: Ring>(scale: R, point: &[R], buffer: &mut [R]) -> usize
    ensures count { result ≡ weight_count (length point.now) (length buffer.old) }
    ensures weights { Weighs R.Ring.ops (R.Ring.value scale) (map R.Ring.value point.now) result (map R.Ring.value buffer.new) }
    ensures kept { drop result buffer.new ≡ drop result buffer.old }
{
    let count = weight_count(point.len(), buffer.len());
    if count == 0 {
        return 0;
    }
    buffer[0] = scale;
    // the numbers that are written differ in their lowest bits alone; the coordinates above those multiply the first cell
    let width = point.len();
    for (k, x) in point.iter().enumerate() {
        spread(*x, shifted(count - 1, width - 1 - k) + 1, buffer);
    }
    count
}

// The weight of one number.
pub(crate) fn weight_at<R: Ring>(point: &[R], index: usize) -> R
    requires narrow { length point.now ≤ 64 }
    requires within { index < 2 ^ length point.now }
    ensures { R.Ring.value result ≡ eq R.Ring.ops (map R.Ring.value point.now) index }
{
    let mut product = R::one();
    for (layer, x) in point.iter().rev().enumerate() {
        product = product.times(factor_of(bit_at(index, layer), *x));
    }
    product
}

// What a coordinate gives to a bit.
fn factor_of<R: Ring>(set: bool, x: R) -> R
    ensures { R.Ring.value result ≡ factor R.Ring.ops set (R.Ring.value x) }
{
    if set { x } else { R::one().minus(x) }
}

// Bit `layer` of a number.
pub(crate) fn bit_at(number: usize, layer: usize) -> bool
    requires { layer < 64 }
    ensures { result ≡ bit layer number }
{
    (number >> layer) & 1 == 1
}

// How many weights a point of so many coordinates gives to a buffer of so many cells.
fn weight_count(width: usize, cells: usize) -> usize
    ensures { result ≡ weight_count width cells }
{
    if width < 64 {
        cells.min(1 << width)
    } else {
        cells
    }
}

// What is left of a number above its lowest bits, which may be more than checked_shr has a number for.
fn shifted(number: usize, bits: usize) -> usize
    ensures { result ≡ number / 2 ^ bits }
{
    if bits < 64 { number >> bits } else { 0 }
}

// One coordinate more: cell i becomes cells 2i and 2i + 1, as far as they are wanted.
fn spread<R: Ring>(x: R, wanted: usize, buffer: &mut [R])
    requires { wanted ≤ length buffer.old }
    ensures cells { Spread R.Ring.ops (R.Ring.value x) 0 wanted (map R.Ring.value buffer.old) (map R.Ring.value buffer.new) }
    ensures kept { drop wanted buffer.new ≡ drop wanted buffer.old }
{
    let half = wanted / 2;
    if wanted % 2 == 1 {
        let last = buffer[half];
        buffer[2 * half] = last.minus(last.times(x));
    }
    spread_pairs(x, half, buffer);
}

// Cells 2i and 2i + 1 from cell i, from the last pair down, so that no cell is written before it is read.
fn spread_pairs<R: Ring>(x: R, half: usize, buffer: &mut [R])
    requires { 2 * half ≤ length buffer.old }
    ensures cells { Spread R.Ring.ops (R.Ring.value x) 0 (2 * half) (map R.Ring.value buffer.old) (map R.Ring.value buffer.new) }
    ensures kept { drop (2 * half) buffer.new ≡ drop (2 * half) buffer.old }
{
    // a pair's cells and the cell that it comes from lie in one buffer at places that move apart, so that no iterator lends all three
    for i in (0..half).rev() {
        let old = buffer[i];
        let upper = old.times(x);
        buffer[2 * i] = old.minus(upper);
        buffer[2 * i + 1] = upper;
    }
}
