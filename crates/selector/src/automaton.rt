// The width-four automaton: it adds a column's start to a row bit by bit from the lowest, and compares the sum with the column's end.
//
//   layer:    0     1     2    ..   d
//   row:      r_0   r_1   r_2       coordinates of the row point, zero above them
//   dense:    z_0   z_1   z_2       coordinates of the dense point, zero above them
//   start:    s_0   s_1   s_2       bits
//   end:      e_0   e_1   e_2       bits
//
//   index bit t = row bit + s + carry, its lowest bit; what is over is carried on
//   less is kept where t = e, and else becomes e
//   first state: no carry, not less; accepted: no carry, less
ghost use Rattle.std.specs.Prelude.{◌≡◌, true, false, not, ◌&&◌, map, if◌then◌else◌};
ghost use Rattle.selector.specs.Automaton.{coordinate, less_out, stepped};
ghost use Rattle.selector.specs.Layers.{Products, compared_at, state_at};

use ring::Ring;

// The products of a layer's row and dense coordinate, each taken as itself or as one minus itself.
#[derive(Clone, Copy)]
pub(crate) struct Layer<R> {
    pub(crate) neither: R,
    pub(crate) row_alone: R,
    pub(crate) dense_alone: R,
    pub(crate) both: R,
}

// Weights where the index is not below the end so far, and where it is.
#[derive(Clone, Copy)]
pub(crate) struct Compared<R> {
    pub(crate) level: R,
    pub(crate) below: R,
}

// Weights of the four states: without a carry and with one.
#[derive(Clone, Copy)]
pub(crate) struct States<R> {
    pub(crate) plain: Compared<R>,
    pub(crate) carried: Compared<R>,
}

// The coordinate that goes with a layer, counted from the last one; zero above the point.
pub(crate) fn coordinate_at<R: Ring>(point: &[R], layer: usize) -> R
    ensures { R.Ring.value result ≡ coordinate R.Ring.ops (map R.Ring.value point.now) layer }
{
    if layer < point.len() {
        point[point.len() - 1 - layer]
    } else {
        R::zero()
    }
}

// The four products by one multiplication.
pub(crate) fn layer_of<R: Ring>(row: R, dense: R) -> Layer<R>
    ensures { Products R.Ring.ops R.Ring.value (R.Ring.value row) (R.Ring.value dense) result }
{
    let both = row.times(dense);
    let dense_alone = dense.minus(both);
    Layer {
        neither: R::one().minus(row).minus(dense_alone),
        row_alone: row.minus(both),
        dense_alone,
        both,
    }
}

// The states above every layer that is read: a weight where there is no carry and the index is below the end, else zero.
pub(crate) fn accepting<R: Ring>(weight: R) -> States<R>
    ensures { (carry less : _) → state_at R.Ring.ops R.Ring.value result carry less ≡ (if not carry && less then R.Ring.value weight else R.Ring.ops.nought) }
{
    States {
        plain: Compared {
            level: R::zero(),
            below: weight,
        },
        carried: Compared {
            level: R::zero(),
            below: R::zero(),
        },
    }
}

// What an index bit leads to: the weights above, and the product of the coordinates that they are taken with.
#[derive(Clone, Copy)]
struct Branch<'a, R> {
    product: R,
    above: &'a Compared<R>,
}

impl<R: Ring> Compared<R> {
    // These weights, to be taken with a product.
    fn by(&self, product: R) -> Branch<'_, R>
        ensures product { result.product ≡ product }
        ensures above { result.above.now ≡ self.now }
    {
        Branch {
            product,
            above: self,
        }
    }
}

impl<R: Ring> Branch<'_, R> {
    // The weight where the index is not below the end further up.
    fn level(&self) -> R
        ensures { R.Ring.value result ≡ R.Ring.ops.times (R.Ring.value self.now.product) (R.Ring.value self.now.above.now.level) }
    {
        self.product.times(self.above.level)
    }

    // The weight where it is.
    fn below(&self) -> R
        ensures { R.Ring.value result ≡ R.Ring.ops.times (R.Ring.value self.now.product) (R.Ring.value self.now.above.now.below) }
    {
        self.product.times(self.above.below)
    }
}

// The comparison's weights from those above, where the index bit is 0 and where it is 1.
fn blend<R: Ring>(end: bool, zero: Branch<'_, R>, one: Branch<'_, R>) -> Compared<R>
    ensures { (less : _) → compared_at R.Ring.ops R.Ring.value result less ≡ R.Ring.ops.plus (R.Ring.ops.times (R.Ring.value zero.entry.product) (compared_at R.Ring.ops R.Ring.value zero.entry.above.now (less_out false end less))) (R.Ring.ops.times (R.Ring.value one.entry.product) (compared_at R.Ring.ops R.Ring.value one.entry.above.now (less_out true end less))) }
{
    if end {
        let below = zero.below();
        Compared {
            level: below.plus(one.level()),
            below: below.plus(one.below()),
        }
    } else {
        let level = one.level();
        Compared {
            level: zero.level().plus(level),
            below: zero.below().plus(level),
        }
    }
}

// The states of a layer from those of the layer above, by six multiplications.
pub(crate) fn step<R: Ring>(
    layer: &Layer<R>,
    start: bool,
    end: bool,
    above: &States<R>,
) -> States<R>
    ensures { (row dense : R.Ring.ops.Value) → Products R.Ring.ops R.Ring.value row dense layer.now → (carry less : _) → state_at R.Ring.ops R.Ring.value result carry less ≡ stepped R.Ring.ops row dense start end (state_at R.Ring.ops R.Ring.value above.now) carry less }
{
    // row bit and index bit differ exactly where one unit is added to the row's
    let one = blend(
        end,
        above.carried.by(layer.row_alone),
        above.plain.by(layer.dense_alone),
    );
    if start {
        let carried = &above.carried;
        States {
            plain: one,
            carried: blend(end, carried.by(layer.neither), carried.by(layer.both)),
        }
    } else {
        let plain = &above.plain;
        States {
            plain: blend(end, plain.by(layer.neither), plain.by(layer.both)),
            carried: one,
        }
    }
}
