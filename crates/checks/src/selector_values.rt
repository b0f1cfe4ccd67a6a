// Worked values at each ring kind, the known traps, and each refusal.
ghost use Rattle.std.specs.Prelude.{◌*◌, ◌^◌, ◌<◌};
ghost use Rattle.std.specs.Mem.{type_size};

use crate::laid::laid;
use layout::JaggedLayout;
use ring::{Pair, Residue, Ring, Word};
use selector::{JaggedError, JaggedPoint, equality_prefix, evaluate, table};
use std::test::Fail;

// One added so many times.
fn number<R: Ring>(n: u32) -> R {
    (0..n).fold(R::zero(), |sum, _| sum.plus(R::one()))
}

fn minus<R: Ring>(n: u32) -> R {
    R::zero().minus(number(n))
}

// Heights 2 and 1 with one row variable, at row (3) and column (5), then at the dense point (7, 2): whether all is as worked.
fn worked<R: Ring + PartialEq>() -> Result<bool, Fail>
    requires { 5 * type_size R.row < 2 ^ 63 }
{
    let layout = laid(1, &[2, 1])?;
    let row: [R; 1] = [number(3)];
    let column: [R; 1] = [number(5)];
    let point = JaggedPoint::new(&row, &column);
    let mut cells: [R; 5] = [number(9); 5];
    table(&layout, &point, &mut cells)?;
    let written: [R; 5] = [number(8), minus(12), minus(10), number(0), number(9)];
    let dense: [R; 2] = [number(7), number(2)];
    let value = evaluate(&layout, &point, &dense)?;
    Ok(cells == written && value == number(262))
}

// A corner of the cube selects one cell: whether it is the last row of a column that ends at the capacity.
fn corner<R: Ring + PartialEq>() -> Result<bool, Fail>
    requires { 2 * type_size R.row < 2 ^ 63 }
{
    let layout = laid(2, &[1, 3])?;
    let row: [R; 2] = [number(1), number(0)];
    let column: [R; 1] = [number(1)];
    let dense: [R; 2] = [number(1), number(1)];
    let value = evaluate(&layout, &JaggedPoint::new(&row, &column), &dense)?;
    Ok(value == number(1))
}

#[test]
fn residues(rt: HostRuntime) -> Result<(), Fail> {
    assert!(rt; worked::<Residue>()?);
    assert!(rt; corner::<Residue>()?);
    Ok(())
}

#[test]
fn words(rt: HostRuntime) -> Result<(), Fail> {
    assert!(rt; worked::<Word>()?);
    assert!(rt; corner::<Word>()?);
    Ok(())
}

#[test]
fn pairs(rt: HostRuntime) -> Result<(), Fail> {
    assert!(rt; worked::<Pair<Residue>>()?);
    assert!(rt; corner::<Pair<Residue>>()?);
    Ok(())
}

#[test]
fn pairs_of_pairs(rt: HostRuntime) -> Result<(), Fail> {
    assert!(rt; worked::<Pair<Pair<Word>>>()?);
    assert!(rt; corner::<Pair<Pair<Word>>>()?);
    Ok(())
}

// One empty column and no variables at all.
#[test]
fn nothing(rt: HostRuntime) -> Result<(), Fail> {
    let layout = JaggedLayout::empty();
    let mut cells: [Residue; 1] = [Residue::one()];
    let none = JaggedPoint::new(&cells[0..0], &cells[0..0]);
    assert!(rt; evaluate(&layout, &none, &cells[0..0])? == Residue::zero());
    let empty: [Residue; 0] = [];
    table(&layout, &JaggedPoint::new(&empty, &empty), &mut cells)?;
    assert!(rt; cells[0] == Residue::zero());
    Ok(())
}

#[test]
fn refusals(rt: HostRuntime) -> Result<(), Fail> {
    let layout = laid(1, &[2, 1])?;
    let one: [Residue; 2] = [Residue::one(); 2];
    let mut cells: [Residue; 3] = [Residue::new(6); 3];
    let wide = JaggedPoint::new(&one, &one[0..1]);
    let wrong = JaggedError::RowPointWidthMismatch {
        expected: 1,
        actual: 2,
    };
    assert_eq!(rt; table(&layout, &wide, &mut cells), Err(wrong));
    assert_eq!(rt; wrong.number(), 24);
    let narrow = JaggedPoint::new(&one[0..1], &one[0..0]);
    let wrong = JaggedError::ColumnPointWidthMismatch {
        expected: 1,
        actual: 0,
    };
    assert_eq!(rt; evaluate(&layout, &narrow, &one), Err(wrong));
    let point = JaggedPoint::new(&one[0..1], &one[0..1]);
    let wrong = JaggedError::DensePointWidthMismatch {
        expected: 2,
        actual: 1,
    };
    assert_eq!(rt; evaluate(&layout, &point, &one[0..1]), Err(wrong));
    let wrong = JaggedError::BufferTooShort {
        required: 4,
        available: 3,
    };
    assert_eq!(rt; table(&layout, &point, &mut cells), Err(wrong));
    assert!(rt; cells[0] == Residue::new(6) && cells[2] == Residue::new(6));
    Ok(())
}

#[test]
fn weights(rt: HostRuntime) {
    let point: [Word; 3] = [number(2), number(3), number(5)];
    let mut cells: [Word; 10] = [number(7); 10];
    assert_eq!(rt; equality_prefix(&point, &mut cells), 8);
    assert!(rt; cells[0] == minus(8) && cells[1] == number(10) && cells[5] == minus(20));
    assert!(rt; cells[7] == number(30) && cells[8] == number(7));
    assert_eq!(rt; equality_prefix(&point, &mut cells[0..0]), 0);
    assert_eq!(rt; equality_prefix(&point, &mut cells[7..10]), 3);
    assert!(rt; cells[7] == minus(8) && cells[9] == number(12));
}

// Coordinates beyond 64 leave one shared factor.
#[test]
fn long_points(rt: HostRuntime) {
    let long: [Word; 70] = [number(2); 70];
    let mut cells: [Word; 2] = [number(7); 2];
    assert_eq!(rt; equality_prefix(&long, &mut cells), 2);
    assert!(rt; cells[0] == number(1) && cells[1] == minus(2));
    assert_eq!(rt; equality_prefix(&long[0..0], &mut cells), 1);
    assert!(rt; cells[0] == number(1) && cells[1] == minus(2));
}
