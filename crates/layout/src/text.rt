// A layout in words: what it tells of itself, each number after its name.
ghost use Rattle.std.specs.Prelude.{Some};
ghost use Rattle.layout.specs.Layout.{shape};
ghost use Rattle.layout.specs.Texts.{commas, layout_text, size_fields, variable_fields};

use crate::geometry::JaggedLayout;
use std::fmt;

impl fmt::Display for JaggedLayout {
    ghost output = { λ l. Some (layout_text (shape l)) };

    fn fmt<W: fmt::Write>(&self, f: &mut fmt::Formatter<W>) -> fmt::Result {
        let variables = Variables(self);
        let sizes = Sizes(self);
        let heights = Commas(self.cumulative_heights());
        write!(f, "{variables} {sizes} cumulative_heights={heights}")
    }
}

// The variables of a layout.
#[derive(Drop)]
struct Variables<'a>(&'a JaggedLayout);

impl<'a> fmt::Display for Variables<'a> {
    ghost output = { λ x. Some (variable_fields (shape x.0.now)) };

    fn fmt<W: fmt::Write>(&self, f: &mut fmt::Formatter<W>) -> fmt::Result {
        let rows = self.0.row_variables();
        let columns = self.0.column_variables();
        let dense = self.0.dense_variables();
        write!(
            f,
            "row_variables={rows} column_variables={columns} dense_variables={dense}"
        )
    }
}

// The counts of a layout.
#[derive(Drop)]
struct Sizes<'a>(&'a JaggedLayout);

impl<'a> fmt::Display for Sizes<'a> {
    ghost output = { λ x. Some (size_fields (shape x.0.now)) };

    fn fmt<W: fmt::Write>(&self, f: &mut fmt::Formatter<W>) -> fmt::Result {
        let columns = self.0.num_columns();
        let area = self.0.area();
        let capacity = self.0.dense_capacity();
        write!(
            f,
            "num_columns={columns} area={area} dense_capacity={capacity}"
        )
    }
}

// Numbers in decimal, with commas between them.
#[derive(Drop)]
struct Commas<'a>(&'a [usize]);

impl<'a> fmt::Display for Commas<'a> {
    ghost output = { λ x. Some (commas x.0.now) };

    fn fmt<W: fmt::Write>(&self, f: &mut fmt::Formatter<W>) -> fmt::Result {
        let [first, rest @ ..] = self.0 else {
            return Ok(());
        };
        write!(f, "{first}")?;
        for number in rest {
            write!(f, ",{number}")?;
        }
        Ok(())
    }
}
