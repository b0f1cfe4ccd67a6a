// Texts with commas between them.
ghost use Rattle.script.specs.Records.{separated_outputs};

use std::fmt;

// Some items, to be printed with commas between them.
// The layout prints its boundaries so too: a public type for lists of anything is no part of what it offers.
#[derive(Drop)]
pub(crate) struct Separated<'a, T>(pub(crate) &'a [T]);

impl<'a, T: fmt::Display> fmt::Display for Separated<'a, T> {
    ghost output = { λ s. separated_outputs T.Display.output s.0.now };

    fn fmt<W: fmt::Write>(&self, f: &mut fmt::Formatter<W>) -> fmt::Result {
        let [first, rest @ ..] = self.0 else {
            return Ok(());
        };
        write!(f, "{first}")?;
        for item in rest {
            write!(f, ",{item}")?;
        }
        Ok(())
    }
}
