// Why a call is refused, and the number that its caller is told.
ghost use Rattle.std.specs.Prelude.{◌≡◌};
ghost use Rattle.export.specs.declared.refusal.Refusal.TheVariants as refusals;
ghost use Rattle.export.specs.Refusals.{refusal_number, told};

use ingest::JaggedIngestError;
use layout::JaggedLayoutError;
use selector::JaggedError;

// A fault of the layer that refuses.
#[derive(Clone, Copy, Debug, PartialEq, Eq)]
pub(crate) enum Refusal {
    Layout(JaggedLayoutError),
    Ingest(JaggedIngestError),
    Selector(JaggedError),
}

impl Refusal {
    // The number that the fault goes by.
    pub(crate) fn number(&self) -> u8
        ensures { result ≡ refusal_number self.now }
    {
        match self {
            Refusal::Layout(fault) => fault.number(),
            Refusal::Ingest(fault) => fault.number(),
            Refusal::Selector(fault) => fault.number(),
        }
    }
}

impl From<JaggedLayoutError> for Refusal {
    ghost from_gives = { λ e r. r ≡ refusals.Layout e };

    fn from(fault: JaggedLayoutError) -> Refusal {
        Refusal::Layout(fault)
    }
}

impl From<JaggedIngestError> for Refusal {
    ghost from_gives = { λ e r. r ≡ refusals.Ingest e };

    fn from(fault: JaggedIngestError) -> Refusal {
        Refusal::Ingest(fault)
    }
}

impl From<JaggedError> for Refusal {
    ghost from_gives = { λ e r. r ≡ refusals.Selector e };

    fn from(fault: JaggedError) -> Refusal {
        Refusal::Selector(fault)
    }
}

// The C interface tells a refusal as a number, and 0 where there is none.
pub(crate) fn told(outcome: Result<(), Refusal>) -> u8
    ensures { result ≡ told outcome }
{
    match outcome {
        Ok(()) => 0,
        Err(refusal) => refusal.number(),
    }
}
