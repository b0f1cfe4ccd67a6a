// Why a line is not told by `ok` and the fields of an accepted call.
ghost use Rattle.std.specs.Prelude.{◌≡◌};
ghost use Rattle.words.specs.declared.unsaid.Unsaid.TheVariants.{NoMemory};

use ingest::JaggedIngestError;
use std::alloc::AllocError;
use words::Unsaid;

#[derive(Debug, Drop)]
pub(crate) enum Refusal {
    // Its words say no call, or there is no memory left.
    Unsaid(Unsaid),
    // The call is refused.
    Fault(JaggedIngestError),
}

ghost use Rattle.script_sources.specs.declared.refusal.Refusal.{Refusal};

impl From<Unsaid> for Refusal {
    ghost from_gives = { λ e r. r ≡ Refusal.Unsaid e };

    fn from(unsaid: Unsaid) -> Refusal {
        Refusal::Unsaid(unsaid)
    }
}

impl From<AllocError> for Refusal {
    ghost from_gives = { λ e r. r ≡ Refusal.Unsaid (NoMemory e) };

    fn from(fault: AllocError) -> Refusal {
        Refusal::Unsaid(Unsaid::NoMemory(fault))
    }
}

impl From<JaggedIngestError> for Refusal {
    ghost from_gives = { λ e r. r ≡ Refusal.Fault e };

    fn from(fault: JaggedIngestError) -> Refusal {
        Refusal::Fault(fault)
    }
}
