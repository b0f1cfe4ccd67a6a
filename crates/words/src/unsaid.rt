// Why words do not say what is read from them.
ghost use Rattle.std.specs.Prelude.{◌≡◌};

use std::alloc::{AllocError, AllocFailed};

#[derive(Debug, Drop)]
pub enum Unsaid {
    // They say nothing of the kind.
    Nothing,
    // There is no memory left for what they say.
    NoMemory(AllocError),
}

ghost use Rattle.words.specs.declared.unsaid.Unsaid.{Unsaid};
ghost use Rattle.words.specs.Said.{IsNoMemory};

impl From<AllocError> for Unsaid {
    ghost from_gives = { λ e r. r ≡ Unsaid.NoMemory e };

    fn from(fault: AllocError) -> Unsaid
        ensures { result ≡ Unsaid.NoMemory fault }
    {
        Unsaid::NoMemory(fault)
    }
}

impl<T: Drop> From<AllocFailed<T>> for Unsaid {
    ghost from_gives = { λ _ r. IsNoMemory r };

    fn from(fault: AllocFailed<T>) -> Unsaid {
        Unsaid::NoMemory(fault.into())
    }
}
