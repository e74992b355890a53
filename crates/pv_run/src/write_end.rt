// Why not all was written that was to be.
ghost use Rattle.std.specs.Prelude.{◌≡◌};

use pv_base::{Failed, NoMemory};

/// Why not all was written that was to be. What was written is a beginning of it.
#[derive(Clone, Copy, Debug, PartialEq, Eq)]
pub enum WriteEnd {
    /// The output failed.
    WriteFault,
    /// There was no memory.
    NoMemory,
}

impl From<Failed> for WriteEnd {
    ghost use Rattle.pv_run.specs.declared.write_end.WriteEnd.TheVariants.{WriteFault};

    ghost from_gives = { λ _ e. e ≡ WriteFault };

    fn from(_: Failed) -> Self {
        WriteEnd::WriteFault
    }
}

impl From<NoMemory> for WriteEnd {
    ghost use Rattle.pv_run.specs.declared.write_end.WriteEnd.TheVariants as end;

    ghost from_gives = { λ _ e. e ≡ end.NoMemory };

    fn from(_: NoMemory) -> Self {
        WriteEnd::NoMemory
    }
}
