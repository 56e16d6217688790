use cht_ids::Memory;
use cht_io::Failed;

/// Why the text of a matrix was not written to its end.
#[derive(Clone, Copy, Debug, PartialEq, Eq)]
pub enum Unprinted {
    /// The sink failed.
    WriteFault,
    /// Memory ran out.
    Memory,
}

impl From<Memory> for Unprinted {
    ghost use Rattle.std.specs.Prelude.{◌≡◌};
    ghost use Rattle.tree_entries.specs.declared.unprinted.Unprinted.TheVariants.{Memory as OutOfMemory};

    ghost from_gives = { λ _ unprinted. unprinted ≡ OutOfMemory };

    fn from(_: Memory) -> Unprinted {
        Unprinted::Memory
    }
}

impl From<Failed> for Unprinted {
    ghost use Rattle.std.specs.Prelude.{◌≡◌};
    ghost use Rattle.tree_entries.specs.declared.unprinted.Unprinted.TheVariants.{WriteFault};

    ghost from_gives = { λ _ unprinted. unprinted ≡ WriteFault };

    fn from(_: Failed) -> Unprinted {
        Unprinted::WriteFault
    }
}
