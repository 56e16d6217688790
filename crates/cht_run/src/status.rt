ghost use Rattle.std.specs.Prelude.{◌≡◌};
ghost use Rattle.cht_run.specs.Number.{number_of_status};

use cht_script::Fault;

/// How a run ended.
#[derive(Clone, Copy, Debug, PartialEq, Eq)]
pub enum Status {
    /// All of the script was done, and all of its text written.
    Done,
    /// The words are no command. Nothing was read.
    Usage,
    /// The script has this fault.
    Refused(Fault),
    /// The source failed.
    ReadFault,
    /// The sink failed, after a front of the text.
    WriteFault,
    /// Memory ran out, perhaps after a front of the text.
    Memory,
}

impl Status {
    /// The number that the program ends with: 0 to 5, in the order of the variants.
    pub fn number(&self) -> u8
        ensures { result ≡ number_of_status self.now }
    {
        match self {
            Status::Done => 0,
            Status::Usage => 1,
            Status::Refused(_) => 2,
            Status::ReadFault => 3,
            Status::WriteFault => 4,
            Status::Memory => 5,
        }
    }
}
