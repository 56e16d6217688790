use cht_script::Fault;

/// How the run of a script ended.
#[derive(Clone, Copy, Debug, PartialEq, Eq)]
pub enum Ended {
    /// All of the script was done, and all of its text written.
    Done,
    /// A statement was refused, since its result might be too great: the fault has its line, and code 19.
    Refused(Fault),
    /// The sink failed, after a front of the text.
    WriteFault,
    /// Memory ran out, perhaps after a front of the text.
    Memory,
}
