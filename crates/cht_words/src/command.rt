/// What the words of the command line ask for.
#[derive(Clone, Copy, Debug, PartialEq, Eq)]
pub enum Command {
    /// Runs the script that the source gives, on threads.
    Run {
        /// How many workers, from 1 to 64.
        workers: u32,
        /// How many bodies the cache of a worker may hold, from 0 to 65,536.
        cache: u32,
    },
    /// Runs the script that the source gives, on one thread.
    Plain,
    /// Runs a generated script, on threads.
    Load {
        /// The number that the script is drawn from.
        number: u64,
        /// How many rows and columns its matrices have, from 1 to 4096.
        size: u32,
        /// How many entries a row has, from 1 to 64 and at most `size`.
        fill: u32,
        /// How many workers, from 1 to 64.
        workers: u32,
    },
    /// As `Run`, and then writes the journal of the run.
    Journal {
        /// How many workers, from 1 to 64.
        workers: u32,
        /// How many bodies the cache of a worker may hold, from 0 to 65,536.
        cache: u32,
    },
}

/// The words are no command.
#[derive(Clone, Copy, Debug, PartialEq, Eq)]
pub struct Usage;
