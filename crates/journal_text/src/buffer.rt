ghost use Rattle.std.specs.Prelude.{◌≡◌, ◌+◌, ◌≤◌, ℕ, List, [], ◌++◌, length, OnOk, OnErr};
ghost use Rattle.cht_io.specs.Bytes.{Adds, AddsFront};
ghost use Rattle.cht_io.specs.Faults.{Rose};

use cht_io::{Failed, Sink, write_all};
use std::marker::Model;

/// How many bytes are held at most.
pub(crate) const SIZE: usize = 8192;

/// The room for a line of words that are no references: at most a verb, a kind and four places.
pub(crate) const LINE: usize = 512;

/// Text on its way to a sink, held until there are several KiB of it.
#[derive(Drop)]
pub(crate) struct Held {
    bytes: [u8; SIZE],
    len: usize,
}

impl Model for Held {
    ghost use Rattle.std.specs.Prelude.{List, ℕ, take, ◌≤◌};

    ghost Value = { List ℕ };

    ghost view = { λ held. take held.len held.bytes };

    ghost invariant = { λ held. held.len ≤ 8192 };
}

impl Held {
    /// No text.
    pub(crate) fn new() -> Held
        ensures { result ≡ [] }
    {
        Held {
            bytes: [0; SIZE],
            len: 0,
        }
    }

    /// Adds text for which there is room.
    #[inline]
    pub(crate) fn push(&mut self, text: &[u8])
        requires { length self.old + length text.now ≤ SIZE }
        ensures { self.new ≡ self.old ++ text.now }
    {
        let end = self.len + text.len();
        self.bytes[self.len..end].copy_from_slice(text);
        self.len = end;
    }

    /// Makes room for a line: where there is none, hands the sink all that is held.
    #[inline]
    pub(crate) fn make_room<S: Sink>(&mut self, sink: &mut S) -> Result<(), Failed>
        ensures room { OnOk result (length self.new + LINE ≤ SIZE) }
        // The sink took a front of what was held, and the rest is held still.
        ensures whole { OnOk result ((front : List ℕ) × (front ++ self.new ≡ self.old) × Adds (S.took sink.old) front (S.took sink.new)) }
        // It took a front of what was held, and so of whatever was to come behind it.
        ensures front { OnErr result ((more : List ℕ) → AddsFront (S.took sink.old) (self.old ++ more) (S.took sink.new)) }
        ensures cause { OnErr result (Rose (S.faults sink.old) (S.faults sink.new)) }
        ensures later { S.faults sink.old ≤ S.faults sink.new }
    {
        if self.len <= SIZE - LINE {
            return Ok(());
        }
        self.flush(sink)
    }

    /// Hands the sink all that is held. After `Failed` the sink took a front of it.
    pub(crate) fn flush<S: Sink>(&mut self, sink: &mut S) -> Result<(), Failed>
        ensures empty { OnOk result (self.new ≡ []) }
        ensures whole { OnOk result (Adds (S.took sink.old) self.old (S.took sink.new)) }
        ensures front { OnErr result (AddsFront (S.took sink.old) self.old (S.took sink.new)) }
        ensures cause { OnErr result (Rose (S.faults sink.old) (S.faults sink.new)) }
        ensures later { S.faults sink.old ≤ S.faults sink.new }
    {
        write_all(sink, &self.bytes[..self.len])?;
        self.len = 0;
        Ok(())
    }
}
