ghost use Rattle.std.specs.Prelude.{◌≡◌, ◌+◌, ◌≤◌, ℕ, List, [], ◌++◌, length, OnOk, OnErr};
ghost use Rattle.cht_io.specs.Bytes.{Adds, AddsFront};
ghost use Rattle.cht_io.specs.Faults.{Rose};

use cht_io::{Failed, Sink, write_all};
use std::marker::Model;

/// How many bytes are held at most.
pub(crate) const SIZE: usize = 8192;

/// The room for a line: three numbers of at most 40 bytes, with what stands between and after them.
pub(crate) const LINE: usize = 128;

/// Text on its way to a sink, held until there are several KiB of it.
#[derive(Drop)]
pub struct HeldText {
    bytes: [u8; SIZE],
    len: usize,
}

impl Model for HeldText {
    ghost use Rattle.std.specs.Prelude.{List, ℕ, take, ◌≤◌};

    ghost Value = { List ℕ };

    ghost view = { λ text. take text.len text.bytes };

    ghost invariant = { λ text. text.len ≤ 8192 };
}

impl HeldText {
    /// No text.
    pub(crate) fn new() -> HeldText
        ensures { result ≡ [] }
    {
        HeldText {
            bytes: [0; SIZE],
            len: 0,
        }
    }

    /// Adds text for which there is room.
    #[inline]
    pub(crate) fn push(&mut self, text: &[u8])
        requires { length self.old + length text.now ≤ SIZE }
        ensures { self.new ≡ self.old ++ text.now }
    {
        let end = self.len + text.len();
        self.bytes[self.len..end].copy_from_slice(text);
        self.len = end;
    }

    /// Makes room for a line: where there is none, hands the sink all that is held.
    #[inline]
    pub(crate) fn make_room<K: Sink>(&mut self, sink: &mut K) -> Result<(), Failed>
        ensures room { OnOk result (length self.new + LINE ≤ SIZE) }
        // The sink took a front of what was held, and the rest is held still.
        ensures whole { OnOk result ((front : List ℕ) × (front ++ self.new ≡ self.old) × Adds (K.took sink.old) front (K.took sink.new)) }
        ensures kept { OnErr result (self.new ≡ self.old) }
        ensures front { OnErr result (AddsFront (K.took sink.old) self.old (K.took sink.new)) }
        ensures cause { OnErr result (Rose (K.faults sink.old) (K.faults sink.new)) }
        ensures later { K.faults sink.old ≤ K.faults sink.new }
    {
        if self.len <= SIZE - LINE {
            return Ok(());
        }
        self.flush(sink)
    }

    /// Hands the sink all that is held. After `Failed` the sink took a front of it, and all of it is held still.
    pub fn flush<K: Sink>(&mut self, sink: &mut K) -> Result<(), Failed>
        ensures empty { OnOk result (self.new ≡ []) }
        ensures whole { OnOk result (Adds (K.took sink.old) self.old (K.took sink.new)) }
        ensures kept { OnErr result (self.new ≡ self.old) }
        ensures front { OnErr result (AddsFront (K.took sink.old) self.old (K.took sink.new)) }
        ensures cause { OnErr result (Rose (K.faults sink.old) (K.faults sink.new)) }
        ensures later { K.faults sink.old ≤ K.faults sink.new }
    {
        write_all(sink, &self.bytes[..self.len])?;
        self.len = 0;
        Ok(())
    }
}
