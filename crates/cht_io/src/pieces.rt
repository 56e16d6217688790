ghost use Rattle.std.specs.Prelude.{◌≤◌, OnOk, OnErr};
ghost use Rattle.cht_io.specs.Bytes.{Adds, AddsFront};
ghost use Rattle.cht_io.specs.Faults.{Rose};

use crate::{Failed, Sink};

/// Hands the sink a whole piece, in as many calls as it wants. After `Failed` it took a front of the piece.
pub fn write_all<K: Sink>(sink: &mut K, piece: &[u8]) -> Result<(), Failed>
    ensures whole { OnOk result (Adds (K.took sink.old) piece.now (K.took sink.new)) }
    ensures front { OnErr result (AddsFront (K.took sink.old) piece.now (K.took sink.new)) }
    ensures cause { OnErr result (Rose (K.faults sink.old) (K.faults sink.new)) }
    ensures later { K.faults sink.old ≤ K.faults sink.new }
{
    let mut rest = piece;
    while !rest.is_empty() {
        let n = sink.write(rest)?;
        rest = &rest[n..];
    }
    Ok(())
}
