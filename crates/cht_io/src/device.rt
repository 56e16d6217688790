ghost use Rattle.std.specs.Prelude.{◌≡◌, ◌<◌, ◌≤◌, ◌^◌, ℕ, List, Option, length, take, IfOk, OnErr};
ghost use Rattle.cht_io.specs.Bytes.{Reads, Adds};
ghost use Rattle.cht_io.specs.Faults.{Rose};

/// A device failed in this call, and has counted it.
#[derive(Clone, Copy, Debug, PartialEq, Eq)]
pub struct Failed;

/// Where bytes come from.
pub trait Source {
    /// The bytes that are left, or `None` where the source does not tell them.
    ghost left: { Self → Option (List ℕ) };

    /// How often it failed.
    ghost faults: { Self → ℕ };

    /// Reads some bytes into the front of the buffer, and answers how many. 0 into a buffer with room is the end.
    /// After `Failed` the bytes that are left are as before; what stands in the buffer is not said.
    fn read(&mut self, buf: &mut [u8]) -> Result<usize, Failed>
        ensures fits { IfOk result (λ n. n ≤ length buf.old) }
        ensures given { IfOk result (λ n. Reads (left self.old) buf.new n (left self.new)) }

        ensures kept { OnErr result (left self.new ≡ left self.old) }
        ensures cause { OnErr result (Rose (faults self.old) (faults self.new)) }
        ensures later { faults self.old ≤ faults self.new }
        ensures counted { faults self.new < 2 ^ 64 };
}

/// Where bytes go.
pub trait Sink {
    /// The bytes that it took, or `None` where the sink does not tell them.
    ghost took: { Self → Option (List ℕ) };

    /// How often it failed.
    ghost faults: { Self → ℕ };

    /// Takes a front of the piece, and answers how many bytes that are: at least one where the piece has one.
    /// After `Failed` what it took is as before.
    fn write(&mut self, piece: &[u8]) -> Result<usize, Failed>
        ensures fits { IfOk result (λ n. n ≤ length piece.now) }
        ensures some { IfOk result (λ n. 0 < length piece.now → 0 < n) }
        ensures added { IfOk result (λ n. Adds (took self.old) (take n piece.now) (took self.new)) }

        ensures kept { OnErr result (took self.new ≡ took self.old) }
        ensures cause { OnErr result (Rose (faults self.old) (faults self.new)) }
        ensures later { faults self.old ≤ faults self.new }
        ensures counted { faults self.new < 2 ^ 64 };
}
