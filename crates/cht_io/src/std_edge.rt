ghost use Rattle.std.specs.Prelude.{◌≡◌, ◌<◌, ◌≤◌, ◌^◌, ℕ, None, length, take, is_err, if◌then◌else◌, IfOk, OnErr, IfSome, IfNone};
ghost use Rattle.std.specs.Io.KnownBytes.{Appends, ReadConsumes};
ghost use Rattle.cht_io.specs.Bytes.{Reads, Adds};
ghost use Rattle.cht_io.specs.Faults.{Rose, risen};

use crate::faults::one_more;
use crate::{Failed, Sink, Source};
use std::io::{Read, Write};
use std::marker::Model;

/// A reader of std, such as standard input, as a source that does not tell its bytes.
#[derive(Drop)]
pub struct StdSource<R> {
    reader: R,
    faults: u64,
}

impl<R> Model for StdSource<R> {
    ghost use Rattle.std.specs.Prelude.{◌<◌, ◌^◌};
    ghost use Rattle.cht_io.specs.Edge.{Counted};

    ghost Value = { Counted R };

    ghost view = { λ source. record { device = source.reader; faults = source.faults } };

    ghost invariant = { λ source. source.faults < 2 ^ 64 };
}

impl<R> StdSource<R> {
    /// A source over this reader. It takes no memory.
    pub fn new(reader: R) -> StdSource<R>
        ensures { result ≡ record { device = reader; faults = 0 } }
    {
        StdSource { reader, faults: 0 }
    }

    /// How often it failed.
    pub fn faults(&self) -> u64
        ensures { result ≡ self.now.faults }
    {
        self.faults
    }
}

impl<R: Read> Source for StdSource<R> {
    ghost left = { λ _. None };

    ghost faults = { λ source. source.faults };

    /// Reads once. Each error of the reader is a fault.
    fn read(&mut self, buf: &mut [u8]) -> Result<usize, Failed>
        ensures bytes { ReadConsumes (R.remaining self.old.device) (R.remaining self.new.device) result buf.new }
        ensures faults { self.new.faults ≡ (if is_err result then risen self.old.faults else self.old.faults) }

        ensures fits { IfOk result (λ n. n ≤ length buf.old) }
        ensures given { IfOk result (λ n. Reads None buf.new n None) }

        ensures cause { OnErr result (Rose self.old.faults self.new.faults) }
        ensures later { self.old.faults ≤ self.new.faults }
        ensures counted { self.new.faults < 2 ^ 64 }
    {
        match self.reader.read(buf) {
            Ok(n) => Ok(n),
            Err(_) => {
                self.faults = one_more(self.faults);
                Err(Failed)
            }
        }
    }
}

/// A writer of std, such as standard output, as a sink that does not tell its bytes.
#[derive(Drop)]
pub struct StdSink<W> {
    writer: W,
    faults: u64,
}

impl<W> Model for StdSink<W> {
    ghost use Rattle.std.specs.Prelude.{◌<◌, ◌^◌};
    ghost use Rattle.cht_io.specs.Edge.{Counted};

    ghost Value = { Counted W };

    ghost view = { λ sink. record { device = sink.writer; faults = sink.faults } };

    ghost invariant = { λ sink. sink.faults < 2 ^ 64 };
}

impl<W> StdSink<W> {
    /// A sink over this writer. It takes no memory.
    pub fn new(writer: W) -> StdSink<W>
        ensures { result ≡ record { device = writer; faults = 0 } }
    {
        StdSink { writer, faults: 0 }
    }

    /// How often it failed.
    pub fn faults(&self) -> u64
        ensures { result ≡ self.now.faults }
    {
        self.faults
    }
}

impl<W: Write> Sink for StdSink<W> {
    ghost took = { λ _. None };

    ghost faults = { λ sink. sink.faults };

    /// Writes once and flushes. A fault is each error of the writer, and each write that takes nothing of a piece
    /// that has a byte. After `Failed` the writer may have taken a front of the piece.
    fn write(&mut self, piece: &[u8]) -> Result<usize, Failed>
        ensures bytes { IfOk result (λ n. Appends (W.contents self.old.device) (W.contents self.new.device) (take n piece.now)) }
        ensures front { OnErr result ((n : ℕ) × Appends (W.contents self.old.device) (W.contents self.new.device) (take n piece.now)) }
        ensures faults { self.new.faults ≡ (if is_err result then risen self.old.faults else self.old.faults) }

        ensures fits { IfOk result (λ n. n ≤ length piece.now) }
        ensures some { IfOk result (λ n. 0 < length piece.now → 0 < n) }
        ensures added { IfOk result (λ n. Adds None (take n piece.now) None) }

        ensures cause { OnErr result (Rose self.old.faults self.new.faults) }
        ensures later { self.old.faults ≤ self.new.faults }
        ensures counted { self.new.faults < 2 ^ 64 }
    {
        match write_and_flush(&mut self.writer, piece) {
            Some(n) => Ok(n),
            None => {
                self.faults = one_more(self.faults);
                Err(Failed)
            }
        }
    }
}

/// Writes once and flushes, and answers how many bytes that took: at least one where the piece has one.
fn write_and_flush<W: Write>(writer: &mut W, piece: &[u8]) -> Option<usize>
    ensures fits { IfSome result (λ n. n ≤ length piece.now) }
    ensures some { IfSome result (λ n. 0 < length piece.now → 0 < n) }
    ensures bytes { IfSome result (λ n. Appends (W.contents writer.old) (W.contents writer.new) (take n piece.now)) }
    ensures front { IfNone result ((n : ℕ) × Appends (W.contents writer.old) (W.contents writer.new) (take n piece.now)) }
{
    let n = writer.write(piece).ok()?;
    if n == 0 && !piece.is_empty() {
        return None;
    }
    writer.flush().ok()?;
    Some(n)
}
