ghost use Rattle.std.specs.Prelude.{◌≡◌, ◌↔◌, ◌<◌, ◌≤◌, ◌^◌, Some, Ok, [], length, take, IsErr, IfOk, OnErr};
ghost use Rattle.cht_io.specs.Bytes.{Reads, Adds};
ghost use Rattle.cht_io.specs.Faults.{Rose};
ghost use Rattle.cht_io.specs.Sources.{read_count, read_step};
ghost use Rattle.cht_io.specs.Sinks.{room_left, write_count, write_step, after_fault};

use crate::faults::one_more;
use crate::{Failed, Sink, Source};
use cht_ids::{List, Memory};
use std::alloc::Global;
use std::marker::Model;

/// A source over memory: it gives its bytes in order, at most `piece` of them per call, and never fails.
#[derive(Drop)]
pub struct ListSource {
    bytes: List<u8>,
    at: usize,
    piece: u32,
}

impl Model for ListSource {
    ghost use Rattle.std.specs.Prelude.{drop, length, ◌<◌, ◌≤◌};
    ghost use Rattle.cht_io.specs.Sources.{SourceState};

    ghost Value = { SourceState };

    ghost view = { λ source. record { left = drop source.at source.bytes; piece = source.piece } };

    ghost invariant = { λ source. (source.at ≤ length source.bytes) × (0 < source.piece) };
}

impl ListSource {
    /// A source of these bytes. It takes no memory.
    pub fn new(bytes: List<u8>, piece: u32) -> ListSource
        requires { 0 < piece }
        ensures { result ≡ record { left = bytes; piece = piece } }
    {
        ListSource {
            bytes,
            at: 0,
            piece,
        }
    }

    /// The bytes that are left.
    pub fn left(&self) -> &[u8]
        ensures { result.now ≡ self.now.left }
    {
        &self.bytes.as_slice()[self.at..]
    }
}

impl Source for ListSource {
    ghost left = { λ source. Some source.left };

    ghost faults = { λ _. 0 };

    /// Gives as many bytes as are left, fit the buffer and are in a piece.
    fn read(&mut self, buf: &mut [u8]) -> Result<usize, Failed>
        ensures count { result ≡ Ok (read_count self.old (length buf.old)) }
        ensures state { self.new ≡ read_step self.old (length buf.old) }

        ensures fits { IfOk result (λ n. n ≤ length buf.old) }
        ensures given { IfOk result (λ n. Reads (Some self.old.left) buf.new n (Some self.new.left)) }
    {
        let left = &self.bytes.as_slice()[self.at..];
        let n = left.len().min(buf.len()).min(self.piece as usize);
        buf[..n].copy_from_slice(&left[..n]);
        self.at += n;
        Ok(n)
    }
}

/// A sink over memory: it keeps what it took, at most `room` bytes.
#[derive(Drop)]
pub struct ListSink {
    taken: Vec<u8>,
    room: u32,
    faults: u64,
}

impl Model for ListSink {
    ghost use Rattle.std.specs.Prelude.{◌≤◌, vec_len, vec_capacity};
    ghost use Rattle.cht_io.specs.Sinks.{SinkState};

    ghost Value = { SinkState };

    ghost view = { λ sink. record { taken = sink.taken.items; room = sink.room; faults = sink.faults } };

    ghost invariant = { λ sink. (vec_len sink.taken ≤ sink.room) × (sink.room ≤ vec_capacity sink.taken) };
}

impl ListSink {
    /// An empty sink with room for so many bytes. It takes all its memory here.
    pub fn new(alloc: Global, room: u32) -> Result<ListSink, Memory>
        ensures { IfOk result (λ sink. sink ≡ record { taken = []; room = room; faults = 0 }) }
    {
        Ok(ListSink {
            taken: Vec::with_capacity(alloc, room as usize)?,
            room,
            faults: 0,
        })
    }

    /// The bytes that it took.
    pub fn taken(&self) -> &[u8]
        ensures value { result.now ≡ self.now.taken }
        ensures within { length self.now.taken ≤ self.now.room }
    {
        &self.taken
    }

    /// How often it failed.
    pub fn faults(&self) -> u64
        ensures { result ≡ self.now.faults }
    {
        self.faults
    }

    /// Counts a fault of a call that takes nothing.
    pub(crate) fn fail(&mut self) -> Failed
        ensures state { self.new ≡ after_fault self.old }
        ensures later { self.old.faults ≤ self.new.faults }
    {
        self.faults = one_more(self.faults);
        Failed
    }
}

impl Sink for ListSink {
    ghost took = { λ sink. Some sink.taken };

    ghost faults = { λ sink. sink.faults };

    /// Takes as much of the piece as fits. It fails only where nothing of it fits.
    fn write(&mut self, piece: &[u8]) -> Result<usize, Failed>
        ensures fails { IsErr result ↔ ((0 < length piece.now) × (room_left self.old ≡ 0)) }
        ensures count { IfOk result (λ n. n ≡ write_count self.old piece.now) }
        ensures state { self.new ≡ write_step self.old piece.now }

        ensures fits { IfOk result (λ n. n ≤ length piece.now) }
        ensures some { IfOk result (λ n. 0 < length piece.now → 0 < n) }
        ensures added { IfOk result (λ n. Adds (Some self.old.taken) (take n piece.now) (Some self.new.taken)) }

        ensures kept { OnErr result (Some self.new.taken ≡ Some self.old.taken) }
        ensures cause { OnErr result (Rose self.old.faults self.new.faults) }
        ensures later { self.old.faults ≤ self.new.faults }
        ensures counted { self.new.faults < 2 ^ 64 }
    {
        let n = piece.len().min(self.room as usize - self.taken.len());
        if n == 0 && !piece.is_empty() {
            return Err(self.fail());
        }
        self.taken.extend_from_slice(&piece[..n]).unwrap();
        Ok(n)
    }
}
