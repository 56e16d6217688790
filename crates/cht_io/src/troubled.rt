ghost use Rattle.std.specs.Prelude.{◌≡◌, ◌⊎◌, ◌↔◌, ◌<◌, ◌≤◌, ◌^◌, Some, [], length, take, Contains, IsTrue, IsErr, IfOk, OnErr};
ghost use Rattle.cht_io.specs.Bytes.{Reads, Adds};
ghost use Rattle.cht_io.specs.Calls.{next_call, fails_next};
ghost use Rattle.cht_io.specs.Faults.{Rose};
ghost use Rattle.cht_io.specs.Sources.{read_count, troubled_read_step};
ghost use Rattle.cht_io.specs.Sinks.{room_left, write_count, troubled_write_step};

use crate::faults::one_more;
use crate::{Failed, ListSink, ListSource, Sink, Source};
use cht_ids::{List, Memory};
use std::alloc::Global;
use std::marker::Model;

/// The numbers of the calls that fail, and the number of the last call: calls count from 1.
#[derive(Drop)]
struct Trouble {
    fails: List<u64>,
    calls: u64,
}

impl Trouble {
    /// Numbers one more call, and answers whether it fails.
    fn next_fails(&mut self) -> bool
        ensures answer { result ≡ fails_next self.old.fails self.old.calls }
        ensures listed { IsTrue result ↔ Contains self.old.fails (next_call self.old.calls) }
        ensures calls { self.new.calls ≡ next_call self.old.calls }
        ensures fails { self.new.fails ≡ self.old.fails }
    {
        self.calls = one_more(self.calls);
        self.fails.as_slice().contains(&self.calls)
    }
}

/// A source over memory some of whose calls fail.
#[derive(Drop)]
pub struct TroubledSource {
    source: ListSource,
    trouble: Trouble,
    faults: u64,
}

impl Model for TroubledSource {
    ghost use Rattle.std.specs.Prelude.{◌<◌, ◌^◌};
    ghost use Rattle.cht_io.specs.Sources.{TroubledSourceState};

    ghost Value = { TroubledSourceState };

    ghost view = { λ troubled. record { source = troubled.source; calls = troubled.trouble.calls; fails = troubled.trouble.fails; faults = troubled.faults } };

    ghost invariant = { λ troubled. troubled.faults < 2 ^ 64 };
}

impl TroubledSource {
    /// A source of these bytes, at most `piece` of them per call, whose calls of the numbers in `fails` fail.
    /// Calls count from 1. It takes no memory.
    pub fn new(bytes: List<u8>, piece: u32, fails: List<u64>) -> TroubledSource
        requires { 0 < piece }
        ensures { result ≡ record { source = record { left = bytes; piece = piece }; calls = 0; fails = fails; faults = 0 } }
    {
        TroubledSource {
            source: ListSource::new(bytes, piece),
            trouble: Trouble { fails, calls: 0 },
            faults: 0,
        }
    }

    /// The bytes that are left.
    pub fn left(&self) -> &[u8]
        ensures { result.now ≡ self.now.source.left }
    {
        self.source.left()
    }

    /// How often it failed.
    pub fn faults(&self) -> u64
        ensures { result ≡ self.now.faults }
    {
        self.faults
    }
}

impl Source for TroubledSource {
    ghost left = { λ troubled. Some troubled.source.left };

    ghost faults = { λ troubled. troubled.faults };

    /// Fails where the call has a number that fails, and else reads as a `ListSource`.
    fn read(&mut self, buf: &mut [u8]) -> Result<usize, Failed>
        ensures fails { IsErr result ↔ Contains self.old.fails (next_call self.old.calls) }
        ensures count { IfOk result (λ n. n ≡ read_count self.old.source (length buf.old)) }
        ensures state { self.new ≡ troubled_read_step self.old (length buf.old) }

        ensures fits { IfOk result (λ n. n ≤ length buf.old) }
        ensures given { IfOk result (λ n. Reads (Some self.old.source.left) buf.new n (Some self.new.source.left)) }

        ensures kept { OnErr result (Some self.new.source.left ≡ Some self.old.source.left) }
        ensures cause { OnErr result (Rose self.old.faults self.new.faults) }
        ensures later { self.old.faults ≤ self.new.faults }
        ensures counted { self.new.faults < 2 ^ 64 }
    {
        if self.trouble.next_fails() {
            self.faults = one_more(self.faults);
            return Err(Failed);
        }
        self.source.read(buf)
    }
}

/// A sink over memory some of whose calls fail, whatever they bring.
#[derive(Drop)]
pub struct TroubledSink {
    sink: ListSink,
    trouble: Trouble,
}

impl Model for TroubledSink {
    ghost use Rattle.cht_io.specs.Sinks.{TroubledSinkState};

    ghost Value = { TroubledSinkState };

    ghost view = { λ troubled. record { sink = troubled.sink; calls = troubled.trouble.calls; fails = troubled.trouble.fails } };
}

impl TroubledSink {
    /// An empty sink with room for so many bytes, whose calls of the numbers in `fails` fail. Calls count from 1.
    /// It takes all its memory here.
    pub fn new(alloc: Global, fails: List<u64>, room: u32) -> Result<TroubledSink, Memory>
        ensures { IfOk result (λ troubled. troubled ≡ record { sink = record { taken = []; room = room; faults = 0 }; calls = 0; fails = fails }) }
    {
        Ok(TroubledSink {
            sink: ListSink::new(alloc, room)?,
            trouble: Trouble { fails, calls: 0 },
        })
    }

    /// The bytes that it took.
    pub fn taken(&self) -> &[u8]
        ensures value { result.now ≡ self.now.sink.taken }
        ensures within { length self.now.sink.taken ≤ self.now.sink.room }
    {
        self.sink.taken()
    }

    /// How often it failed.
    pub fn faults(&self) -> u64
        ensures { result ≡ self.now.sink.faults }
    {
        self.sink.faults()
    }
}

impl Sink for TroubledSink {
    ghost took = { λ troubled. Some troubled.sink.taken };

    ghost faults = { λ troubled. troubled.sink.faults };

    /// Fails where the call has a number that fails, and else writes as a `ListSink`. One call counts one fault.
    fn write(&mut self, piece: &[u8]) -> Result<usize, Failed>
        ensures fails { IsErr result ↔ (Contains self.old.fails (next_call self.old.calls) ⊎ ((0 < length piece.now) × (room_left self.old.sink ≡ 0))) }
        ensures count { IfOk result (λ n. n ≡ write_count self.old.sink piece.now) }
        ensures state { self.new ≡ troubled_write_step self.old piece.now }

        ensures fits { IfOk result (λ n. n ≤ length piece.now) }
        ensures some { IfOk result (λ n. 0 < length piece.now → 0 < n) }
        ensures added { IfOk result (λ n. Adds (Some self.old.sink.taken) (take n piece.now) (Some self.new.sink.taken)) }

        ensures kept { OnErr result (Some self.new.sink.taken ≡ Some self.old.sink.taken) }
        ensures cause { OnErr result (Rose self.old.sink.faults self.new.sink.faults) }
        ensures later { self.old.sink.faults ≤ self.new.sink.faults }
        ensures counted { self.new.sink.faults < 2 ^ 64 }
    {
        if self.trouble.next_fails() {
            return Err(self.sink.fail());
        }
        self.sink.write(piece)
    }
}
