//! The sources and sinks of `cht_io`.
ghost use Rattle.std.specs.Prelude.{◌≡◌, Some, IfOk};

use cht_ids::List;
use cht_io::{
    Failed, ListSink, ListSource, Sink, Source, StdSink, StdSource, TroubledSink, TroubledSource,
    write_all,
};
use std::alloc::{AllocError, Global};
use std::io;
use std::io::{ErrorKind, Read, Write};
use std::process::Abort;
use std::test::Fail;

fn list_of(alloc: Global, bytes: &[u8]) -> Result<List<u8>, AllocError> {
    Ok(List::from_vec(bytes.to_vec(alloc)?))
}

fn is_text(rt: &impl Abort, bytes: &[u8], text: &str) {
    assert_eq!(rt; bytes, text.as_bytes());
}

#[test]
fn a_source_gives_pieces(rt: HostRuntime) -> Result<(), Fail> {
    let mut source = ListSource::new(list_of(rt.alloc(), b"hello")?, 2);
    let mut sink = ListSink::new(rt.alloc(), 5)?;
    for count in [2, 2, 1, 0] {
        let mut buf = [0; 4];
        let n = source.read(&mut buf)?;
        assert_eq!(rt; n, count);
        write_all(&mut sink, &buf[..n])?;
    }
    is_text(&rt, sink.taken(), "hello");
    is_text(&rt, source.left(), "");
    Ok(())
}

#[test]
fn a_full_sink_fails(rt: HostRuntime) -> Result<(), Fail> {
    // The room, what `write_all` of five bytes answers, what the sink then has, and its count.
    for (room, answer, taken, faults) in [(5, Ok(()), "hello", 0), (4, Err(Failed), "hell", 1)] {
        let mut sink = ListSink::new(rt.alloc(), room)?;
        assert_eq!(rt; write_all(&mut sink, b"hello"), answer, "at room {room}");
        is_text(&rt, sink.taken(), taken);
        assert_eq!(rt; sink.faults(), faults);
        assert_eq!(rt; sink.write(&[]), Ok(0), "nothing always fits");
    }
    Ok(())
}

#[test]
fn a_source_fails_at_its_second_call(rt: HostRuntime) -> Result<(), Fail> {
    let fails = List::from_vec([2].to_vec(rt.alloc())?);
    let mut source = TroubledSource::new(list_of(rt.alloc(), b"hello")?, 3, fails);
    for (answer, left, faults) in [
        (Ok(3), "lo", 0),
        (Err(Failed), "lo", 1),
        (Ok(2), "", 1),
        (Ok(0), "", 1),
    ] {
        let mut buf = [0; 4];
        assert_eq!(rt; source.read(&mut buf), answer);
        is_text(&rt, source.left(), left);
        assert_eq!(rt; source.faults(), faults);
    }
    Ok(())
}

#[test]
fn a_sink_fails_at_its_second_call(rt: HostRuntime) -> Result<(), Fail> {
    let fails = List::from_vec([2].to_vec(rt.alloc())?);
    let mut sink = TroubledSink::new(rt.alloc(), fails, 4)?;
    for (piece, answer, taken, faults) in [
        ("he", Ok(2), "he", 0),
        ("", Err(Failed), "he", 1),
        ("llo", Ok(2), "hell", 1),
        ("o", Err(Failed), "hell", 2),
    ] {
        assert_eq!(rt; sink.write(piece.as_bytes()), answer);
        is_text(&rt, sink.taken(), taken);
        assert_eq!(rt; sink.faults(), faults);
    }
    Ok(())
}

// A reader and a writer one of whose calls fails, by its number from 1. A flush is a call too.
#[derive(Drop)]
struct Flaky {
    calls: u8,
    fails: u8,
}

impl Flaky {
    fn call<T: Drop>(&mut self, answer: T) -> io::Result<T>
        ensures { IfOk result (λ given. given ≡ answer) }
    {
        self.calls = self.calls.saturating_add(1);
        if self.calls == self.fails {
            return Err(ErrorKind::Other.into());
        }
        Ok(answer)
    }
}

impl Read for Flaky {
    fn read(&mut self, buf: &mut [u8]) -> io::Result<usize> {
        let n = buf.len().min(1);
        buf[..n].fill(b'x');
        self.call(n)
    }
}

impl Write for Flaky {
    fn write(&mut self, buf: &[u8]) -> io::Result<usize> {
        self.call(buf.len())
    }

    fn flush(&mut self) -> io::Result<()> {
        self.call(())
    }
}

#[test]
fn a_reader_of_std_is_a_source(rt: HostRuntime) {
    let mut source = StdSource::new(b"hello".as_slice());
    let mut buf = [0; 4];
    for (answer, seen) in [(Ok(4), "hell"), (Ok(1), "oell"), (Ok(0), "oell")] {
        assert_eq!(rt; source.read(&mut buf), answer);
        is_text(&rt, &buf, seen);
    }
    let mut source = StdSource::new(Flaky { calls: 0, fails: 2 });
    for (answer, faults) in [(Ok(1), 0), (Err(Failed), 1), (Ok(1), 1)] {
        assert_eq!(rt; source.read(&mut buf), answer);
        assert_eq!(rt; source.faults(), faults);
    }
}

#[test]
fn a_writer_of_std_is_a_sink(rt: HostRuntime) -> Result<(), Fail> {
    let mut out = Vec::new(rt.alloc());
    write_all(&mut StdSink::new(&mut out), b"hello")?;
    is_text(&rt, &out, "hello");
    let mut four = [0; 4];
    let mut sink = StdSink::new(four.as_mut_slice());
    for (answer, faults) in [(Ok(4), 0), (Err(Failed), 1)] {
        assert_eq!(rt; sink.write(b"hello"), answer);
        assert_eq!(rt; sink.faults(), faults);
    }
    // The call that fails, the answer, the count, and how many calls the writer had.
    for (fails, answer, faults, calls) in [
        (1, Err(Failed), 1, 1),
        (2, Err(Failed), 1, 2),
        (3, Ok(5), 0, 2),
    ] {
        let mut writer = Flaky { calls: 0, fails };
        let mut sink = StdSink::new(&mut writer);
        assert_eq!(rt; sink.write(b"hello"), answer);
        assert_eq!(rt; sink.faults(), faults);
        assert_eq!(rt; writer.calls, calls);
    }
    Ok(())
}
