//! The text of a journal, which is read and written again, and the lines that are named where a text is none.
ghost use Rattle.std.specs.Prelude.{◌≤◌, length};

use cht_io::ListSink;
use journal_text::{JournalRefused, read_journal, write_journal};
use quad_matrix::MatKind;
use std::alloc::Global;
use std::test::Fail;

// One sum of two numbers, from the first number to the last identifier.
const SUM: &[u8] =
    b"cht journal 1\nregister 0 0:2\ncopy 0 0:2 0:3\nask 0 4 addnum 0 0:2 0:3\nstart 1 4\ngive_back 1 4\nstart 2 4\ndelete 0 0:2\ndelete 0 0:3\nfinish 2 4 1 0 k0\nchunk\ncollect 0 4 2:7\ndelete 0 2:7\nend 11\n";

// Texts that are no journal's, each with the line that is named.
const WRONG: [(&[u8], u64); 12] = [
    (b"cht journal 2\nend 0\n", 1),
    (b"cht journal 1\nend 1\n", 2),
    (b"cht journal 1\nend 0\n\n", 3),
    (b"cht journal 1\nend 0\nend 0\n", 3),
    (b"cht journal 1\nend 0", 2),
    (b"cht journal 1\nregister 0 0:02\nend 1\n", 2),
    (b"cht journal 1\nregister 64 0:2\nend 1\n", 2),
    (b"cht journal 1\ncopy 0 0:2\nend 1\n", 2),
    (b"cht journal 1\nask 0 4 addnum 17 0:2\nend 1\n", 2),
    (b"cht journal 1\nask 0 4 nothing 0 0:2\nend 1\n", 2),
    (b"cht journal 1\nfinish 0 4 1 0 k0\nend 1\n", 3),
    (
        b"cht journal 1\nfinish 0 4 0 1 t0\ntask addnum 0 i0 i1\nend 2\n",
        4,
    ),
];

// The line that is named where bytes are no journal's text.
fn line_named(alloc: Global, bytes: &[u8]) -> Option<u64> {
    match read_journal::<MatKind>(alloc, bytes) {
        Ok(_) => None,
        Err(JournalRefused::NotJournal { line }) => Some(line),
        Err(JournalRefused::Memory) => None,
    }
}

// How many bytes the first lines of a text have, each with its line feed.
fn front_of(text: &[u8], lines: u64) -> usize
    ensures { result ≤ length text.now }
{
    let mut left = lines;
    let mut at = 0;
    for byte in text {
        if left == 0 {
            break;
        }
        if *byte == b'\n' {
            left -= 1;
        }
        at += 1;
    }
    at
}

#[test]
fn a_journal_is_read_and_written_again(rt: HostRuntime) -> Result<(), Fail> {
    let alloc = rt.alloc();
    let journal = read_journal::<MatKind>(alloc, SUM)?;
    assert_eq!(rt; journal.len(), 11);
    let mut sink = ListSink::new(alloc, 1000)?;
    assert!(rt; write_journal(&journal, &mut sink).is_ok());
    assert_eq!(rt; sink.taken(), SUM);
    let mut small = ListSink::new(alloc, 20)?;
    assert!(rt; write_journal(&journal, &mut small).is_err());
    assert_eq!(rt; small.taken(), &SUM[..20]);
    Ok(())
}

#[test]
fn the_first_wrong_line_is_named(rt: HostRuntime) -> Result<(), Fail> {
    let alloc = rt.alloc();
    assert_eq!(rt; line_named(alloc, b""), Some(1));
    for lines in 1..14u64 {
        let front = front_of(SUM, lines);
        assert_eq!(rt; line_named(alloc, &SUM[..front]), Some(lines));
    }
    for (text, line) in WRONG {
        assert_eq!(rt; line_named(alloc, text), Some(line));
    }
    Ok(())
}
