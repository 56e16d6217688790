use cht_words::{Command, Usage, read_words};
use std::alloc::{AllocError, Global};
use std::test::Fail;

// The words of a line, which single spaces part.
fn words_of(alloc: Global, line: &str) -> Result<Vec<String>, AllocError> {
    let mut words = Vec::new(alloc);
    for word in line.split_whitespace() {
        words.push(String::from_str(alloc, word)?)?;
    }
    Ok(words)
}

#[test]
fn words_are_commands_or_usage(rt: HostRuntime) -> Result<(), Fail> {
    let cases: [(&str, Result<Command, Usage>); 17] = [
        (
            "run",
            Ok(Command::Run {
                workers: 4,
                cache: 256,
            }),
        ),
        (
            "run --cache 0 --workers 1",
            Ok(Command::Run {
                workers: 1,
                cache: 0,
            }),
        ),
        (
            "run --workers 00000000000000000064",
            Ok(Command::Run {
                workers: 64,
                cache: 256,
            }),
        ),
        ("run --workers 65", Err(Usage)),
        ("run --cache", Err(Usage)),
        ("run --workers 2 --workers 2", Err(Usage)),
        ("run --workers +2", Err(Usage)),
        ("run --workers 000000000000000000002", Err(Usage)),
        ("plain", Ok(Command::Plain)),
        ("plain x", Err(Usage)),
        ("", Err(Usage)),
        ("--help", Err(Usage)),
        ("load 7 0 1", Err(Usage)),
        ("load 7 8 9", Err(Usage)),
        ("load 18446744073709551616 8 8", Err(Usage)),
        (
            "load 18446744073709551615 8 8",
            Ok(Command::Load {
                number: u64::MAX,
                size: 8,
                fill: 8,
                workers: 4,
            }),
        ),
        (
            "journal --cache 65536",
            Ok(Command::Journal {
                workers: 4,
                cache: 65536,
            }),
        ),
    ];
    for (line, command) in cases {
        let words = words_of(rt.alloc(), line)?;
        assert_eq!(rt; read_words(words.as_slice()), command, "{line}");
    }
    Ok(())
}
