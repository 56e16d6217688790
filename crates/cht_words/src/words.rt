ghost use Rattle.std.specs.Prelude.{◌≡◌, ◌^◌, ◌<◌, map, codes};
ghost use Rattle.std.specs.Result.{result_ok};
ghost use Rattle.std.specs.Str.{bytes_eq};
ghost use Rattle.std.specs.String.{string_bytes};
ghost use Rattle.cht_words.specs.Words.{numeral_in, workers_in, cache_in, options_of, workers_of, plain_of, load_of, command_of};

use crate::command::{Command, Usage};
use cht_ids::read_unsigned;

const WORKERS: u32 = 4;

const CACHE: u32 = 256;

/// The command that some words are, without the program's own name: `run`, `plain`, `load` or `journal`, its numbers, and
/// its options in any order. `Usage` exactly where they are none. It takes no memory.
pub fn read_words(words: &[String]) -> Result<Command, Usage>
    ensures { result_ok result ≡ command_of (map string_bytes words.now) }
{
    command(words).ok_or(Usage)
}

fn command(words: &[String]) -> Option<Command>
    ensures { result ≡ command_of (map string_bytes words.now) }
{
    let [name, rest @ ..] = words else {
        return None;
    };
    if is(name, b"run") {
        let (workers, cache) = options(rest)?;
        Some(Command::Run { workers, cache })
    } else if is(name, b"plain") {
        plain(rest)
    } else if is(name, b"load") {
        load(rest)
    } else if is(name, b"journal") {
        let (workers, cache) = options(rest)?;
        Some(Command::Journal { workers, cache })
    } else {
        None
    }
}

fn plain(words: &[String]) -> Option<Command>
    ensures { result ≡ plain_of (map string_bytes words.now) }
{
    match words {
        [] => Some(Command::Plain),
        _ => None,
    }
}

fn load(words: &[String]) -> Option<Command>
    ensures { result ≡ load_of (map string_bytes words.now) }
{
    let [number, size, fill, rest @ ..] = words else {
        return None;
    };
    let number = numeral_in(0, u64::MAX, number)?;
    let size = numeral_in(1, 4096, size)?;
    let fill = numeral_in(1, 64, fill)?;
    let workers = workers_of(rest)?;
    if fill > size {
        return None;
    }
    Some(Command::Load {
        number,
        size: size as u32,
        fill: fill as u32,
        workers,
    })
}

// The workers and the cache that options give.
fn options(words: &[String]) -> Option<(u32, u32)>
    ensures { result ≡ options_of (map string_bytes words.now) }
{
    match words {
        [] => Some((WORKERS, CACHE)),
        [name, value] => {
            if is(name, b"--workers") {
                Some((workers(value)?, CACHE))
            } else if is(name, b"--cache") {
                Some((WORKERS, cache(value)?))
            } else {
                None
            }
        }
        [name, value, other, second] => {
            if is(name, b"--workers") && is(other, b"--cache") {
                Some((workers(value)?, cache(second)?))
            } else if is(name, b"--cache") && is(other, b"--workers") {
                Some((workers(second)?, cache(value)?))
            } else {
                None
            }
        }
        _ => None,
    }
}

// The workers that the options of `load` give.
fn workers_of(words: &[String]) -> Option<u32>
    ensures { result ≡ workers_of (map string_bytes words.now) }
{
    match words {
        [] => Some(WORKERS),
        [name, value] if is(name, b"--workers") => workers(value),
        _ => None,
    }
}

fn workers(word: &String) -> Option<u32>
    ensures { result ≡ workers_in (string_bytes word.now) }
{
    Some(numeral_in(1, 64, word)? as u32)
}

fn cache(word: &String) -> Option<u32>
    ensures { result ≡ cache_in (string_bytes word.now) }
{
    Some(numeral_in(0, 65_536, word)? as u32)
}

// The number of a numeral of 1 to 20 digits, where it lies in these limits.
fn numeral_in(low: u64, high: u64, word: &String) -> Option<u64>
    ensures { result ≡ numeral_in low high (string_bytes word.now) }
{
    if word.len() > 20 {
        return None;
    }
    let number = read_unsigned(word.as_bytes())?;
    if number < u128::from(low) || number > u128::from(high) {
        return None;
    }
    Some(number as u64)
}

fn is(word: &String, name: &[u8]) -> bool
    ensures { result ≡ bytes_eq (string_bytes word.now) name.now }
{
    word.as_bytes() == name
}
