ghost use Rattle.std.specs.Prelude.{◌≡◌, ◌+◌, ◌<◌, ◌≤◌, List, ℕ, Some, Ok, Err, true, length, vec_len, IfOk};
ghost use Rattle.cht_script.specs.Verdict.{most_bytes};
ghost use Rattle.cht_io.specs.Faults.{Rose};
ghost use Rattle.cht_run.specs.Reading.{Stopped, IsReading, Turns, Ends};

use cht_ids::Memory;
use cht_io::Source;
use cht_script::MOST_BYTES;
use std::alloc::{AllocError, Global};

// How many bytes a source is asked for at a time.
const PIECE: usize = 1 << 16;

/// Why the reading stopped before its end.
#[derive(Clone, Copy, Debug, PartialEq, Eq)]
pub(crate) enum ReadStop {
    Failed,
    Memory,
}

impl From<AllocError> for ReadStop {
    ghost use Rattle.std.specs.Prelude.{◌≡◌};
    ghost use Rattle.cht_run.specs.declared.reading.ReadStop.TheVariants.{Memory as StopMemory};

    ghost from_gives = { λ _ stop. stop ≡ StopMemory };

    fn from(_: AllocError) -> ReadStop {
        ReadStop::Memory
    }
}

/// Reads a source to its end, or to one byte past the most that a script may have.
pub(crate) fn read_all<S: Source>(alloc: Global, source: &mut S) -> Result<Vec<u8>, ReadStop>
    ensures told { (input : List ℕ) → S.left source.old ≡ Some input → Stopped input result (S.left source.new) }
    ensures cause { result ≡ Err ReadStop.Failed → Rose (S.faults source.old) (S.faults source.new) }
{
    let mut text = Vec::new(alloc);
    let mut piece = zeros(alloc, PIECE)?;
    match read_to_end(source, &mut piece, &mut text) {
        Ok(()) => Ok(text),
        Err(stop) => Err(stop),
    }
}

// Reads on to the end, piece by piece.
fn read_to_end<S: Source>(
    source: &mut S,
    piece: &mut [u8],
    text: &mut Vec<u8>,
) -> Result<(), ReadStop>
    requires room { 0 < length piece.old }
    requires small { length text.old.items ≤ most_bytes + 1 }
    ensures told { (input : List ℕ) → IsReading input text.old.items (S.left source.old)
        → Ends input result text.new.items (S.left source.new) }
    ensures cause { result ≡ Err ReadStop.Failed → Rose (S.faults source.old) (S.faults source.new) }
{
    while text.len() <= MOST_BYTES {
        match read_piece(source, piece, text) {
            Ok(true) => {}
            Ok(false) => return Ok(()),
            Err(stop) => return Err(stop),
        }
    }
    Ok(())
}

fn zeros(alloc: Global, len: usize) -> Result<Vec<u8>, AllocError>
    ensures { IfOk result (λ v. vec_len v ≡ len) }
{
    vec![in alloc; 0u8; len]
}

// One turn of the reading: adds what one read gives, through the piece, and answers whether that was something. A
// source is asked for no more than one byte past the most that a script may have.
fn read_piece<S: Source>(
    source: &mut S,
    piece: &mut [u8],
    text: &mut Vec<u8>,
) -> Result<bool, ReadStop>
    requires room { 0 < length piece.old }
    requires small { length text.old.items ≤ most_bytes }
    ensures told { (input : List ℕ) → IsReading input text.old.items (S.left source.old)
        → Turns input result text.old.items text.new.items (S.left source.new) }
    ensures grows { result ≡ Ok true → length text.old.items < length text.new.items }
    ensures within { length text.new.items ≤ most_bytes + 1 }
    ensures cause { result ≡ Err ReadStop.Failed → Rose (S.faults source.old) (S.faults source.new) }
    ensures later { S.faults source.old ≤ S.faults source.new }
{
    let most = piece.len().min(MOST_BYTES + 1 - text.len());
    let n = match source.read(&mut piece[..most]) {
        Ok(n) => n,
        Err(_) => return Err(ReadStop::Failed),
    };
    if n == 0 {
        return Ok(false);
    }
    text.extend_from_slice(&piece[..n])?;
    Ok(true)
}
