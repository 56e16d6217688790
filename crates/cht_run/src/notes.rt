ghost use Rattle.std.specs.Prelude.{◌≡◌, ◌≤◌, length, pos};
ghost use Rattle.cht_ids.specs.Numeral.{number_text};
ghost use Rattle.cht_run.specs.Notes.{Notes, note_of, place_note, fault_name};

use crate::status::Status;
use cht_ids::{Short, write_number};
use cht_io::{Sink, write_all};
use cht_script::Fault;

/// Writes the line of a status, if it has one. A fault of the notes changes nothing else.
pub(crate) fn tell<N: Sink>(notes: &mut N, status: Status)
    ensures { Notes status (N.took notes.old) (N.took notes.new) (N.faults notes.old) (N.faults notes.new) }
{
    let _ = write_all(notes, note(status).as_bytes());
}

// The line of a status.
fn note(status: Status) -> Short
    ensures { result ≡ note_of status }
{
    match status {
        Status::Done => Short::of(b""),
        Status::Usage => Short::of(b"usage: cht plain\n"),
        Status::Refused(fault) => fault_note(fault),
        Status::ReadFault => Short::of(b"cht: read fault\n"),
        Status::WriteFault => Short::of(b"cht: write fault\n"),
        Status::Memory => Short::of(b"cht: out of memory\n"),
    }
}

fn fault_note(fault: Fault) -> Short
    ensures { result ≡ note_of (Status.Refused fault) }
{
    let mut line = place_of(fault);
    line.append(b" ");
    line.append(name_of(fault.code));
    line.append(b"\n");
    line
}

// The part of the note that tells where and which.
fn place_of(fault: Fault) -> Short
    ensures text { result ≡ place_note fault }
    ensures short { length result ≤ 48 }
{
    let mut line = Short::of(b"cht: line ");
    line.append(line_number(fault.line).as_bytes());
    line.append(b": fault ");
    line.append(code_number(fault.code).as_bytes());
    line
}

#[tactic(auto, using(crate::proofs::Short::line_short))]
fn line_number(line: u64) -> Short
    ensures text { result ≡ number_text (pos line) }
    ensures short { length result ≤ 20 }
{
    write_number(line as i128)
}

#[tactic(auto, using(crate::proofs::Short::code_short))]
fn code_number(code: u32) -> Short
    ensures text { result ≡ number_text (pos code) }
    ensures short { length result ≤ 10 }
{
    write_number(code as i128)
}

// The name of a fault.
fn name_of(code: u32) -> &'static [u8]
    ensures name { result.now ≡ fault_name code }
    ensures short { length result.now ≤ 9 }
{
    match code {
        1 => b"TooLong",
        2 => b"NotText",
        3 => b"Grid",
        4 => b"Statement",
        5 => b"Number",
        6 => b"Name",
        7 => b"Banner",
        8 => b"Sizes",
        9 => b"Entry",
        10 => b"Range",
        11 => b"Repeated",
        12 => b"Upper",
        13 => b"CutShort",
        14 => b"Unknown",
        15 => b"Deleted",
        16 => b"Taken",
        17 => b"Shape",
        18 => b"Form",
        _ => b"Magnitude",
    }
}
