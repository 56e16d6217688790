ghost use Rattle.std.specs.Prelude.{◌≡◌, ◌≤◌, ◌+◌, ◌^◌, false, length};
ghost use Rattle.cht_script.specs.Words.{is_skipped};
ghost use Rattle.cht_script.specs.Reading.{IsLeastHeight};
ghost use Rattle.cht_script.specs.Steps.{Heads, HeadsAt};

use crate::script::Fault;
use crate::words::{is_skipped, read_grid};
use mm_text::{is_text, next_line};

/// What a script begins with: the largest number of rows and columns, the side of a leaf block, the number of its grid line,
/// counted from 1, and the text behind that line.
#[derive(Clone, Copy)]
pub(crate) struct Heading<'a> {
    pub grid: u32,
    pub leaf: u32,
    pub line: u64,
    pub rest: &'a [u8],
}

/// The heading of a text, or the fault of the line in its place.
pub(crate) fn read_heading(text: &[u8]) -> Result<Heading<'_>, Fault>
    requires { length text.now ≤ 2 ^ 26 }
    ensures { Heads text.now result }
{
    let mut number = 0;
    let mut rest = text;
    while let Some((line, behind)) = next_line(rest) {
        number += 1;
        rest = behind;
        if !is_skipped(line) {
            return heading_at(number, line, rest);
        }
    }
    Err(Fault {
        line: number + 1,
        code: 3,
    })
}

// The heading whose grid line this line is, or its fault.
fn heading_at<'a>(number: u64, line: &[u8], rest: &'a [u8]) -> Result<Heading<'a>, Fault>
    requires { is_skipped line.now ≡ false }
    ensures { HeadsAt number line.now rest.now result }
{
    if !is_text(line) {
        return Err(Fault {
            line: number,
            code: 2,
        });
    }
    let Some((grid, leaf)) = read_grid(line) else {
        return Err(Fault {
            line: number,
            code: 3,
        });
    };
    Ok(Heading {
        grid,
        leaf,
        line: number,
        rest,
    })
}

/// The least number of levels with which leaf blocks of this side reach the grid.
pub(crate) fn height(grid: u32, leaf: u32) -> u32
    requires grid { grid ≤ 4096 }
    requires leaf { 1 ≤ leaf }
    ensures { IsLeastHeight grid leaf result }
{
    let mut side = u64::from(leaf);
    let mut height = 0;
    while side < u64::from(grid) {
        side *= 2;
        height += 1;
    }
    height
}
