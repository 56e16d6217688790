//! The script language: lines, statements, what is wrong with a text, and what it means.
#![tactic(auto)]

ghost use Rattle.std.specs.Prelude.{◌≡◌, ℕ, List, IfOk, Ok, Err};
ghost use Rattle.cht_script.specs.Limits.{AreLimits};
ghost use Rattle.cht_script.specs.Parsing.{IsParsed, IsParsedOfSome, front_of};
ghost use Rattle.cht_script.specs.Checking.{IsFaultOf, IsJudgedAsRead};
ghost use Rattle.cht_script.specs.Progress.{IsReadBehind};
ghost use Rattle.cht_script.specs.Steps.{heading_told};

mod checked;
mod heading;
mod judge;
mod names;
mod reader;
mod script;
mod statement;
mod words;

pub use checked::{Checked, ScriptRefused, Shape, Shapes, Step};
use cht_ids::{List, Memory};
use heading::{Heading, height, read_heading};
use judge::{join, judge_all};
use reader::{Reading, read_statements};
pub use script::{Begun, Fault, Name, Names, Script, Statement, Verb};
use std::alloc::Global;

/// How many bytes a script may have.
pub const MOST_BYTES: usize = 1 << 26;

/// Reads a script up to the first line that breaks a rule on lines: a text that is too long, other bytes than text, a line that
/// is no grid line or no statement, a word that is no name, or a line of a block that is wrong or missing. What its names mean
/// is not looked at.
pub fn parse(alloc: Global, bytes: &[u8]) -> Result<Script, Memory>
    ensures { IfOk result (IsParsed bytes.now) }
{
    if bytes.len() > MOST_BYTES {
        return Ok(nothing_read(alloc, Fault { line: 0, code: 1 }));
    }
    let heading = match read_heading(bytes) {
        Ok(heading) => heading,
        Err(fault) => return Ok(nothing_read(alloc, fault)),
    };
    let reading = read_statements(alloc, heading)?;
    Ok(script_read(heading, reading))
}

// What is read of a text with this fault and without a grid line.
fn nothing_read(alloc: Global, fault: Fault) -> Script
    ensures { (text : List ℕ) → front_of text ≡ Err fault → IsParsed text result }
{
    Script {
        grid: 1,
        leaf: 1,
        statements: List::new(alloc),
        begun: None,
        stop: Some(fault),
    }
}

// What is read of a text with this heading.
fn script_read(heading: Heading<'_>, reading: Reading) -> Script
    requires within { AreLimits (heading.grid, heading.leaf) }
    requires read { IsReadBehind heading reading }
    ensures { (text : List ℕ) → front_of text ≡ Ok (heading_told heading.entry) → IsParsed text result }
{
    let Reading { statements, stop } = reading;
    Script {
        grid: heading.grid,
        leaf: heading.leaf,
        statements,
        begun: stop.and_then(|stop| stop.begun),
        stop: stop.map(|stop| stop.fault),
    }
}

/// Judges the names of a script, which is what `parse` gave for some text. The first line that breaks a rule is the fault, with
/// the least code that is broken there.
pub fn check(alloc: Global, script: Script) -> Result<Checked, ScriptRefused>
    requires { IsParsedOfSome script }
    ensures fault { IsFaultOf script result }
    ensures verdict { IsJudgedAsRead script result }
{
    let Script {
        grid,
        leaf,
        statements,
        begun,
        stop,
    } = script;
    let shapes = match judge_all(alloc, statements.as_slice(), begun) {
        Ok(shapes) => shapes,
        Err(refused) => return Err(refused),
    };
    if let Some(fault) = stop {
        return Err(ScriptRefused::Fault(fault));
    }
    let steps = join(alloc, statements, shapes.as_slice())?;
    Ok(Checked {
        grid,
        leaf,
        height: height(grid, leaf),
        steps,
    })
}
