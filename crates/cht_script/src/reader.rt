ghost use Rattle.std.specs.Prelude.{◌≡◌, ◌+◌, ◌≤◌, ◌^◌, ℕ, List, [], ◌∷◌, ◌++◌, true, None, Some, length, IfOk, OnOk};
ghost use Rattle.mm_text.specs.Lines.{lines_of, words_of};
ghost use Rattle.mm_text.specs.Reading.{IsBlockRead};
ghost use Rattle.cht_script.specs.Words.{is_name};
ghost use Rattle.cht_script.specs.Statements.{said_in, Market, Act};
ghost use Rattle.cht_script.specs.Items.{Item};
ghost use Rattle.cht_script.specs.Reading.{name_bytes};
ghost use Rattle.cht_script.specs.Steps.{words_told, code_for};
ghost use Rattle.cht_script.specs.Progress.{Reads, IsTaken, HasRoom, HasPlace, IsReadTo, HasPassed, IsReadBehind};

use crate::heading::Heading;
use crate::script::{Begun, Fault, Name, Statement, Verb};
use crate::statement::{Said, Words, said_in};
use crate::words::is_skipped;
use cht_ids::{List, Memory};
use mm_text::{MarketRead, MarketRefused, is_text, next_line, read_market};
use std::alloc::Global;

/// Where a reader stopped: the fault of a line, and the line `market NAME` in whose block it stands.
#[derive(Clone, Copy)]
pub(crate) struct Stop {
    pub begun: Option<Begun>,
    pub fault: Fault,
}

/// What was read behind a heading: the statements before the first line that breaks a rule on lines, and where that is.
#[derive(Drop)]
pub(crate) struct Reading {
    pub statements: List<Statement>,
    pub stop: Option<Stop>,
}

// How far a script is read: the text behind the lines that were read, how many these are, and their statements.
#[derive(Drop)]
struct Reader<'a> {
    grid: u32,
    rest: &'a [u8],
    lines: u64,
    statements: List<Statement>,
}

impl<'a> Reader<'a> {
    // Adds a statement.
    fn add(&mut self, statement: Statement) -> Result<(), Memory>
        ensures { OnOk result (self.new ≡ record self.old { statements = self.old.statements ++ statement ∷ [] }) }
    {
        if self.statements.push(statement).is_err() {
            return Err(Memory);
        }
        Ok(())
    }

    // The stop at the line that was counted last, which breaks the rule with this code, or has other bytes than text.
    fn stop_at(&self, line: &[u8], code: u32) -> Stop
        ensures { result ≡ record { begun = None; fault = record { line = self.now.lines; code = code_for line.now code } } }
    {
        let code = if is_text(line) { code } else { 2 };
        Stop {
            begun: None,
            fault: Fault {
                line: self.lines,
                code,
            },
        }
    }

    // Reads a line that says a statement with a verb.
    fn read_act(
        &mut self,
        line: &'a [u8],
        verb: Verb,
        words: Words<'a>,
    ) -> Result<Option<Stop>, Memory>
        requires said { said_in (words_of line.now) ≡ Some (Act verb (words_told words)) }
        requires room { HasRoom self.old }
        ensures { IfOk result (Reads line.now self.old self.new) }
    {
        let Some(names) = words.names() else {
            return Ok(Some(self.stop_at(line, 6)));
        };
        if !is_text(line) {
            return Ok(Some(self.stop_at(line, 2)));
        }
        self.add(Statement::Act {
            line: self.lines,
            verb,
            names,
        })?;
        Ok(None)
    }

    // Reads the block behind a line that says `market` and this word, which is a name.
    fn read_block(
        &mut self,
        alloc: Global,
        word: &'a [u8],
        to: Name,
    ) -> Result<Option<Stop>, Memory>
        requires named { (is_name word.now ≡ true) × (name_bytes to ≡ word.now) }
        requires room { HasRoom self.old }
        ensures { IfOk result (λ stop. (line : List ℕ) → said_in (words_of line) ≡ Some (Market (word.now ∷ [])) → Reads line self.old self.new stop) }
    {
        match read_market(alloc, self.rest, self.grid) {
            Err(MarketRefused::Memory) => Err(Memory),
            Err(MarketRefused::Fault(fault)) => Ok(Some(Stop {
                begun: Some(Begun {
                    line: self.lines,
                    to,
                }),
                fault: Fault {
                    line: self.lines + fault.line,
                    code: fault.code,
                },
            })),
            Ok(read) => {
                self.take_block(word, to, read)?;
                Ok(None)
            }
        }
    }

    // Adds the statement that binds a name to the matrix of a block, and goes behind the block.
    fn take_block(&mut self, word: &'a [u8], to: Name, read: MarketRead) -> Result<(), Memory>
        requires named { (is_name word.now ≡ true) × (name_bytes to ≡ word.now) }
        requires read { IsBlockRead self.old.grid self.old.rest.now read }
        requires room { HasRoom self.old }
        ensures { OnOk result ((line : List ℕ) → said_in (words_of line) ≡ Some (Market (word.now ∷ [])) → IsTaken line self.old self.new) }
    {
        let _ = word;
        let MarketRead {
            market,
            lines,
            bytes,
        } = read;
        self.add(Statement::Market {
            line: self.lines,
            to,
            market,
        })?;
        self.lines += lines;
        self.rest = &self.rest[bytes as usize..];
        Ok(())
    }

    // Reads a line that is not skipped, and its block if it has one.
    fn read_line(&mut self, alloc: Global, line: &'a [u8]) -> Result<Option<Stop>, Memory>
        requires { HasRoom self.old }
        ensures { IfOk result (Reads line.now self.old self.new) }
    {
        match said_in(line) {
            None => Ok(Some(self.stop_at(line, 4))),
            Some(Said::Act(verb, words)) => self.read_act(line, verb, words),
            Some(Said::Market(word)) => match Name::of(word) {
                None => Ok(Some(self.stop_at(line, 6))),
                Some(to) => self.read_block(alloc, word, to),
            },
        }
    }

    // Goes behind the first line of what is left, and its block if it has one.
    fn pass(
        &mut self,
        alloc: Global,
        line: &'a [u8],
        behind: &'a [u8],
    ) -> Result<Option<Stop>, Memory>
        requires cut { lines_of self.old.rest.now ≡ line.now ∷ lines_of behind.now }
        requires place { HasPlace self.old }
        ensures passed { IfOk result (λ stop. (items : List Item) → IsReadTo items self.old → HasPassed items self.new stop) }
        ensures grid { IfOk result (λ stop. self.new.grid ≡ self.old.grid) }
        ensures few { IfOk result (λ stop. length self.new.statements ≤ 2 ^ 26) }
        ensures place { IfOk result (λ stop. stop ≡ None → HasPlace self.new) }
        ensures shorter { IfOk result (λ stop. stop ≡ None → length self.new.rest.now ≤ length behind.now) }
    {
        self.rest = behind;
        self.lines += 1;
        if is_skipped(line) {
            return Ok(None);
        }
        self.read_line(alloc, line)
    }
}

/// Reads the statements behind a heading.
pub(crate) fn read_statements(alloc: Global, heading: Heading<'_>) -> Result<Reading, Memory>
    requires { heading.line + length heading.rest.now ≤ 2 ^ 26 }
    ensures { IfOk result (IsReadBehind heading.entry) }
{
    let mut reader = Reader {
        grid: heading.grid,
        rest: heading.rest,
        lines: heading.line,
        statements: List::new(alloc),
    };
    while let Some((line, behind)) = next_line(reader.rest) {
        let stop = reader.pass(alloc, line, behind)?;
        if stop.is_some() {
            return Ok(Reading {
                statements: reader.statements,
                stop,
            });
        }
    }
    Ok(Reading {
        statements: reader.statements,
        stop: None,
    })
}
