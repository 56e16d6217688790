ghost use Rattle.std.specs.Prelude.{◌≡◌, ◌+◌, ◌<◌, ◌^◌, [], ◌∷◌, length, IfSome, IfNone, IfOk, IfErr};
ghost use Rattle.mm_text.specs.Block.{is_note, is_empty_line, fault_at};
ghost use Rattle.mm_text.specs.Steps.{Passes, lines_behind, is_passed, from_line, line_after};

use crate::codes::CUT_SHORT;
use crate::lines::{next_line, next_word};
use crate::market::MarketFault;

// Where a reader stands between two lines: how many lines it has passed, and the text behind them.
#[derive(Clone, Copy)]
pub(crate) struct Cursor<'a> {
    pub passed: u64,
    pub rest: &'a [u8],
}

// The next line, and the place behind it.
pub(crate) fn cut_line(at: Cursor) -> Option<(&[u8], Cursor)>
    requires { at.passed + length at.rest.now < 2 ^ 64 }
    ensures line { IfSome result (λ cut. lines_behind at.entry.passed at.entry.rest.now ≡ (cut.1.passed, cut.0.now) ∷ lines_behind cut.1.passed cut.1.rest.now) }
    ensures passes { IfSome result (λ cut. Passes at.entry.passed at.entry.rest.now cut.1.passed cut.1.rest.now) }
    ensures shorter { IfSome result (λ cut. length cut.1.rest.now < length at.entry.rest.now) }
    ensures none { IfNone result (lines_behind at.entry.passed at.entry.rest.now ≡ []) }
{
    let (line, rest) = next_line(at.rest)?;
    Some((
        line,
        Cursor {
            passed: at.passed + 1,
            rest,
        },
    ))
}

// Whether a line is passed over: a blank one, and a comment where comments may stand.
fn is_passed(comments: bool, line: &[u8]) -> bool
    ensures { result ≡ is_passed comments line.now }
{
    comments && is_note(line) || is_empty_line(line)
}

fn is_note(line: &[u8]) -> bool
    ensures { result ≡ is_note line.now }
{
    matches!(line, [b'%', ..])
}

fn is_empty_line(line: &[u8]) -> bool
    ensures { result ≡ is_empty_line line.now }
{
    next_word(line).is_none()
}

// The next line that is not passed over, and the place behind it; else the fault that the text ends before it.
pub(crate) fn next_filled(from: Cursor, comments: bool) -> Result<(&[u8], Cursor), MarketFault>
    requires { from.passed + length from.rest.now + 1 < 2 ^ 64 }
    ensures line { IfOk result (λ cut. from_line comments (lines_behind from.entry.passed from.entry.rest.now) ≡ (cut.1.passed, cut.0.now) ∷ lines_behind cut.1.passed cut.1.rest.now) }
    ensures passes { IfOk result (λ cut. Passes from.entry.passed from.entry.rest.now cut.1.passed cut.1.rest.now) }
    ensures none { IfErr result (λ fault. from_line comments (lines_behind from.entry.passed from.entry.rest.now) ≡ []) }
    ensures end { IfErr result (λ fault. fault ≡ fault_at (line_after from.entry.passed from.entry.rest.now) 13) }
{
    let mut at = from;
    while let Some((line, behind)) = cut_line(at) {
        if !is_passed(comments, line) {
            return Ok((line, behind));
        }
        at = behind;
    }
    Err(MarketFault {
        line: at.passed + 1,
        code: CUT_SHORT,
    })
}
