ghost use Rattle.std.specs.Prelude.{◌≡◌, ◌+◌, ◌<◌, ◌^◌, ℕ, suc, [], None, Some, Ok, length, IfOk, IfErr};
ghost use Rattle.mm_text.specs.declared.market.MarketRefused.TheVariants as refusals;
ghost use Rattle.mm_text.specs.Block.{is_above};
ghost use Rattle.mm_text.specs.Steps.{Passes, sizes_told, entry_inside, told, with_first, gathered_at, last_line};

use crate::codes::{ENTRY, RANGE, UPPER};
use crate::cursor::{Cursor, next_filled};
use crate::market::{Entry, Form, MarketFault, MarketRefused};
use crate::numbers::{code_without_numbers, index_up_to, three_numbers};
use crate::places::Listed;
use crate::sizes::SizeLine;
use std::alloc::Global;

// A shorter line than `1 1 1` is no entry, and each line but the last has a line feed.
const MIN_ENTRY_BYTES: usize = 6;

// The entry of three numbers, if it lies within the matrix.
fn entry_inside(sizes: SizeLine, numbers: &(i64, i64, i64)) -> Option<Entry>
    ensures { result ≡ entry_inside (sizes_told sizes) numbers.now }
{
    let (row, column, value) = *numbers;
    Some(Entry {
        row: index_up_to(sizes.rows, row)?,
        column: index_up_to(sizes.columns, column)?,
        value,
    })
}

// Whether an entry stands above the diagonal of a symmetric block.
fn is_above(form: Form, entry: Entry) -> bool
    ensures { result ≡ is_above form entry }
{
    match form {
        Form::General => false,
        Form::Symmetric => entry.row < entry.column,
    }
}

// The entry of a line with this number, or the rule that the line breaks on its own.
fn read_entry(form: Form, sizes: SizeLine, number: u64, line: &[u8]) -> Result<Listed, MarketFault>
    ensures { result ≡ told form (sizes_told sizes) (number, line.now) }
{
    let Some(numbers) = three_numbers(line) else {
        return Err(MarketFault {
            line: number,
            code: code_without_numbers(line, ENTRY),
        });
    };
    let Some(entry) = entry_inside(sizes, &numbers) else {
        return Err(MarketFault {
            line: number,
            code: RANGE,
        });
    };
    if is_above(form, entry) {
        return Err(MarketFault {
            line: number,
            code: UPPER,
        });
    }
    Ok(Listed {
        entry,
        line: number,
    })
}

// The entry of the next line that is not blank, and the place behind it.
fn next_entry(form: Form, sizes: SizeLine, from: Cursor) -> Result<(Listed, Cursor), MarketFault>
    requires { from.passed + length from.rest.now + 1 < 2 ^ 64 }
    ensures next { IfOk result (λ next. (n : ℕ) → gathered_at form (sizes_told sizes) (suc n) from.entry.passed from.entry.rest.now ≡ with_first (Ok next.0) (gathered_at form (sizes_told sizes) n next.1.passed next.1.rest.now)) }
    ensures line { IfOk result (λ next. next.0.line ≡ next.1.passed) }
    ensures passes { IfOk result (λ next. Passes from.entry.passed from.entry.rest.now next.1.passed next.1.rest.now) }
    ensures stop { IfErr result (λ fault. (n : ℕ) → gathered_at form (sizes_told sizes) (suc n) from.entry.passed from.entry.rest.now ≡ ([], Some fault)) }
{
    let (line, behind) = next_filled(from, false)?;
    let listed = read_entry(form, sizes, behind.passed, line)?;
    Ok((listed, behind))
}

// The entries of a block up to the first line that breaks a rule on its own or is missing, with that fault, and the place
// behind the last of them.
#[derive(Drop)]
pub(crate) struct Gathered<'a> {
    pub listed: Vec<Listed>,
    pub stop: Option<MarketFault>,
    pub end: Cursor<'a>,
}

// The entries of the next lines that are not blank, of which as many are to be there as the size line says. It takes
// memory for the lines that the text may have, and not for those that are only claimed.
pub(crate) fn read_entries(
    alloc: Global,
    form: Form,
    sizes: SizeLine,
    from: Cursor<'_>,
) -> Result<Gathered<'_>, MarketRefused>
    requires { from.passed + length from.rest.now + 1 < 2 ^ 64 }
    ensures entries { IfOk result (λ read. gathered_at form (sizes_told sizes) sizes.entries from.entry.passed from.entry.rest.now ≡ (read.listed.items, read.stop)) }
    ensures last { IfOk result (λ read. read.end.passed ≡ last_line from.entry.passed read.listed.items) }
    ensures passes { IfOk result (λ read. Passes from.entry.passed from.entry.rest.now read.end.passed read.end.rest.now) }
    ensures memory { IfErr result (λ refused. refused ≡ refusals.Memory) }
{
    let most = from.rest.len() / MIN_ENTRY_BYTES + 1;
    let mut listed = Vec::with_capacity(alloc, most.min(sizes.entries as usize))?;
    let mut at = from;
    for _ in 0..sizes.entries {
        match next_entry(form, sizes, at) {
            Ok((one, behind)) => {
                listed.push(one)?;
                at = behind;
            }
            Err(fault) => {
                return Ok(Gathered {
                    listed,
                    stop: Some(fault),
                    end: at,
                });
            }
        }
    }
    Ok(Gathered {
        listed,
        stop: None,
        end: at,
    })
}
