ghost use Rattle.std.specs.Prelude.{◌≡◌, [], IfOk, IfErr};
ghost use Rattle.mm_text.specs.declared.market.MarketRefused.TheVariants as refusals;
ghost use Rattle.mm_text.specs.Block.{fault_at};
ghost use Rattle.mm_text.specs.Places.{AreListed, first_repeat, fault_before};
ghost use Rattle.mm_text.specs.Reading.{IsBlockRead, IsBlockRefused, IsPlaced};

use crate::codes::REPEATED;
use crate::entries::{Gathered, read_entries};
use crate::head::read_head;
use crate::market::{Market, MarketFault, MarketRead, MarketRefused};
use crate::places::{Listed, are_apart, numbers, sort_by_place};
use crate::sizes::SizeLine;
use cht_ids::List;
use std::alloc::Global;

// The fault of a line that names a place twice.
fn repeated(line: u64) -> MarketFault
    ensures { result ≡ fault_at line 11 }
{
    MarketFault {
        line,
        code: REPEATED,
    }
}

// The first fault of a block, of which these entries were read before a line that breaks a rule on its own: the first repeat among
// them, else that one. Where no place is named twice, which is most often so, the places alone are sorted.
fn first_fault(
    alloc: Global,
    sizes: SizeLine,
    listed: Vec<Listed>,
    stop: MarketFault,
) -> Result<MarketFault, MarketRefused>
    requires { AreListed 0 listed.items }
    ensures fault { IfOk result (λ fault. fault ≡ fault_before stop (first_repeat [] listed.items)) }
    ensures memory { IfErr result (λ refused. refused ≡ refusals.Memory) }
{
    let apart = are_apart(alloc, &listed, sizes.rows, sizes.columns)?;
    if apart {
        return Ok(stop);
    }
    let mut listed = listed;
    match sort_by_place(&mut listed) {
        Some(line) => Ok(repeated(line)),
        None => Ok(stop),
    }
}

/// Reads the block at the front of the bytes: a banner in any ASCII case, the line `rows columns entries`, and that many
/// lines `row column value`. A line feed ends each line, or a carriage return and a line feed; the last line may end
/// without. Words stand between spaces and tabs. Comments, which begin with `%`, may stand between the banner and the
/// size line, and blank lines anywhere behind the banner.
///
/// Rows and columns lie from 1 to the grid. Entries come in any order and name no place twice; zeros count as entries
/// and are dropped. A symmetric block is square, and lists places on or below the diagonal. The entries that are
/// answered count from 1 and stand by row and then by column; those of a symmetric block stay on and below the diagonal.
/// Lines and bytes are counted up to the last entry line, or the size line where there is none, with its line feed.
///
/// A fault is the first line that breaks a rule, counted from 1 at the banner, with the least code there.
pub fn read_market(alloc: Global, bytes: &[u8], grid: u32) -> Result<MarketRead, MarketRefused>
    ensures found { IfOk result (λ read. IsBlockRead grid bytes.now read) }
    ensures fault { IfErr result (λ refused. IsBlockRefused grid bytes.now refused) }
    ensures line { IfErr result (λ refused. IsPlaced bytes.now refused) }
{
    let head = read_head(grid, bytes)?;
    let Gathered {
        mut listed,
        stop,
        end,
    } = read_entries(alloc, head.form, head.sizes, head.behind)?;
    if let Some(fault) = stop {
        let first = first_fault(alloc, head.sizes, listed, fault)?;
        return Err(MarketRefused::Fault(first));
    }
    if let Some(line) = sort_by_place(&mut listed) {
        return Err(MarketRefused::Fault(repeated(line)));
    }
    let entries = numbers(alloc, &listed)?;
    Ok(MarketRead {
        market: Market {
            form: head.form,
            rows: head.sizes.rows,
            columns: head.sizes.columns,
            entries: List::from_vec(entries),
        },
        lines: end.passed,
        bytes: (bytes.len() - end.rest.len()) as u64,
    })
}
