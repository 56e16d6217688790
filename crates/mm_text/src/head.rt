ghost use Rattle.std.specs.Prelude.{◌≡◌, ◌+◌, ◌<◌, ◌^◌, Err, length, IfOk, IfErr};
ghost use Rattle.mm_text.specs.Lines.{lines_of};
ghost use Rattle.mm_text.specs.Block.{block_in};
ghost use Rattle.mm_text.specs.Steps.{Passes, IsHead, sizes_told};

use crate::banner::read_banner;
use crate::codes::CUT_SHORT;
use crate::cursor::{Cursor, cut_line, next_filled};
use crate::market::{Form, MarketFault};
use crate::sizes::{SizeLine, read_sizes};

// What the first lines of a block say, and the place behind the size line.
#[derive(Clone, Copy)]
pub(crate) struct Head<'a> {
    pub form: Form,
    pub sizes: SizeLine,
    pub behind: Cursor<'a>,
}

// What the banner and the size line of a block say, and the place behind them.
pub(crate) fn read_head(grid: u32, bytes: &[u8]) -> Result<Head, MarketFault>
    ensures fault { IfErr result (λ fault. block_in grid (lines_of bytes.now) ≡ Err fault) }
    ensures head { IfOk result (λ head. IsHead grid (lines_of bytes.now) head.form (sizes_told head.sizes) head.behind.passed head.behind.rest.now) }
    ensures narrow { IfOk result (λ head. head.sizes.columns < 2 ^ 32) }
    ensures passes { IfOk result (λ head. Passes 0 bytes.now head.behind.passed head.behind.rest.now) }
{
    let start = Cursor {
        passed: 0,
        rest: bytes,
    };
    let Some((banner, behind_banner)) = cut_line(start) else {
        return Err(MarketFault {
            line: 1,
            code: CUT_SHORT,
        });
    };
    let form = read_banner(banner)?;
    let (line, behind) = next_filled(behind_banner, true)?;
    let sizes = read_sizes(grid, form, behind.passed, line)?;
    Ok(Head {
        form,
        sizes,
        behind,
    })
}
