ghost use Rattle.std.specs.Prelude.{◌≡◌, None, Some, Ok, Err, MatchOption, MatchResult};
ghost use Rattle.mm_text.specs.Block.{sizes_from, sizes_in};
ghost use Rattle.mm_text.specs.Steps.{sizes_told, fits_form};

use crate::codes::SIZES;
use crate::market::{Form, MarketFault};
use crate::numbers::{code_without_numbers, index_up_to, three_numbers};

// What a size line says.
#[derive(Clone, Copy)]
pub(crate) struct SizeLine {
    pub rows: u32,
    pub columns: u32,
    pub entries: u64,
}

// What a size line with this number says, for a block in this form.
pub(crate) fn read_sizes(
    grid: u32,
    form: Form,
    number: u64,
    line: &[u8],
) -> Result<SizeLine, MarketFault>
    ensures { MatchResult result (λ sizes. sizes_in grid form (number, line.now) ≡ Ok (sizes_told sizes)) (λ fault. sizes_in grid form (number, line.now) ≡ Err fault) }
{
    let Some(numbers) = three_numbers(line) else {
        return Err(MarketFault {
            line: number,
            code: code_without_numbers(line, SIZES),
        });
    };
    let Some(sizes) = sizes_of(grid, form, &numbers) else {
        return Err(MarketFault {
            line: number,
            code: SIZES,
        });
    };
    Ok(sizes)
}

// The sizes of a block in this form, if they fit it and the grid.
fn sizes_of(grid: u32, form: Form, numbers: &(i64, i64, i64)) -> Option<SizeLine>
    ensures { MatchOption result (sizes_from grid form numbers.now ≡ None) (λ sizes. sizes_from grid form numbers.now ≡ Some (sizes_told sizes)) }
{
    let (rows, columns, entries) = *numbers;
    let rows = index_up_to(grid, rows)?;
    let columns = index_up_to(grid, columns)?;
    if !fits_form(form, rows, columns) {
        return None;
    }
    let entries = u64::try_from(entries).ok()?;
    let places = u64::from(rows) * u64::from(columns);
    (entries <= places).then_some(SizeLine {
        rows,
        columns,
        entries,
    })
}

// Whether a matrix of this shape can have this form.
fn fits_form(form: Form, rows: u32, columns: u32) -> bool
    ensures { result ≡ fits_form form rows columns }
{
    match form {
        Form::General => true,
        Form::Symmetric => rows == columns,
    }
}
