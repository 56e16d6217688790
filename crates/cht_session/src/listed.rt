ghost use Rattle.std.specs.Prelude.{◌≡◌, ◌≤◌, map, All, IfOk};
ghost use Rattle.chunk_codec.specs.Spots.{side_of};
ghost use Rattle.cht_script.specs.Reading.{IsGoodMarket, matrix_of_market};
ghost use Rattle.cht_script.specs.Statements.{is_symmetric as is_symmetric_form};
ghost use Rattle.cht_session.specs.Forms.{IsListIn};
ghost use Rattle.cht_session.specs.Listed.{most_listed, spot_in, IsCounted, HasSmallValue, place_of, ArePutInOrder};

use cht_ids::{List, Memory};
use mm_text::{Entry, Form, Market};
use quad_matrix::{Entries, Spot};
use std::alloc::Global;

// More than the greatest column.
const COLUMNS: u64 = 1 << 32;

/// The entries of a matrix that a script lists, as a list for a quadtree with leaf blocks of that side and so many levels
/// above them; `None` where there is no entry. Rows and columns of the matrix count from 1, those of the list from 0. A
/// symmetric matrix is listed on and below the diagonal, its list has the places on and above it. It takes one list of
/// its exact size, one pass, and for the symmetric form a sort; for want of memory nothing is left.
pub(crate) fn list_of(
    alloc: Global,
    leaf: u32,
    height: u32,
    market: &Market,
) -> Result<Option<Entries>, Memory>
    requires good { IsGoodMarket (most_listed (side_of leaf height)) market.now }
    requires leaf { 1 ≤ leaf }
    requires small { leaf ≤ 64 }
    requires height { height ≤ 16 }
    ensures { IfOk result (IsListIn market.now.form leaf height (matrix_of_market market.now)) }
{
    if market.entries.is_empty() {
        return Ok(None);
    }
    let mut spots = spots_of(alloc, market.form, market.entries.as_slice())?;
    put_in_order(market.form, &mut spots);
    Ok(Some(Entries {
        leaf,
        height,
        symmetric: is_symmetric(market.form),
        list: List::from_vec(spots),
    }))
}

// Whether a form is the symmetric one.
fn is_symmetric(form: Form) -> bool
    ensures { result ≡ is_symmetric_form form }
{
    match form {
        Form::General => false,
        Form::Symmetric => true,
    }
}

// The entries of a matrix in a form as those of a list, one after another.
fn spots_of(alloc: Global, form: Form, entries: &[Entry]) -> Result<Vec<Spot>, Memory>
    requires { All IsCounted entries.now }
    ensures moved { IfOk result (λ spots. spots.items ≡ map (spot_in form) entries.now) }
    ensures small { IfOk result (λ spots. All HasSmallValue spots.items) }
{
    let mut spots = Vec::with_capacity(alloc, entries.len())?;
    for entry in entries {
        spots.push_reserved(spot(form, entry));
    }
    Ok(spots)
}

// An entry with its row and column counted from 0, and exchanged in the symmetric form.
fn spot(form: Form, entry: &Entry) -> Spot
    requires { IsCounted entry.now }
    ensures moved { result ≡ spot_in form entry.now }
    ensures small { HasSmallValue result }
{
    match form {
        Form::General => Spot {
            row: entry.row - 1,
            column: entry.column - 1,
            value: entry.value,
        },
        Form::Symmetric => Spot {
            row: entry.column - 1,
            column: entry.row - 1,
            value: entry.value,
        },
    }
}

// The place of an entry as one number: it grows with the row, and within a row with the column.
fn place(spot: &Spot) -> u64
    ensures { result ≡ place_of spot.now }
{
    u64::from(spot.row) * COLUMNS + u64::from(spot.column)
}

// Puts the entries of a list in the order of their places, row by row. Those of a general matrix stand so already.
fn put_in_order(form: Form, spots: &mut Vec<Spot>)
    ensures { ArePutInOrder form spots.old.items spots.new.items }
{
    match form {
        Form::General => {}
        Form::Symmetric => spots.sort_unstable_by_key(place),
    }
}
