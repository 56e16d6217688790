ghost use Rattle.std.specs.Prelude.{◌≡◌, ◌+◌, ◌*◌, ◌^◌, ◌<◌, ◌≤◌, ℕ, List, [], get_or, length, nat_lt, true, false, None, IfOk, IfErr, IsPermutation};
ghost use Rattle.std.specs.List.{filter};
ghost use Rattle.mm_text.specs.declared.market.MarketRefused.TheVariants as refusals;
ghost use Rattle.mm_text.specs.Places.{AreListed, all_marked, are_rising, entries_of, is_shared, places_of, slot_of, with_mark, first_repeat, least_repeat, place_of, rank_of, rise, is_number, sooner};

use crate::market::{Entry, MarketRefused};
use std::alloc::Global;

// An entry with the number of its line.
#[derive(Clone, Copy)]
pub(crate) struct Listed {
    pub entry: Entry,
    pub line: u64,
}

// More than the greatest column.
const COLUMNS: u64 = 1 << 32;

// More than the greatest number of a line.
const LINES: u128 = 1 << 64;

// The place of an entry as one number: it grows with the row, and within a row with the column.
fn place(entry: &Entry) -> u64
    ensures { result ≡ place_of entry.now }
{
    u64::from(entry.row) * COLUMNS + u64::from(entry.column)
}

// The place and the line as one number: it grows with the place, and at one place with the line.
fn rank(one: &Listed) -> u128
    ensures { result ≡ rank_of one.now }
{
    rank_at(place(&one.entry), one.line)
}

fn rank_at(place: u64, line: u64) -> u128
    ensures { result ≡ place * 2 ^ 64 + line }
{
    u128::from(place) * LINES + u128::from(line)
}

// The lesser line of one that was found before and another.
fn sooner(found: Option<u64>, line: u64) -> Option<u64>
    ensures { result ≡ sooner found line }
{
    match found {
        Some(before) => Some(before.min(line)),
        None => Some(line),
    }
}

// The least line of those that name the place of their neighbour before.
fn least_repeat(listed: &[Listed]) -> Option<u64>
    ensures { result ≡ least_repeat None listed.now }
{
    let mut rest = listed;
    let mut found = None;
    while let [one, next, ..] = rest {
        if place(&one.entry) == place(&next.entry) {
            found = sooner(found, next.line);
        }
        rest = &rest[1..];
    }
    found
}

// Puts the entries of a text in order, row by row and within a row by rising column, and answers the line of the first that
// names the place of one before it in the text. It takes one pass where they are in order.
pub(crate) fn sort_by_place(listed: &mut Vec<Listed>) -> Option<u64>
    requires { AreListed 0 listed.old.items }
    ensures same { IsPermutation listed.old.items listed.new.items }
    ensures repeat { result ≡ first_repeat [] listed.old.items }
    ensures rising { result ≡ None → rise (entries_of listed.new.items) ≡ true }
{
    listed.sort_unstable_by_key(rank);
    least_repeat(listed)
}

// How many slots a table has for so many entries: one for each place where the matrix is small, and else some eight an entry.
fn slots_for(entries: usize, rows: u32, width: u64) -> u64
    requires { width ≤ 2 ^ 32 }
    ensures some { 0 < result }
    ensures few { result ≤ 2 ^ 44 }
{
    let places = u64::from(rows) * width;
    let most = (entries as u64).min(1 << 40) * 8 + 64;
    places.min(most).max(1)
}

// The number of a place, counted along rows of this width.
fn number_in(width: u64, row: u32, column: u32) -> u64
    requires { width ≤ 2 ^ 32 }
    ensures { result ≡ row * width + column }
{
    u64::from(row) * width + u64::from(column)
}

// The slot of an entry in a table of so many.
fn slot(slots: u64, width: u64, one: &Listed) -> usize
    requires some { 0 < slots }
    requires width { width ≤ 2 ^ 32 }
    ensures value { result ≡ slot_of slots width one.now }
    ensures within { result < slots }
{
    let Listed { entry, .. } = *one;
    (number_in(width, entry.row, entry.column) % slots) as usize
}

// Marks one more entry at a slot, and answers whether one was marked there before.
fn mark(marks: &mut Vec<u8>, slot: usize) -> bool
    requires { slot < length marks.old.items }
    ensures marks { marks.new.items ≡ with_mark marks.old.items slot }
    ensures before { result ≡ nat_lt 0 (get_or marks.old.items slot 0) }
{
    let before = marks[slot];
    marks[slot] = (before.min(1) + 1).min(2);
    before > 0
}

// A table in which each entry is marked at its slot, and whether one was marked where another was before.
fn mark_all(
    alloc: Global,
    listed: &[Listed],
    slots: u64,
    width: u64,
) -> Result<(Vec<u8>, bool), MarketRefused>
    requires some { 0 < slots }
    requires width { width ≤ 2 ^ 32 }
    ensures len { IfOk result (λ made. length made.0.items ≡ slots) }
    ensures marks { IfOk result (λ made. (first : List ℕ) × (length first ≡ slots) × ((i : ℕ) → get_or first i 0 ≤ 2) × (made.0.items ≡ all_marked (slot_of slots width) first listed.now)) }
    ensures once { IfOk result (λ made. made.1 ≡ false → (i : ℕ) → get_or made.0.items i 0 ≤ 1) }
    ensures memory { IfErr result (λ refused. refused ≡ refusals.Memory) }
{
    let mut marks = vec![in alloc; 0u8; slots as usize]?;
    let mut again = false;
    let mut rest = listed;
    while let Some((one, behind)) = rest.split_first() {
        let before = mark(&mut marks, slot(slots, width, one));
        again = again || before;
        rest = behind;
    }
    Ok((marks, again))
}

// The places of the entries whose slot is that of another one too.
fn shared_places(
    alloc: Global,
    listed: &[Listed],
    marks: &[u8],
    slots: u64,
    width: u64,
) -> Result<Vec<u64>, MarketRefused>
    requires some { 0 < slots }
    requires width { width ≤ 2 ^ 32 }
    requires len { length marks.now ≡ slots }
    ensures places { IfOk result (λ places. places.items ≡ places_of (filter (is_shared (slot_of slots width) marks.now) listed.now)) }
    ensures memory { IfErr result (λ refused. refused ≡ refusals.Memory) }
{
    let mut places = Vec::new(alloc);
    for one in listed {
        if marks[slot(slots, width, one)] == 2 {
            places.push(place(&one.entry))?;
        }
    }
    Ok(places)
}

// Whether each number is greater than the one before.
fn are_rising(numbers: &[u64]) -> bool
    ensures { result ≡ are_rising numbers.now }
{
    let mut rest = numbers;
    while let [one, next, ..] = rest {
        if *next <= *one {
            return false;
        }
        rest = &rest[1..];
    }
    true
}

// Whether no two entries name one place. Each is marked at a slot that hangs on its place alone, and only the places of those that share
// a slot are sorted, which are few.
pub(crate) fn are_apart(
    alloc: Global,
    listed: &[Listed],
    rows: u32,
    columns: u32,
) -> Result<bool, MarketRefused>
    ensures apart { IfOk result (λ apart. apart ≡ true → first_repeat [] listed.now ≡ None) }
    ensures memory { IfErr result (λ refused. refused ≡ refusals.Memory) }
{
    let width = u64::from(columns) + 1;
    let slots = slots_for(listed.len(), rows, width);
    let (marks, again) = mark_all(alloc, listed, slots, width)?;
    if !again {
        return Ok(true);
    }
    let mut places = shared_places(alloc, listed, &marks, slots, width)?;
    places.sort_unstable();
    Ok(are_rising(&places))
}

// The entries whose values are not 0.
pub(crate) fn numbers(alloc: Global, listed: &[Listed]) -> Result<Vec<Entry>, MarketRefused>
    ensures entries { IfOk result (λ entries. entries.items ≡ filter is_number (entries_of listed.now)) }
    ensures memory { IfErr result (λ refused. refused ≡ refusals.Memory) }
{
    let mut entries = Vec::with_capacity(alloc, listed.len())?;
    for one in listed {
        if one.entry.value != 0 {
            entries.push(one.entry)?;
        }
    }
    Ok(entries)
}
