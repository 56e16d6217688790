// Lists of entries as blocks: the parts of a list by quadrant, and the leaf block of a list.
ghost use Rattle.std.specs.Prelude.{◌≡◌, ◌-◌, ◌*◌, ◌^◌, ◌<◌, ◌≤◌, true, false, [], ◌∷◌, ◌++◌, IfOk, OnOk};
ghost use Rattle.chunk_codec.specs.Spots.{side_of};
ghost use Rattle.quad_matrix.specs.Spots.{AreSoundEntries, block_of_spots, mirrored_block};
ghost use Rattle.quad_matrix.specs.Quarters.{quarters_of, followed};
ghost use Rattle.quad_matrix.specs.Portions.{listed, is_mirrored, takes_mirrored, portions_of};

use crate::chunk::{Entries, MatChunk};
use crate::kind::What;
use cht_ids::{List, Memory};
use chunk_codec::Spot;
use leaf_blocks::kernels::triangle_index;
use leaf_blocks::{Leaf, SymLeaf};
use std::alloc::Global;
use task_plans::{Part, Portions};

// The entries of the four quadrants of a block. Rows and columns of each list count from 0 at the corner of its quadrant.
#[derive(Drop)]
struct Quarters {
    // Quadrant 0.
    upper_left: List<Spot>,
    // Quadrant 1.
    upper_right: List<Spot>,
    // Quadrant 2.
    lower_left: List<Spot>,
    // Quadrant 3.
    lower_right: List<Spot>,
}

/// The portions of a list of entries that some parts of a plan take: for each quadrant its entries, relative to its corner, as the
/// list of a block one level below. For want of memory no list is left.
pub fn portions(
    alloc: Global,
    entries: &Entries,
    parts: &[Part<What>],
) -> Result<Portions<MatChunk>, Memory>
    requires leaf { entries.now.leaf ≤ 64 }
    requires low { 1 ≤ entries.now.height }
    requires high { entries.now.height ≤ 16 }
    ensures { IfOk result (λ portions. portions ≡ portions_of entries.now parts.now) }
{
    let (leaf, height) = (entries.leaf, entries.height - 1);
    let quarters = split(alloc, entries)?;
    Ok(Portions {
        first: listed(leaf, height, is_mirrored(parts, 0), quarters.upper_left),
        second: listed(leaf, height, is_mirrored(parts, 1), quarters.upper_right),
        third: listed(leaf, height, is_mirrored(parts, 2), quarters.lower_left),
        fourth: listed(leaf, height, is_mirrored(parts, 3), quarters.lower_right),
    })
}

// A list of entries as a content, if it has one.
fn listed(leaf: u32, height: u32, symmetric: bool, list: List<Spot>) -> Option<MatChunk>
    ensures { result ≡ listed leaf height symmetric list }
{
    if list.is_empty() {
        return None;
    }
    Some(MatChunk::Entries(Entries {
        leaf,
        height,
        symmetric,
        list,
    }))
}

// Whether some part takes a portion as the upper triangle of a symmetric block.
fn is_mirrored(parts: &[Part<What>], quadrant: u8) -> bool
    ensures { result ≡ is_mirrored parts.now quadrant }
{
    parts.iter().any(|part| takes_mirrored(part, quadrant))
}

fn takes_mirrored(part: &Part<What>, quadrant: u8) -> bool
    ensures { result ≡ takes_mirrored quadrant part.now }
{
    match part {
        Part::Portion {
            number,
            symmetric,
            ..
        } => *number == quadrant && *symmetric,
        Part::Itself { .. } | Part::Alone(_) | Part::Either { .. } | Part::Pair { .. } => false,
    }
}

// The entries of a block by quadrant, each list in the order of the whole. It takes one pass, and the lists grow as they fill.
// For want of memory no list is left.
fn split(alloc: Global, entries: &Entries) -> Result<Quarters, Memory>
    requires leaf { entries.now.leaf ≤ 64 }
    requires low { 1 ≤ entries.now.height }
    requires high { entries.now.height ≤ 16 }
    ensures { IfOk result (λ quarters. quarters
        ≡ quarters_of (side_of entries.now.leaf (entries.now.height - 1)) entries.now.list) }
{
    let half = side(entries.leaf, entries.height - 1);
    let mut quarters = Quarters::new(alloc);
    for spot in entries.list.as_slice() {
        quarters.push(half, *spot)?;
    }
    Ok(quarters)
}

/// The leaf block of a list of entries: their values at their places, and 0 elsewhere.
pub fn leaf_block(alloc: Global, entries: &Entries) -> Result<Leaf, Memory>
    requires { AreSoundEntries entries.now.leaf 0 false entries.now }
    ensures { IfOk result (λ block. block ≡ block_of_spots entries.now.leaf entries.now.list) }
{
    let side = entries.leaf as usize;
    let mut numbers = Vec::from_elem(alloc, 0, side * side)?;
    for spot in entries.list.as_slice() {
        numbers[spot.row as usize * side + spot.column as usize] = i128::from(spot.value);
    }
    Ok(Leaf::new(entries.leaf, List::from_vec(numbers)))
}

/// The symmetric leaf block of the list of its upper triangle: the values at their places and at those with row and column exchanged,
/// and 0 elsewhere.
pub fn symmetric_leaf_block(alloc: Global, entries: &Entries) -> Result<SymLeaf, Memory>
    requires { AreSoundEntries entries.now.leaf 0 true entries.now }
    ensures { IfOk result (λ block. block ≡ mirrored_block entries.now.leaf entries.now.list) }
{
    let side = entries.leaf;
    let count = side as usize * (side as usize + 1) / 2;
    let mut numbers = Vec::from_elem(alloc, 0, count)?;
    for spot in entries.list.as_slice() {
        numbers[triangle_index(side, spot.row, spot.column)] = i128::from(spot.value);
    }
    Ok(SymLeaf::new(side, List::from_vec(numbers)))
}

// The side of a block with that many levels above its leaves.
fn side(leaf: u32, height: u32) -> u32
    requires small { leaf ≤ 64 }
    requires low { height ≤ 16 }
    ensures { result ≡ side_of leaf height }
{
    leaf << height
}

impl Quarters {
    // No entries.
    fn new(alloc: Global) -> Quarters
        ensures { result ≡ quarters_of 0 [] }
    {
        Quarters {
            upper_left: List::new(alloc),
            upper_right: List::new(alloc),
            lower_left: List::new(alloc),
            lower_right: List::new(alloc),
        }
    }

    // Adds an entry at the end of the list of its quadrant.
    fn push(&mut self, half: u32, spot: Spot) -> Result<(), Memory>
        ensures { OnOk result (self.new ≡ followed self.old (quarters_of half (spot ∷ []))) }
    {
        match (spot.row >= half, spot.column >= half) {
            (false, false) => add(&mut self.upper_left, spot, 0, 0),
            (false, true) => add(&mut self.upper_right, spot, 0, half),
            (true, false) => add(&mut self.lower_left, spot, half, 0),
            (true, true) => add(&mut self.lower_right, spot, half, half),
        }
    }
}

// Adds an entry at the end of a list, relative to the corner of a quadrant.
fn add(list: &mut List<Spot>, spot: Spot, top: u32, left: u32) -> Result<(), Memory>
    requires below { top ≤ spot.row }
    requires right { left ≤ spot.column }
    ensures { OnOk result (list.new
        ≡ list.old ++ record { row = spot.row - top; column = spot.column - left; value = spot.value } ∷ []) }
{
    let moved = Spot {
        row: spot.row - top,
        column: spot.column - left,
        value: spot.value,
    };
    list.push(moved).map_err(|_| Memory)
}
