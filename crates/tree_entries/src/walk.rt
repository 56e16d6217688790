ghost use Rattle.std.specs.Prelude.{◌≡◌, ◌+◌, ◌-◌, ◌^◌, ◌<◌, ◌≤◌, length, IfOk, OnOk};
ghost use Rattle.cht_ids.specs.declared.refs.Ref.TheVariants.{Id as Held};
ghost use Rattle.cht_engine.specs.Seen.{Holds, MayMention, tree_named};
ghost use Rattle.task_types.specs.Tree.{child};
ghost use Rattle.tree_entries.specs.BlockTrees.{tree_reached};
ghost use Rattle.tree_entries.specs.Strips.{only_in, IsGathered, part, quadrants_part, symmetric_part, upper_child, lower_child, levels_in, levels_of, AreLevels, IsPlaced, IsPlacedNode, AreStripsOf};

use crate::piece::Piece;
use crate::place::Place;
use crate::strips::{Strip, Strips, empty_strips, leaf_side, put};
use cht_engine::Engine;
use cht_ids::{Id, Memory, Ref};
use matrix_library::MatLib;
use quad_matrix::MatChunk;
use std::alloc::Global;
use task_types::Shared;

/// The strips of the block that a reference names.
///
/// Each node and each leaf of the tree is looked at once, the root twice, and so is each child of a node where nothing is.
pub(crate) fn strips_of<E: Engine<MatLib>>(
    alloc: Global,
    engine: &mut E,
    ctx: &mut E::Context,
    r: Ref,
) -> Result<Strips, Memory>
    requires held { MayMention (E.seen engine.old) r }
    requires levels { AreLevels (tree_named (E.seen engine.old) r) }
    ensures strips { IfOk result (AreStripsOf (tree_named (E.seen engine.old) r)) }
    ensures unchanged { E.seen engine.new ≡ E.seen engine.old }
{
    match r {
        Ref::Null => Ok(Strips {
            side: 0,
            strips: Vec::new(alloc),
        }),
        Ref::Id(id) => strips_below(alloc, engine, ctx, id),
    }
}

// The same of the block that an identifier names.
fn strips_below<E: Engine<MatLib>>(
    alloc: Global,
    engine: &mut E,
    ctx: &mut E::Context,
    id: Id,
) -> Result<Strips, Memory>
    requires held { Holds (E.seen engine.old) id }
    requires levels { AreLevels (tree_named (E.seen engine.old) (Held id)) }
    ensures strips { IfOk result (AreStripsOf (tree_named (E.seen engine.old) (Held id))) }
    ensures unchanged { E.seen engine.new ≡ E.seen engine.old }
{
    let height = height_of(engine, ctx, id)?;
    let mut strips = empty_strips(alloc, leaves_across(height))?;
    let mut path = Vec::new(alloc);
    let at = Place {
        above: 0,
        left: 0,
        turned: false,
    };
    gather(engine, ctx, id, &mut path, at, &mut strips)?;
    let side = leaf_side(&strips);
    Ok(Strips { side, strips })
}

// How many levels the root of a tree tells.
fn height_of<E: Engine<MatLib>>(engine: &mut E, ctx: &mut E::Context, id: Id) -> Result<u32, Memory>
    requires held { Holds (E.seen engine.old) id }
    ensures value { IfOk result (λ height. height ≡ levels_of (tree_named (E.seen engine.old) (Held id))) }
    ensures unchanged { E.seen engine.new ≡ E.seen engine.old }
{
    match engine.look(ctx, id, &[])? {
        Some(content) => Ok(levels_told(content.get())),
        None => Ok(0),
    }
}

// How many levels a content tells.
fn levels_told(content: &MatChunk) -> u32
    ensures { result ≡ levels_in content.now }
{
    match content {
        MatChunk::Node { height, .. } => *height,
        MatChunk::SymNode { height, .. } => *height,
        MatChunk::Leaf(_) => 0,
        MatChunk::SymLeaf(_) => 0,
        MatChunk::Entries(_) => 0,
        MatChunk::Num(_) => 0,
    }
}

// Adds the pieces of the tree that a path of child numbers leads to, to the strips that they stand in.
#[cycle(tree)]
fn gather<E: Engine<MatLib>>(
    engine: &mut E,
    ctx: &mut E::Context,
    id: Id,
    path: &mut Vec<u8>,
    at: Place,
    strips: &mut Vec<Strip>,
) -> Result<(), Memory>
    requires held { Holds (E.seen engine.old) id }
    requires placed { IsPlaced (length strips.old.items) (length path.old.items) at (tree_reached (E.seen engine.old) id path.old.items) }
    ensures gathered { OnOk result (IsGathered strips.old.items strips.new.items
        (part at.turned at.above at.left (tree_reached (E.seen engine.old) id path.old.items))) }
    ensures path { OnOk result (path.new.items ≡ path.old.items) }
    ensures unchanged { E.seen engine.new ≡ E.seen engine.old }
{
    let Some(content) = engine.look(ctx, id, path.as_slice())? else {
        return Ok(());
    };
    match content.get() {
        MatChunk::Leaf(_) => put_leaf(content, at, strips),
        MatChunk::SymLeaf(_) => put_leaf(content, at, strips),
        MatChunk::Node { height, .. } => gather_node(engine, ctx, id, path, at, *height, strips),
        MatChunk::SymNode { height, .. } => {
            gather_symmetric(engine, ctx, id, path, at, *height, strips)
        }
        // No canonical tree of a block has these.
        MatChunk::Entries(_) => Ok(()),
        MatChunk::Num(_) => Ok(()),
    }
}

// The same of a node with that many levels below it.
#[cycle(tree)]
fn gather_node<E: Engine<MatLib>>(
    engine: &mut E,
    ctx: &mut E::Context,
    id: Id,
    path: &mut Vec<u8>,
    at: Place,
    height: u32,
    strips: &mut Vec<Strip>,
) -> Result<(), Memory>
    requires held { Holds (E.seen engine.old) id }
    requires placed { IsPlacedNode (length strips.old.items) (length path.old.items) height at (tree_reached (E.seen engine.old) id path.old.items) }
    ensures gathered { OnOk result (IsGathered strips.old.items strips.new.items
        (quadrants_part at.turned (2 ^ (height - 1)) at.above at.left (tree_reached (E.seen engine.old) id path.old.items))) }
    ensures path { OnOk result (path.new.items ≡ path.old.items) }
    ensures unchanged { E.seen engine.new ≡ E.seen engine.old }
{
    let half = leaves_across(height - 1);
    let right = Place {
        above: at.above,
        left: at.left + half,
        turned: at.turned,
    };
    let below = Place {
        above: at.above + half,
        left: at.left,
        turned: at.turned,
    };
    let across = Place {
        above: at.above + half,
        left: at.left + half,
        turned: at.turned,
    };
    let upper = upper_child(at.turned);
    let lower = lower_child(at.turned);
    gather_child(engine, ctx, id, path, 0, at, strips)?;
    gather_child(engine, ctx, id, path, upper, right, strips)?;
    gather_child(engine, ctx, id, path, lower, below, strips)?;
    gather_child(engine, ctx, id, path, 3, across, strips)?;
    Ok(())
}

// The same of a symmetric node with that many levels below it.
#[cycle(tree)]
fn gather_symmetric<E: Engine<MatLib>>(
    engine: &mut E,
    ctx: &mut E::Context,
    id: Id,
    path: &mut Vec<u8>,
    at: Place,
    height: u32,
    strips: &mut Vec<Strip>,
) -> Result<(), Memory>
    requires held { Holds (E.seen engine.old) id }
    requires placed { IsPlacedNode (length strips.old.items) (length path.old.items) height at (tree_reached (E.seen engine.old) id path.old.items) }
    ensures gathered { OnOk result (IsGathered strips.old.items strips.new.items
        (symmetric_part (2 ^ (height - 1)) at.above at.left (tree_reached (E.seen engine.old) id path.old.items))) }
    ensures path { OnOk result (path.new.items ≡ path.old.items) }
    ensures unchanged { E.seen engine.new ≡ E.seen engine.old }
{
    let half = leaves_across(height - 1);
    let first = Place {
        above: at.above,
        left: at.left,
        turned: false,
    };
    let below = Place {
        above: at.above + half,
        left: at.left,
        turned: true,
    };
    let across = Place {
        above: at.above + half,
        left: at.left + half,
        turned: false,
    };
    gather_child(engine, ctx, id, path, 0, first, strips)?;
    gather_child(engine, ctx, id, path, 1, below, strips)?;
    gather_child(engine, ctx, id, path, 2, across, strips)?;
    Ok(())
}

// The same of the child with that number of the tree that a path leads to.
#[cycle(tree)]
fn gather_child<E: Engine<MatLib>>(
    engine: &mut E,
    ctx: &mut E::Context,
    id: Id,
    path: &mut Vec<u8>,
    j: u8,
    at: Place,
    strips: &mut Vec<Strip>,
) -> Result<(), Memory>
    requires held { Holds (E.seen engine.old) id }
    requires shallow { length path.old.items + 1 ≤ 16 }
    requires placed { IsPlaced (length strips.old.items) (length path.old.items + 1) at (child (tree_reached (E.seen engine.old) id path.old.items) j) }
    ensures gathered { OnOk result (IsGathered strips.old.items strips.new.items
        (part at.turned at.above at.left (child (tree_reached (E.seen engine.old) id path.old.items) j))) }
    ensures path { OnOk result (path.new.items ≡ path.old.items) }
    ensures unchanged { E.seen engine.new ≡ E.seen engine.old }
{
    path.push(j)?;
    gather(engine, ctx, id, path, at, strips)?;
    path.pop();
    Ok(())
}

// Puts a leaf into its strip.
fn put_leaf(content: Shared<MatChunk>, at: Place, strips: &mut Vec<Strip>) -> Result<(), Memory>
    requires { at.above < length strips.old.items }
    ensures { OnOk result (IsGathered strips.old.items strips.new.items
        (only_in at.above (record { content = content; left = at.left; turned = at.turned }))) }
{
    let piece = Piece {
        content,
        left: at.left,
        turned: at.turned,
    };
    put(strips, at.above, piece)
}

// The number of the child that stands in the upper right of a block.
fn upper_child(turned: bool) -> u8
    ensures value { result ≡ upper_child turned }
{
    if turned { 2 } else { 1 }
}

// The number of the child that stands in the lower left of a block.
fn lower_child(turned: bool) -> u8
    ensures value { result ≡ lower_child turned }
{
    if turned { 1 } else { 2 }
}

// How many leaf blocks stand beside each other in a block with that many levels above its leaves.
fn leaves_across(height: u32) -> u32
    requires { height ≤ 16 }
    ensures { result ≡ 2 ^ height }
{
    1 << height
}
