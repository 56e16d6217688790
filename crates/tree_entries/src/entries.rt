ghost use Rattle.std.specs.Prelude.{◌≡◌, ◌++◌, IfOk};
ghost use Rattle.cht_engine.specs.Seen.{MayMention, tree_named};
ghost use Rattle.tree_entries.specs.BlockTrees.{IsBlockTree, AreEntriesOf};
ghost use Rattle.tree_entries.specs.Strips.{IsReadable, all_listed};

use crate::strips::{Strips, push_row};
use crate::walk::strips_of;
use cht_engine::Engine;
use cht_ids::{List, Memory, Ref};
use matrix_library::MatLib;
use mm_text::{Cell, Form};
use std::alloc::Global;

/// The numbers other than 0 of the block that a reference names, row by row and within a row by rising column; of a symmetric block those on
/// or below the diagonal. Rows and columns count from 1. The reference is null, or names the canonical tree of a block in that form.
///
/// Each node and each leaf of the tree is looked at once, the root twice, and so is each child of a node where nothing is. Beside the list
/// there is only a list of the leaf blocks, which are shared and not copied. After `Memory` the engine is as before.
pub fn entries_of<E: Engine<MatLib>>(
    alloc: Global,
    engine: &mut E,
    ctx: &mut E::Context,
    r: Ref,
    form: Form,
) -> Result<List<Cell>, Memory>
    requires held { MayMention (E.seen engine.old) r }
    requires canonical { IsBlockTree form (tree_named (E.seen engine.old) r) }
    ensures listed { IfOk result (AreEntriesOf form (tree_named (E.seen engine.old) r)) }
    ensures unchanged { E.seen engine.new ≡ E.seen engine.old }
{
    let strips = strips_of(alloc, engine, ctx, r)?;
    list_all(alloc, &strips)
}

// The cells of all rows.
fn list_all(alloc: Global, strips: &Strips) -> Result<List<Cell>, Memory>
    requires { IsReadable strips.now }
    ensures { IfOk result (λ cells. cells ≡ all_listed strips.now) }
{
    let mut cells = Vec::new(alloc);
    for row in 0..strips.rows() {
        push_row(strips, row, &mut cells)?;
    }
    Ok(List::from_vec(cells))
}
