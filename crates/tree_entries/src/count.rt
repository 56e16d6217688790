ghost use Rattle.std.specs.Prelude.{◌≡◌, ◌<◌, ◌^◌, length, IfOk};
ghost use Rattle.cht_engine.specs.Seen.{MayMention, tree_named};
ghost use Rattle.tree_entries.specs.BlockTrees.{IsBlockTree, IsCountOf};
ghost use Rattle.tree_entries.specs.Strips.{IsReadable, all_listed};

use crate::strips::{Strips, push_row};
use crate::walk::strips_of;
use cht_engine::Engine;
use cht_ids::{Memory, Ref};
use matrix_library::MatLib;
use mm_text::Form;
use std::alloc::Global;

/// How many numbers `entries_of` lists of the block that a reference names. The reference is null, or names the canonical tree of a block
/// in that form. Beside the list of the leaf blocks there is memory for the numbers of one row. After `Memory` the engine is as before.
pub fn count_entries<E: Engine<MatLib>>(
    alloc: Global,
    engine: &mut E,
    ctx: &mut E::Context,
    r: Ref,
    form: Form,
) -> Result<u64, Memory>
    requires held { MayMention (E.seen engine.old) r }
    requires canonical { IsBlockTree form (tree_named (E.seen engine.old) r) }
    ensures counted { IfOk result (IsCountOf form (tree_named (E.seen engine.old) r)) }
    ensures unchanged { E.seen engine.new ≡ E.seen engine.old }
{
    let strips = strips_of(alloc, engine, ctx, r)?;
    count_all(alloc, &strips)
}

/// How many cells the rows have together.
pub(crate) fn count_all(alloc: Global, strips: &Strips) -> Result<u64, Memory>
    requires readable { IsReadable strips.now }
    requires few { length (all_listed strips.now) < 2 ^ 64 }
    ensures { IfOk result (λ count. count ≡ length (all_listed strips.now)) }
{
    let mut cells = Vec::new(alloc);
    let mut count: u64 = 0;
    for row in 0..strips.rows() {
        cells.clear();
        push_row(strips, row, &mut cells)?;
        count += cells.as_slice().len() as u64;
    }
    Ok(count)
}
