ghost use Rattle.std.specs.Prelude.{◌≡◌, ◌≤◌, ◌++◌, Err};
ghost use Rattle.std.specs.List.{flat_map};
ghost use Rattle.cht_io.specs.Faults.{Rose};
ghost use Rattle.cht_engine.specs.Seen.{MayMention, tree_named};
ghost use Rattle.mm_text.specs.Written.{cell_line};
ghost use Rattle.tree_entries.specs.BlockTrees.{IsBlockTree, IsPrinted, IsWrittenAs};
ghost use Rattle.tree_entries.specs.Strips.{IsReadable, all_listed};

use crate::count::count_all;
use crate::strips::{Strips, push_row};
use crate::unprinted::Unprinted;
use crate::walk::strips_of;
use cht_engine::Engine;
use cht_ids::Ref;
use cht_io::Sink;
use matrix_library::MatLib;
use mm_text::{Form, HeldText, write_cells, write_opening};
use std::alloc::Global;

/// Writes the text of a matrix with so many rows and columns, in a form, whose numbers other than 0 are those that `entries_of` lists of
/// the block that a reference names. The reference is null, or names the canonical tree of a block in that form. Beside the list of the leaf
/// blocks there is memory for the numbers of one row and for some KiB of text. Whatever is answered, the engine is as before, and after an
/// error the sink took a front of the text.
pub fn print_entries<E: Engine<MatLib>, K: Sink>(
    alloc: Global,
    engine: &mut E,
    ctx: &mut E::Context,
    r: Ref,
    form: Form,
    rows: u32,
    columns: u32,
    out: &mut K,
) -> Result<(), Unprinted>
    requires held { MayMention (E.seen engine.old) r }
    requires canonical { IsBlockTree form (tree_named (E.seen engine.old) r) }
    ensures printed { IsPrinted form rows columns (tree_named (E.seen engine.old) r) result (K.took out.old) (K.took out.new) }
    ensures cause { result ≡ Err Unprinted.WriteFault → Rose (K.faults out.old) (K.faults out.new) }
    ensures later { K.faults out.old ≤ K.faults out.new }
    ensures unchanged { E.seen engine.new ≡ E.seen engine.old }
{
    let strips = strips_of(alloc, engine, ctx, r)?;
    let count = count_all(alloc, &strips)?;
    let text = write_opening(form, rows, columns, count);
    write_rows(alloc, &strips, text, out)
}

// Writes a text that is held, and behind it the lines of the cells of all rows.
fn write_rows<K: Sink>(
    alloc: Global,
    strips: &Strips,
    opening: HeldText,
    out: &mut K,
) -> Result<(), Unprinted>
    requires { IsReadable strips.now }
    ensures written { IsWrittenAs result (opening ++ flat_map cell_line (all_listed strips.now)) (K.took out.old) (K.took out.new) }
    ensures cause { result ≡ Err Unprinted.WriteFault → Rose (K.faults out.old) (K.faults out.new) }
    ensures later { K.faults out.old ≤ K.faults out.new }
{
    let mut text = opening;
    let mut cells = Vec::new(alloc);
    for row in 0..strips.rows() {
        cells.clear();
        push_row(strips, row, &mut cells)?;
        write_cells(&mut text, out, &cells)?;
    }
    text.flush(out)?;
    Ok(())
}
