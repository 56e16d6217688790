ghost use Rattle.std.specs.Prelude.{◌≡◌, ◌≤◌, [], length, IfOk};
ghost use Rattle.task_types.specs.Shown.{presences_in};
ghost use Rattle.task_plans.specs.Portions.{AreSound};
ghost use Rattle.task_plans.specs.Sketches.{all_sketched, blank, planned_outcome};

use crate::plan::{Ending, Operation, Part};
use crate::portions::Portions;
use crate::sketch::Sketch;
use cht_ids::{List, Memory};
use std::alloc::Global;
use task_types::{Inputs, Outcome, Payload};

/// What a kind of this height, at least 1, answers by its plan where its inputs are there: its parts in order, and its ending.
/// `portions` holds the contents of the portions that the parts take.
pub fn planned<C: Payload, O: Operation>(
    alloc: Global,
    height: u32,
    parts: &[Part<O>],
    ending: Ending<O>,
    portions: Portions<C>,
    inputs: &Inputs<C>,
) -> Result<Outcome<C, O::Kind>, Memory>
    requires few { length parts.now ≤ 4 }
    requires sound { AreSound C.sound portions }
    ensures { IfOk result (λ outcome. outcome
        ≡ planned_outcome O.kind_at height (record { parts = parts.now; ending = ending }) portions (presences_in inputs.now)) }
{
    let low = height.saturating_sub(1);
    let sketch = all_parts(alloc, low, inputs, parts, blank(alloc, portions))?;
    sketch.outcome(alloc, height, ending)
}

// A sketch with some parts, in order.
fn all_parts<C: Payload, O: Operation>(
    alloc: Global,
    low: u32,
    inputs: &Inputs<C>,
    parts: &[Part<O>],
    mut sketch: Sketch<C, O::Kind>,
) -> Result<Sketch<C, O::Kind>, Memory>
    requires few { length parts.now ≤ 4 }
    requires no_chunks { sketch.chunks ≡ [] }
    requires no_tasks { sketch.tasks ≡ [] }
    requires sound { AreSound C.sound sketch.portions }
    ensures { IfOk result (λ drawn. drawn ≡ all_sketched (O.kind_at low) (presences_in inputs.now) sketch parts.now) }
{
    for part in parts {
        sketch.part(alloc, low, inputs, part)?;
    }
    Ok(sketch)
}

// A sketch without parts, with these portions.
fn blank<C: Payload, K>(alloc: Global, portions: Portions<C>) -> Sketch<C, K>
    ensures { result ≡ blank portions }
{
    Sketch {
        portions,
        chunks: List::new(alloc),
        tasks: List::new(alloc),
        places: List::new(alloc),
    }
}
