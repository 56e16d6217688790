ghost use Rattle.std.specs.Prelude.{◌≢◌, true, IsTrue, IfOk};
ghost use Rattle.task_types.specs.Presence.{all_present};
ghost use Rattle.task_types.specs.Shown.{presences_in};
ghost use Rattle.task_types.specs.Meanings.{Meanings};
ghost use Rattle.task_types.specs.Sound.{HasGoal, IsSoundFor, HasFewInputs, AddsUp};

use crate::inputs::Inputs;
use crate::kinds::Kinds;
use crate::outcome::Outcome;
use crate::payload::Payload;
use cht_ids::Memory;
use std::alloc::Global;

/// A library of chunk types and task types, after the Chunks and Tasks model of Rubensson and Rudberg (2014): an
/// execution is shown the contents of its inputs, and answers new chunks, new tasks and what its output is.
pub trait Library {
    /// The contents of chunks.
    type Chunk: Payload;

    /// The kinds of tasks.
    type Kind: Kinds;

    /// What trees stand for; where goals are defined, and what they are; plans, ranks and works of kinds.
    ghost meanings: { Meanings Self.Chunk Self.Kind };

    /// Executes a task whose inputs are all there. The answer may be `Memory`, and then nothing has changed.
    fn execute(
        alloc: Global,
        kind: Self::Kind,
        inputs: &Inputs<Self::Chunk>,
    ) -> Result<Outcome<Self::Chunk, Self::Kind>, Memory>
        requires defined { HasGoal meanings kind inputs.now }
        requires present { IsTrue (all_present (presences_in inputs.now)) }
        ensures { IfOk result (IsSoundFor Self.Chunk.arity meanings kind inputs.now) };

    /// Executes a task with a null input. The answer may be `Memory`, and then nothing has changed.
    fn fallback(
        alloc: Global,
        kind: Self::Kind,
        inputs: &Inputs<Self::Chunk>,
    ) -> Result<Outcome<Self::Chunk, Self::Kind>, Memory>
        requires defined { HasGoal meanings kind inputs.now }
        requires absent { all_present (presences_in inputs.now) ≢ true }
        ensures { IfOk result (IsSoundFor Self.Chunk.arity meanings kind inputs.now) };

    /// Executes a task, by `execute` where no input is null and else by `fallback`.
    final fn run(
        alloc: Global,
        kind: Self::Kind,
        inputs: &Inputs<Self::Chunk>,
    ) -> Result<Outcome<Self::Chunk, Self::Kind>, Memory>
        requires { HasGoal meanings kind inputs.now }
        ensures { IfOk result (IsSoundFor Self.Chunk.arity meanings kind inputs.now) }
    {
        if inputs.all_present() {
            Self::execute(alloc, kind, inputs)
        } else {
            Self::fallback(alloc, kind, inputs)
        }
    }

    /// A goal is defined only for at most four inputs.
    ghost few_inputs: { HasFewInputs meanings };

    /// At each sound outcome the work of a kind is one more than the works of the new tasks.
    ghost adds_up: { AddsUp Self.Chunk.arity meanings };
}
