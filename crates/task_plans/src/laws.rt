//! The law of the engine. The function does nothing: its contract is the law, which `specs/Laws.antt` states, and a proof above
//! cites the lemma of `proofs/SoundPlans.antt` behind it.

ghost use Rattle.task_plans.specs.Laws.{PlanIsSound};

use crate::plan::Operation;
use task_types::Library;

/// What `planned` answers is sound wherever the parts of a plan give what they must: formed, of a shape of the plan, with tasks whose
/// goals are defined and whose ranks are lower, and with the goal as what its result reads as.
pub fn plans_are_sound<L: Library, O: Operation<Kind = L::Kind>>()
    ensures { PlanIsSound L.Chunk.arity L.meanings O.kind_at }
{}
