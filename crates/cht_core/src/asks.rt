ghost use Rattle.std.specs.Prelude.{◌≡◌, ℕ, ◌+◌, ◌<◌, map as each, IfOk, OnErr, false};
ghost use Rattle.cht_history.specs.declared.event.Event.TheVariants.{Ask as AskEvent};
ghost use Rattle.name_machine.specs.States.{MayMentionAll, tree_named};
ghost use Rattle.task_states.specs.States.{is_stopped};
ghost use Rattle.cht_core.specs.Events.{state, Happens};
ghost use Rattle.cht_core.specs.Answers.{HasAsked, IsCollected, IsStopped, IsAbandoned};

use crate::answers::{Abandoned, Collected};
use crate::cores::Core;
use cht_ids::{Memory, Ref, TaskNo};
use task_types::Library;

impl<L: Library> Core<L> {
    /// A caller that is not stopped asks a task of this kind on what these references name, which the caller holds. Answers the
    /// task's number.
    pub fn ask(&mut self, c: u32, kind: L::Kind, inputs: &[Ref]) -> Result<TaskNo, Memory>
        requires caller { c < self.old.callers }
        requires goes_on { is_stopped (state L.meanings self.old).graph c ≡ false }
        requires held { MayMentionAll (state L.meanings self.old) c inputs.now }
        requires defined { L.meanings.defined kind (each (tree_named (state L.meanings self.old)) inputs.now) }
        ensures event { IfOk result (λ task. Happens L.meanings L.Chunk.arity self.old self.new (AskEvent c task kind inputs.now)) }
        ensures task { IfOk result (λ task. task ≡ (state L.meanings self.old).drawn + 1) }
        ensures unchanged { OnErr result (self.new ≡ self.old) }
    {
        self.kept.ask(c, kind, inputs)
    }

    /// A caller collects the output of a task that it asked, where it is there and the caller is not stopped. It takes no memory.
    pub fn collect(&mut self, c: u32, task: TaskNo) -> Collected
        requires caller { c < self.old.callers }
        requires asked { HasAsked (state L.meanings self.old) c task }
        ensures { IsCollected L.meanings L.Chunk.arity self.old self.new c task result }
    {
        let stopped = self.kept.is_stopped(c);
        if stopped {
            return Collected::Stopped;
        }
        match self.kept.delivered(task) {
            None => Collected::NotYet,
            Some(_) => Collected::Got(self.kept.collect(c, task)),
        }
    }

    /// A caller that has an ask is stopped: its ready tasks are passed over until it abandons. Where it has none, or is stopped
    /// already, nothing changes. It takes no memory.
    pub fn stop(&mut self, c: u32)
        requires { c < self.old.callers }
        ensures { IsStopped L.meanings L.Chunk.arity self.old self.new c }
    {
        let stopped = self.kept.is_stopped(c);
        if stopped {
            return;
        }
        let asked = self.kept.has_ask(c);
        if asked {
            self.kept.stop(c);
        }
    }

    /// A caller gives up, where none of its tasks is Running: its unfinished tasks and its asks go, with the outputs that it has not
    /// collected, and it is not stopped. What it holds stays. Where it has no ask nothing changes. It takes no memory.
    pub fn abandon(&mut self, c: u32) -> Abandoned
        requires { c < self.old.callers }
        ensures { IsAbandoned L.meanings L.Chunk.arity self.old self.new c result }
    {
        let running = self.kept.running(c);
        if running > 0 {
            return Abandoned::StillRunning(running);
        }
        let has_ask = self.kept.has_ask(c);
        if has_ask {
            self.kept.abandon(c);
        }
        Abandoned::Gone
    }
}
