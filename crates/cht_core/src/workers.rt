ghost use Rattle.std.specs.Prelude.{◌≡◌, ℕ, ◌<◌, ◌≤◌, Some, IfOk, OnErr, IfSome, IfNone};
ghost use Rattle.task_types.specs.Tree.{Tree};
ghost use Rattle.task_types.specs.Sound.{IsSound};
ghost use Rattle.cht_history.specs.declared.event.Event.TheVariants.{GiveBack};
ghost use Rattle.task_states.specs.declared.states.TaskStatus.TheVariants.{Ready};
ghost use Rattle.task_states.specs.States.{Unfinished, task_at, status as status_at};
ghost use Rattle.task_graph.specs.Rows.{unfinished_in};
ghost use Rattle.name_machine.specs.States.{Runs as RunsIn, IsIdle as IsIdleIn};
ghost use Rattle.name_machine.specs.Steps.{input_trees};
ghost use Rattle.core_steps.specs.Conditions.{finish_of};
ghost use Rattle.core_steps.specs.NewlyReady.{AreNewlyReady};
ghost use Rattle.cht_core.specs.Events.{state, Happens};
ghost use Rattle.cht_core.specs.Answers.{IsToDo};
ghost use Rattle.cht_core.specs.Granted.{AreOwn, inputs_granted};
ghost use Rattle.cht_core.specs.Started.{IsStarted};
ghost use Rattle.cht_core.specs.Entered.{IsEntered};

use crate::answers::{Begin, Execution, Idle, Start, Started};
use crate::cores::Core;
use crate::grants::Grants;
use cht_ids::{List, Memory, TaskNo};
use task_graph::TaskRow;
use task_states::TaskStatus;
use task_types::laws::plans_decided;
use task_types::{Library, Outcome};

// An execution whose inputs are granted as the owners' objects.
fn granted<L: Library>(execution: Execution<L>) -> Started<L>
    ensures task { result.task ≡ execution.task }
    ensures kind { result.kind ≡ execution.kind }
    ensures own { AreOwn result.inputs }
    ensures shows { inputs_granted result.inputs ≡ execution.inputs }
{
    Started {
        task: execution.task,
        kind: execution.kind,
        inputs: Grants::own(execution.inputs),
    }
}

impl<L: Library> Core<L> {
    /// A worker that runs nothing begins a task, where it is Ready. It gets the task's kind, and of each input that is not null the content,
    /// which is the owner's object, and the mask of the children that are there.
    pub fn start(&mut self, w: u32, task: TaskNo) -> Start<L>
        requires worker { w < self.old.workers }
        requires idle { IsIdleIn (state L.meanings self.old) w }
        ensures { IsStarted L.meanings L.Chunk.arity self.old self.new w task result }
    {
        match self.begin(w, task) {
            Begin::Started(execution) => Start::Started(granted(execution)),
            Begin::NotReady(status) => Start::NotReady(status),
            Begin::Memory => Start::Memory,
        }
    }

    /// The same for a worker that gets what the task is shown of its inputs: each is null, or the owner's object with the mask of the
    /// children that are there.
    #[inline(always)]
    pub fn begin(&mut self, w: u32, task: TaskNo) -> Begin<L>
        requires worker { w < self.old.workers }
        requires idle { IsIdleIn (state L.meanings self.old) w }
        ensures { IsEntered L.meanings L.Chunk.arity self.old self.new w task result }
    {
        // The row is looked at where it is, and not moved.
        let found = self.kept.row(task);
        match &found {
            None => Begin::NotReady(TaskStatus::Unknown),
            Some(row) => match row.status() {
                TaskStatus::Ready => self.begin_ready(w, task, row),
                status => Begin::NotReady(status),
            },
        }
    }

    // The same for a task that is Ready, of which this is known.
    fn begin_ready(&mut self, w: u32, task: TaskNo, row: &TaskRow<L::Kind>) -> Begin<L>
        requires worker { w < self.old.workers }
        requires idle { IsIdleIn (state L.meanings self.old) w }
        requires row { task_at self.old.control.graph task ≡ Some (unfinished_in row.now) }
        requires few { row.now.count ≤ 4 }
        requires ready { status_at self.old.control.graph task ≡ Ready }
        ensures { IsEntered L.meanings L.Chunk.arity self.old self.new w task result }
    {
        let Ok(inputs) = self.views(row) else {
            return Begin::Memory;
        };
        let Ok(()) = self.kept.start(w, task) else {
            return Begin::Memory;
        };
        Begin::Started(Execution {
            task,
            kind: row.kind,
            inputs,
        })
    }

    /// The outcome of the task that a worker runs takes effect: its new chunks are registered on the worker, its new tasks are there, what
    /// awaited it gets its output or awaits the new task that gives it, and it goes. Answers the tasks that became Ready, by rising
    /// number. It takes all its memory first; after `Memory` the outcome is dropped.
    pub fn finish(
        &mut self,
        w: u32,
        outcome: Outcome<L::Chunk, L::Kind>,
    ) -> Result<List<TaskNo>, Memory>
        requires worker { w < self.old.workers }
        requires sound { (task : ℕ) × (unfinished : Unfinished (Tree L.Chunk) L.Kind) × RunsIn (state L.meanings self.old) w task
            × (task_at (state L.meanings self.old).graph task ≡ Some unfinished) × IsSound L.Chunk.arity L.meanings unfinished.kind (input_trees unfinished) outcome }
        ensures event { IfOk result (λ ready. (task : ℕ) → RunsIn (state L.meanings self.old) w task → Happens L.meanings L.Chunk.arity self.old self.new (finish_of w task outcome)) }
        ensures ready { IfOk result (AreNewlyReady (state L.meanings self.old).graph (state L.meanings self.new).graph) }
        ensures unchanged { OnErr result (self.new ≡ self.old) }
    {
        plans_decided::<L::Kind>();
        self.kept.finish(w, outcome)
    }

    /// Takes the list that a finish answered, so that the next finish uses its memory again. Nothing that is known of the core changes.
    pub fn take_back(&mut self, ready: List<TaskNo>)
        ensures { self.new ≡ self.old }
    {
        self.kept.take_back(ready);
    }

    /// A worker gives the task back that it runs, which is Ready again. It takes no memory.
    pub fn give_back(&mut self, w: u32)
        requires worker { w < self.old.workers }
        requires runs { (task : ℕ) × RunsIn (state L.meanings self.old) w task }
        ensures { (task : ℕ) → RunsIn (state L.meanings self.old) w task → Happens L.meanings L.Chunk.arity self.old self.new (GiveBack w task) }
    {
        self.kept.give_back(w);
    }

    /// The task that a worker runs; `None` exactly where it runs nothing.
    pub fn runs(&self, w: u32) -> Option<TaskNo>
        requires { w < self.now.workers }
        ensures task { IfSome result (RunsIn (state L.meanings self.now) w) }
        ensures none { IfNone result (IsIdleIn (state L.meanings self.now) w) }
    {
        self.kept.runs(w)
    }

    /// What there is to do for a worker that runs nothing.
    pub fn idle(&self) -> Idle
        ensures { IsToDo (state L.meanings self.now) result }
    {
        let any = self.kept.any();
        if any {
            match self.kept.least_ready() {
                Some(task) => Idle::Run(task),
                None => Idle::Later,
            }
        } else {
            Idle::End
        }
    }
}
