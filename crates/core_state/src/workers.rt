ghost use Rattle.std.specs.Prelude.{◌≡◌, ℕ, ◌<◌, [], OnOk, OnErr, true};
ghost use Rattle.task_states.specs.declared.states.TaskStatus.TheVariants.{Ready};
ghost use Rattle.task_states.specs.States.{status as status_at};
ghost use Rattle.cht_history.specs.declared.event.Event.TheVariants.{Start, GiveBack};
ghost use Rattle.name_machine.specs.Forgetting.{forgotten};
ghost use Rattle.name_machine.specs.Replay.{runs_nothing};
ghost use Rattle.core_state.specs.Contents.{after_event};
ghost use Rattle.core_steps.specs.Conditions.{HangsTogether, RunsTask};

use crate::state::{CoreState, make_room};
use cht_history::Event;
use cht_ids::{Memory, TaskNo};
use task_types::Payload;

impl<C: Payload, K: Copy> CoreState<C, K> {
    /// A worker that runs nothing begins a Ready task.
    pub fn start(&mut self, w: u32, task: TaskNo) -> Result<(), Memory>
        requires worker { w < self.old.workers }
        requires idle { runs_nothing (forgotten C.arity self.old.control) w ≡ true }
        requires ready { status_at self.old.control.graph task ≡ Ready }
        ensures event { OnOk result (self.new ≡ after_event self.old [] (Start w task)) }
        ensures unchanged { OnErr result (self.new ≡ self.old) }
    {
        make_room(&mut self.journal, self.owed, 2)?;
        self.names.rules();
        self.graph.start(task, w);
        self.running[w as usize] = Some(task);
        self.owed += 1;
        self.journal.push_reserved(Event::Start { worker: w, task });
        Ok(())
    }

    /// A worker gives back the task that it runs, which is Ready again. Answers the task. It takes no memory.
    pub fn give_back(&mut self, w: u32) -> TaskNo
        requires worker { w < self.old.workers }
        requires runs { (task : ℕ) × RunsTask self.old.control w task }
        requires together { HangsTogether self.old.control }
        ensures task { RunsTask self.old.control w result }
        ensures event { self.new ≡ after_event self.old [] (GiveBack w result) }
    {
        let task = self.running[w as usize].unwrap();
        self.running[w as usize] = None;
        self.names.rules();
        self.graph.give_back(task);
        self.owed -= 1;
        self.journal
            .push_reserved(Event::GiveBack { worker: w, task });
        task
    }
}
