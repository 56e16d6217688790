// What a task is shown of its inputs.
ghost use Rattle.std.specs.Prelude.{◌≡◌, ◌≤◌, is_some, option_map, IfOk};
ghost use Rattle.task_types.specs.Shown.{view_of, Shows};
ghost use Rattle.name_states.specs.States.{IsLiveRef};
ghost use Rattle.name_states.specs.Trees.{tree_of};
ghost use Rattle.task_graph.specs.Contents.{input_of};
ghost use Rattle.task_graph.specs.Rows.{unfinished_in};
ghost use Rattle.name_machine.specs.Steps.{input_trees};
ghost use Rattle.name_machine.specs.Standing.{task_shown};
ghost use Rattle.cht_core.specs.Granted.{or_nothing, count_there, tree_in, IsLiveInput, AreLiveInputs};

use crate::cores::Core;
use cht_ids::{Memory, Ref};
use task_graph::TaskRow;
use task_states::Slot;
use task_types::{Inputs, Library, View};

// How many of four inputs are there, before the first that is not.
fn count_there(first: bool, second: bool, third: bool, fourth: bool) -> u32
    ensures { result ≡ count_there first second third fourth }
{
    if !first {
        0
    } else if !second {
        1
    } else if !third {
        2
    } else if !fourth {
        3
    } else {
        4
    }
}

// What is shown of an input that is there; nothing where it is not.
fn or_nothing<C: Drop>(view: Option<View<C>>) -> View<C>
    ensures { result ≡ or_nothing view }
{
    match view {
        None => View::Nothing,
        Some(view) => view,
    }
}

impl<L: Library> Core<L> {
    // What is shown of what a reference names.
    fn view(&self, r: Ref) -> Result<View<L::Chunk>, Memory>
        requires { IsLiveRef self.now.control.names r }
        ensures { IfOk result (λ view. view ≡ view_of (tree_of self.now.control.names r)) }
    {
        match r {
            Ref::Null => Ok(View::Nothing),
            Ref::Id(id) => {
                let (body, present) = self.kept.look_masked(id);
                let content = body.shared().again()?;
                Ok(View::There { content, present })
            }
        }
    }

    // The same for an input of a task; `None` exactly where there is no such input.
    fn view_at(&self, slot: Option<Slot>) -> Result<Option<View<L::Chunk>>, Memory>
        requires { IsLiveInput self.now.control.names (option_map input_of slot) }
        ensures shows { IfOk result (λ view. or_nothing view ≡ view_of (tree_in self.now.control.names (option_map input_of slot))) }
        ensures there { IfOk result (λ view. is_some view ≡ is_some slot) }
    {
        match slot {
            None => Ok(None),
            Some(Slot::Awaits(_, _)) => Ok(Some(View::Nothing)),
            Some(Slot::Known(r)) => match self.view(r) {
                Ok(view) => Ok(Some(view)),
                Err(memory) => Err(memory),
            },
        }
    }

    // What a task is shown of its inputs, of which it has at most four.
    pub(crate) fn views(&self, row: &TaskRow<L::Kind>) -> Result<Inputs<L::Chunk>, Memory>
        requires live { AreLiveInputs self.now.control.names (unfinished_in row.now).inputs }
        requires few { row.now.count ≤ 4 }
        ensures { IfOk result (λ inputs. Shows inputs (input_trees (task_shown self.now.control.names (unfinished_in row.now)))) }
    {
        let _kept = &self.kept;
        let one = self.view_at(row.input(0))?;
        let two = self.view_at(row.input(1))?;
        let three = self.view_at(row.input(2))?;
        let four = self.view_at(row.input(3))?;
        let count = count_there(
            one.is_some(),
            two.is_some(),
            three.is_some(),
            four.is_some(),
        );
        Ok(Inputs {
            count,
            first: or_nothing(one),
            second: or_nothing(two),
            third: or_nothing(three),
            fourth: or_nothing(four),
        })
    }
}
