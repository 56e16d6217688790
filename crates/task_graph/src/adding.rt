// A task comes with its inputs.
ghost use Rattle.std.specs.Prelude.{◌≡◌, ◌<◌, ◌≤◌, ◌+◌, take, length, map as each, None};
ghost use Rattle.std.specs.HashMap.{hash_map_len};
ghost use Rattle.task_states.specs.States.{task_at};
ghost use Rattle.task_states.specs.Steps.{added};
ghost use Rattle.task_links.specs.Inside.{shown_entry, room_of};
ghost use Rattle.task_links.specs.Kept.{opened, opened_place};
ghost use Rattle.task_graph.specs.Contents.{inputs_given, AreOf, AreFree};
ghost use Rattle.task_graph.specs.Graphs.{graph_of, IsWhole, IsBare};
ghost use Rattle.task_graph.specs.Adding.{known_place, bare_input};

use crate::parts::Parts;
use task_links::{Kept, KeptPlace, Spot};
use task_states::Slot;

// An input as it is kept, without what it awaits.
#[inline(always)]
fn known(slot: &Slot) -> KeptPlace
    ensures { opened_place result ≡ known_place slot.now }
{
    match slot {
        Slot::Known(r) => KeptPlace::known(*r),
        Slot::Awaits(_, _) => KeptPlace::Null,
    }
}

// Inputs as they are kept, without what they await, and null ones behind them.
#[inline(always)]
fn known_places(inputs: &[Slot]) -> [KeptPlace; 4]
    requires { length inputs.now ≤ 4 }
    ensures { take (length inputs.now) (each opened_place result) ≡ each known_place inputs.now }
{
    let mut places = [KeptPlace::Null; 4];
    for (i, slot) in inputs.iter().enumerate() {
        places[i] = known(slot);
    }
    places
}

// What is kept of a task with these inputs, without what they await.
#[inline(always)]
fn bare<K: Copy>(caller: u32, kind: K, inputs: &[Slot]) -> Kept<K>
    requires { length inputs.now ≤ 4 }
    ensures bare { IsBare (opened result) }
    ensures caller { result.caller ≡ caller }
    ensures kind { result.kind ≡ kind }
    ensures inputs { (shown_entry (opened result)).inputs ≡ each bare_input inputs.now }
{
    Kept::alone(caller, kind, inputs.len() as u32, known_places(inputs))
}

impl<K: Copy> Parts<K> {
    /// One more task, with its inputs.
    pub fn add(&mut self, task: u128, caller: u32, kind: K, inputs: &[Slot])
        requires whole { IsWhole self.old }
        requires room { 0 < room_of self.old.entries }
        requires new { task_at (graph_of self.old) task ≡ None }
        requires caller { caller < 64 }
        requires few { length inputs.now ≤ 4 }
        requires callers { AreOf (graph_of self.old) caller inputs.now }
        requires numbers { AreFree (graph_of self.old) inputs.now }
        ensures whole { IsWhole self.new }
        ensures graph { graph_of self.new ≡ added (graph_of self.old) task caller kind (inputs_given inputs.now) }
        ensures len { hash_map_len self.new.entries.tasks ≡ hash_map_len self.old.entries.tasks + 1 }
        ensures room { room_of self.old.entries ≤ room_of self.new.entries + 1 }
    {
        self.place_idle(task, bare(caller, kind, inputs));
        for (place, slot) in inputs.iter().enumerate() {
            if let Slot::Awaits(awaited, number) = slot {
                let spot = Spot {
                    task,
                    place: place as u8,
                };
                self.join(spot, *awaited, *number);
            }
        }
    }
}
