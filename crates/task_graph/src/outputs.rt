// Who awaits a task, and what becomes of it when the task's output comes or is handed on.
ghost use Rattle.std.specs.Prelude.{◌≡◌, ◌<◌, ℕ, Some, None, IsSome, ◌⊎◌, set, Option};
ghost use Rattle.task_links.specs.Inside.{entries_at, IsSameSize, place_at};
ghost use Rattle.task_links.specs.Kept.{opened};
ghost use Rattle.std.specs.List.{list_any};
ghost use Rattle.std.specs.Option.{option_map};
ghost use Rattle.cht_ids.specs.declared.refs.Ref.{Ref as AnyRef};
ghost use Rattle.task_states.specs.States.{Known as KnownInput, Awaits as AwaitsTask, Unfinished as AnyUnfinished, task_at, status, is_awaiting};
ghost use Rattle.task_states.specs.Steps.{with_task, delivered, inputs_redirected, forwarded};
ghost use Rattle.task_links.specs.Weave.{head_at, link_at, IsFirst, IsUntied, IsTied, IsAtHome, IsUnused, IsUnasked, IsFirstIfInput, Head as AnyHead};
ghost use Rattle.task_graph.specs.Contents.{AreOfOneCaller, IsAskedOnce, is_ready, is_ready_at};
ghost use Rattle.task_graph.specs.Moving.{IsMovable, IsMoved};
ghost use Rattle.task_states.specs.declared.states.Awaiter.{Awaiter as AnyAwaiter};
ghost use Rattle.task_links.specs.declared.entries.Link.{Link as AnyLink};
ghost use Rattle.task_links.specs.declared.entries.Spot.{Spot as AnySpot};
ghost use Rattle.task_states.specs.Awaiters.{IsNotAwaited, IsAwaiterFound, IsLeastAwaiter, IsRunnable};
ghost use Rattle.task_graph.specs.Graphs.{graph_of, IsWhole};
ghost use Rattle.task_graph.specs.Reading.{spot_of};

use crate::parts::Parts;
use cht_ids::Ref;
use task_links::{Kept, Link, Spot};
use task_states::Awaiter;

// A place of an input of a task.
#[inline(always)]
fn spot_at(task: u128, place: u32) -> Spot
    requires { place < 256 }
    ensures { result ≡ record { task = task; place = place } }
{
    Spot {
        task,
        place: place as u8,
    }
}

impl<K: Copy> Parts<K> {
    // The awaiter with the least number of a task of which this is kept; `None` where nobody awaits it.
    fn awaiter_of(&self, task: u128, kept: &Kept<K>) -> Option<Awaiter>
        requires whole { IsWhole self.now }
        requires there { entries_at self.now.entries task ≡ Some (opened kept.now) }
        ensures least { IsAwaiterFound (graph_of self.now) task result }
        ensures first { IsFirstIfInput (head_at (entries_at self.now.entries)) (link_at (entries_at self.now.entries)) result }
    {
        let first = kept.first();
        let asked = kept.asked();
        match first {
            None => match asked {
                None => None,
                Some(number) => Some(Awaiter::Asked {
                    caller: kept.caller,
                    number,
                }),
            },
            Some(spot) => {
                let link = self.entries.link(spot);
                let input = Awaiter::Input {
                    task: spot.task,
                    place: spot.place as u32,
                    number: link.number,
                };
                match asked {
                    None => Some(input),
                    Some(number) => {
                        if number < link.number {
                            Some(Awaiter::Asked {
                                caller: kept.caller,
                                number,
                            })
                        } else {
                            Some(input)
                        }
                    }
                }
            }
        }
    }

    /// The awaiter of a task with the least number; `None` where nobody awaits it.
    pub fn awaiter(&self, task: u128) -> Option<Awaiter>
        requires whole { IsWhole self.now }
        ensures least { IsAwaiterFound (graph_of self.now) task result }
        ensures first { IsFirstIfInput (head_at (entries_at self.now.entries)) (link_at (entries_at self.now.entries)) result }
    {
        match self.entries.find(task) {
            None => None,
            Some(kept) => self.awaiter_of(task, kept),
        }
    }

    // The first input that awaits a task gets a reference. Answers what it awaited, whether another input of its task awaits a
    // task, and the caller of its task.
    fn settle(&mut self, spot: Spot, r: Ref) -> (Link, bool, u32)
        requires whole { IsWhole self.old }
        requires first { IsFirst (head_at (entries_at self.old.entries)) (link_at (entries_at self.old.entries)) spot }
        ensures whole { IsWhole self.new }
        ensures link { link_at (entries_at self.old.entries) spot ≡ Some result.0 }
        ensures untied { IsUntied (head_at (entries_at self.old.entries)) (head_at (entries_at self.new.entries)) (link_at (entries_at self.old.entries)) (link_at (entries_at self.new.entries)) spot result.0 }
        ensures graph { graph_of self.new ≡ with_task (graph_of self.old) spot.task (λ u. record u { inputs = set u.inputs spot.place (KnownInput r) }) }
        ensures waits { option_map (λ unfinished. list_any is_awaiting unfinished.inputs) (task_at (graph_of self.new) spot.task) ≡ Some result.1 }
        ensures caller { (unfinished : AnyUnfinished AnyRef K) → task_at (graph_of self.old) spot.task ≡ Some unfinished → unfinished.caller ≡ result.2 }
        ensures low { result.2 < 64 }
        ensures there { IsSome (place_at (entries_at self.new.entries) spot) }
        ensures size { IsSameSize self.old.entries self.new.entries }
    {
        self.entries.settle(spot, r)
    }

    /// An input that does not await comes to await a task of the same caller, under a number that no awaiter has.
    pub fn join(&mut self, spot: Spot, task: u128, number: u128)
        requires whole { IsWhole self.old }
        requires there { IsSome (place_at (entries_at self.old.entries) spot) }
        requires free { link_at (entries_at self.old.entries) spot ≡ None }
        requires home { IsAtHome (head_at (entries_at self.old.entries)) spot.task task }
        requires unused { IsUnused (link_at (entries_at self.old.entries)) number }
        requires unasked { IsUnasked (head_at (entries_at self.old.entries)) number }
        ensures whole { IsWhole self.new }
        ensures tied { (before : Option AnySpot) × (next : Option AnySpot)
            × IsTied (head_at (entries_at self.old.entries)) (head_at (entries_at self.new.entries)) (link_at (entries_at self.old.entries)) (link_at (entries_at self.new.entries)) spot task number before next }
        ensures graph { graph_of self.new ≡ with_task (graph_of self.old) spot.task (λ u. record u { inputs = set u.inputs spot.place (AwaitsTask task number) }) }
        ensures size { IsSameSize self.old.entries self.new.entries }
    {
        self.entries.join(spot, task, number);
    }

    // The input with the least number that awaits a task of which this is kept; `None` where what the caller asked has a lower
    // number, or no input awaits the task.
    fn next_input(&self, task: u128, kept: &Kept<K>) -> Option<Spot>
        requires whole { IsWhole self.now }
        requires there { entries_at self.now.entries task ≡ Some (opened kept.now) }
        ensures input { (awaiter : AnyAwaiter) → IsLeastAwaiter (graph_of self.now) task awaiter → spot_of awaiter ≡ result }
        ensures first { (spot : AnySpot) → result ≡ Some spot → IsFirst (head_at (entries_at self.now.entries)) (link_at (entries_at self.now.entries)) spot }
    {
        match kept.first() {
            None => None,
            Some(spot) => match kept.asked() {
                None => Some(spot),
                Some(number) => {
                    let link = self.entries.link(spot);
                    if number < link.number {
                        None
                    } else {
                        Some(spot)
                    }
                }
            },
        }
    }

    // The first input that awaits a task gets a reference. Answers its own task, if that can be run then, and whether it is Ready.
    fn settle_first(&mut self, spot: Spot, r: Ref) -> (Option<u128>, bool)
        requires whole { IsWhole self.old }
        requires first { IsFirst (head_at (entries_at self.old.entries)) (link_at (entries_at self.old.entries)) spot }
        ensures whole { IsWhole self.new }
        ensures graph { graph_of self.new ≡ with_task (graph_of self.old) spot.task (λ u. record u { inputs = set u.inputs spot.place (KnownInput r) }) }
        ensures runs { (q : ℕ) → IsRunnable (graph_of self.new) q → (result.0 ≡ Some q) ⊎ IsRunnable (graph_of self.old) q }
        ensures ready { (q : ℕ) → result.0 ≡ Some q → IsRunnable (graph_of self.new) q }
        ensures told { result.1 ≡ is_ready (status (graph_of self.new) spot.task) }
        ensures size { IsSameSize self.old.entries self.new.entries }
    {
        let settled = self.settle(spot, r);
        if settled.1 {
            return (None, false);
        }
        let row = self.callers.get(settled.2);
        if row.stopped {
            (None, true)
        } else {
            (Some(spot.task), true)
        }
    }

    /// The awaiter of a task with the least number gets a reference. Answers the task whose input it is, if that can be run then.
    pub fn deliver(&mut self, task: u128, r: Ref) -> Option<u128>
        requires whole { IsWhole self.old }
        requires there { IsSome (task_at (graph_of self.old) task) }
        ensures whole { IsWhole self.new }
        ensures graph { (awaiter : AnyAwaiter) → IsLeastAwaiter (graph_of self.old) task awaiter → graph_of self.new ≡ delivered (graph_of self.old) task awaiter r }
        ensures runs { (q : ℕ) → IsRunnable (graph_of self.new) q → (result ≡ Some q) ⊎ IsRunnable (graph_of self.old) q }
        ensures stays { (q : ℕ) → IsRunnable (graph_of self.old) q → IsRunnable (graph_of self.new) q }
        ensures ready { (q : ℕ) → result ≡ Some q → IsRunnable (graph_of self.new) q }
        ensures size { IsSameSize self.old.entries self.new.entries }
    {
        let kept = self.entries.look(task);
        match self.next_input(task, kept) {
            None => {
                self.unask(task);
                None
            }
            Some(spot) => self.settle_first(spot, r).0,
        }
    }

    /// The same for the awaiter that has the least number. Answers also whether the task whose input it is, is Ready then.
    pub fn deliver_to(&mut self, task: u128, awaiter: &Awaiter, r: Ref) -> (Option<u128>, bool)
        requires whole { IsWhole self.old }
        requires least { IsLeastAwaiter (graph_of self.old) task awaiter.now }
        ensures whole { IsWhole self.new }
        ensures graph { graph_of self.new ≡ delivered (graph_of self.old) task awaiter.now r }
        ensures runs { (q : ℕ) → IsRunnable (graph_of self.new) q → (result.0 ≡ Some q) ⊎ IsRunnable (graph_of self.old) q }
        ensures stays { (q : ℕ) → IsRunnable (graph_of self.old) q → IsRunnable (graph_of self.new) q }
        ensures ready { (q : ℕ) → result.0 ≡ Some q → IsRunnable (graph_of self.new) q }
        ensures told { result.1 ≡ is_ready_at (graph_of self.new) awaiter.now }
        ensures size { IsSameSize self.old.entries self.new.entries }
    {
        match awaiter {
            Awaiter::Input {
                task: of,
                place,
                ..
            } => self.settle_first(spot_at(*of, *place), r),
            Awaiter::Asked { .. } => {
                self.unask(task);
                (None, false)
            }
        }
    }

    // The first input that awaits one task awaits another of the same caller. Answers which is the first then.
    fn move_first(&mut self, spot: Spot, to: u128) -> Option<Spot>
        requires whole { IsWhole self.old }
        requires movable { IsMovable self.old spot to }
        ensures whole { IsWhole self.new }
        ensures moved { IsMoved self.old self.new spot to }
        ensures next { (link : AnyLink) (head : AnyHead) → link_at (entries_at self.old.entries) spot ≡ Some link → (link.task ≡ to → ⊥) → head_at (entries_at self.new.entries) link.task ≡ Some head → result ≡ head.first }
        ensures size { IsSameSize self.old.entries self.new.entries }
    {
        let settled = self.settle(spot, Ref::Null);
        self.join(spot, to, settled.0.number);
        settled.0.next
    }

    // All inputs that await one task, from the first on, await another.
    fn move_all(&mut self, task: u128, to: u128, first: Option<Spot>)
        requires whole { IsWhole self.old }
        requires callers { AreOfOneCaller (graph_of self.old) task to }
        requires apart { task ≡ to → ⊥ }
        requires first { (head : AnyHead) → head_at (entries_at self.old.entries) task ≡ Some head → first ≡ head.first }
        ensures whole { IsWhole self.new }
        ensures graph { graph_of self.new ≡ inputs_redirected (graph_of self.old) task to }
        ensures size { IsSameSize self.old.entries self.new.entries }
    {
        let mut next = first;
        while let Some(spot) = next {
            next = self.move_first(spot, to);
        }
    }

    /// All that awaits one task awaits another of the same caller.
    pub fn forward(&mut self, task: u128, to: u128)
        requires whole { IsWhole self.old }
        requires callers { AreOfOneCaller (graph_of self.old) task to }
        requires apart { task ≡ to → ⊥ }
        requires asked { IsAskedOnce (graph_of self.old) task to }
        ensures whole { IsWhole self.new }
        ensures graph { graph_of self.new ≡ forwarded (graph_of self.old) task to }
        ensures size { IsSameSize self.old.entries self.new.entries }
    {
        let kept = self.entries.look(task);
        let asked = kept.asked();
        let first = kept.first();
        self.move_all(task, to, first);
        if let Some(number) = asked {
            self.ask(to, number);
            self.unask(task);
        }
    }
}
