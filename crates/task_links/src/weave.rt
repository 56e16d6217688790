// The list of the inputs that await a task: how one joins it, and how its first leaves it.
ghost use Rattle.std.specs.Prelude.{◌≡◌, ◌≤◌, ℕ, Option, Some, None, IsSome};
ghost use Rattle.std.specs.Option.{option_map};
ghost use Rattle.std.specs.List.{list_any};
ghost use Rattle.task_states.specs.States.{Known as KnownInput, Awaits as AwaitsTask, is_awaiting};
ghost use Rattle.task_links.specs.declared.entries.Entry.{Entry as AnyEntry};
ghost use Rattle.task_links.specs.declared.entries.Spot.{Spot as AnySpot};
ghost use Rattle.task_links.specs.declared.entries.Place.TheVariants.{Awaits as AwaitsPlace};
ghost use Rattle.task_links.specs.Inside.{entries_at, IsSameSize, shown_place, place_at, with_input, shown_at, station_at, caller_in};
ghost use Rattle.task_links.specs.Weave.{head_at, link_at, with_next_at, IsGap, IsTied, IsUntied, IsWoven, IsUnused, IsBelow, IsUnasked, IsAtHome, IsFirst, count_of};

use crate::entries::{Entries, Link, Place, Spot};
use cht_ids::Ref;

impl<K: Copy> Entries<K> {
    // Writes the next one of an awaiting input, if one is given.
    fn set_behind(&mut self, before: Option<Spot>, next: Option<Spot>)
        requires { (p : AnySpot) → before ≡ Some p → IsSome (link_at (entries_at self.old) p) }
        ensures links { (p : AnySpot) → link_at (entries_at self.new) p ≡ option_map (with_next_at p before next) (link_at (entries_at self.old) p) }
        ensures heads { (q : ℕ) → head_at (entries_at self.new) q ≡ head_at (entries_at self.old) q }
        ensures shown { (q : ℕ) → shown_at (entries_at self.new) q ≡ shown_at (entries_at self.old) q }
        ensures stations { (q : ℕ) → station_at (entries_at self.new) q ≡ station_at (entries_at self.old) q }
        ensures counts { (q : ℕ) → option_map count_of (entries_at self.new q) ≡ option_map count_of (entries_at self.old q) }
        ensures size { IsSameSize self.old self.new }
    {
        if let Some(spot) = before {
            self.set_next(spot, next);
        }
    }

    // Between which two a number stands in the list of a task, looked for from the first.
    fn walk(&self, task: u128, number: u128, first: Option<Spot>) -> (Option<Spot>, Option<Spot>)
        requires woven { IsWoven (head_at (entries_at self.now)) (link_at (entries_at self.now)) }
        requires first { IsBelow (head_at (entries_at self.now)) (link_at (entries_at self.now)) task number None first }
        requires unused { IsUnused (link_at (entries_at self.now)) number }
        ensures { IsGap (head_at (entries_at self.now)) (link_at (entries_at self.now)) task number result.0 result.1 }
    {
        let mut before = None;
        let mut next = first;
        while let Some(spot) = next {
            let link = self.link(spot);
            if link.number > number {
                return (before, next);
            }
            before = next;
            next = link.next;
        }
        (before, None)
    }

    // Between which two a number stands in the list of a task. Where it is greater than all others it is found at once.
    fn gap(&self, task: u128, number: u128) -> (Option<Spot>, Option<Spot>)
        requires woven { IsWoven (head_at (entries_at self.now)) (link_at (entries_at self.now)) }
        requires task { IsSome (entries_at self.now task) }
        requires unused { IsUnused (link_at (entries_at self.now)) number }
        ensures { IsGap (head_at (entries_at self.now)) (link_at (entries_at self.now)) task number result.0 result.1 }
    {
        let kept = self.look(task);
        if let Some(last) = kept.last() {
            let link = self.link(last);
            if link.number < number {
                return (Some(last), None);
            }
        }
        self.walk(task, number, kept.first())
    }

    // An input that does not await joins the list of a task, between two others.
    fn tie(&mut self, spot: Spot, link: Link, before: Option<Spot>)
        requires there { IsSome (place_at (entries_at self.old) spot) }
        requires free { link_at (entries_at self.old) spot ≡ None }
        requires task { IsSome (entries_at self.old link.task) }
        requires gap { IsGap (head_at (entries_at self.old)) (link_at (entries_at self.old)) link.task link.number before link.next }
        ensures tied { IsTied (head_at (entries_at self.old)) (head_at (entries_at self.new)) (link_at (entries_at self.old)) (link_at (entries_at self.new))
            spot link.task link.number before link.next }
        ensures shown { (q : ℕ) → shown_at (entries_at self.new) q ≡ option_map (with_input q spot (shown_place (AwaitsPlace link))) (shown_at (entries_at self.old) q) }
        ensures stations { (q : ℕ) → station_at (entries_at self.new) q ≡ station_at (entries_at self.old) q }
        ensures counts { (q : ℕ) → option_map count_of (entries_at self.new q) ≡ option_map count_of (entries_at self.old q) }
        ensures size { IsSameSize self.old self.new }
    {
        let _was = self.set_place(spot, Place::Awaits(link));
        self.set_behind(before, Some(spot));
        self.join_ends(link.task, before, spot, link.next);
    }

    /// An input that does not await comes to await a task of the same caller, under a number that no awaiter has.
    pub fn join(&mut self, spot: Spot, task: u128, number: u128)
        requires woven { IsWoven (head_at (entries_at self.old)) (link_at (entries_at self.old)) }
        requires there { IsSome (place_at (entries_at self.old) spot) }
        requires free { link_at (entries_at self.old) spot ≡ None }
        requires home { IsAtHome (head_at (entries_at self.old)) spot.task task }
        requires unused { IsUnused (link_at (entries_at self.old)) number }
        requires unasked { IsUnasked (head_at (entries_at self.old)) number }
        ensures woven { IsWoven (head_at (entries_at self.new)) (link_at (entries_at self.new)) }
        ensures tied { (before : Option AnySpot) × (next : Option AnySpot)
            × IsTied (head_at (entries_at self.old)) (head_at (entries_at self.new)) (link_at (entries_at self.old)) (link_at (entries_at self.new)) spot task number before next }
        ensures shown { (q : ℕ) → shown_at (entries_at self.new) q ≡ option_map (with_input q spot (AwaitsTask task number)) (shown_at (entries_at self.old) q) }
        ensures stations { (q : ℕ) → station_at (entries_at self.new) q ≡ station_at (entries_at self.old) q }
        ensures counts { (q : ℕ) → option_map count_of (entries_at self.new q) ≡ option_map count_of (entries_at self.old q) }
        ensures size { IsSameSize self.old self.new }
    {
        let (before, next) = self.gap(task, number);
        self.tie(spot, Link { task, number, next }, before);
    }

    /// The first input that awaits a task gets a reference, and awaits no more. Answers what it awaited, whether another input of
    /// its task awaits a task, and the caller of its task.
    pub fn settle(&mut self, spot: Spot, r: Ref) -> (Link, bool, u32)
        requires woven { IsWoven (head_at (entries_at self.old)) (link_at (entries_at self.old)) }
        requires first { IsFirst (head_at (entries_at self.old)) (link_at (entries_at self.old)) spot }
        requires short { (entry : AnyEntry K) → entries_at self.old spot.task ≡ Some entry → entry.count ≤ 4 }
        ensures link { link_at (entries_at self.old) spot ≡ Some result.0 }
        ensures waits { option_map (λ unfinished. list_any is_awaiting unfinished.inputs) (shown_at (entries_at self.new) spot.task) ≡ Some result.1 }
        ensures caller { option_map caller_in (entries_at self.old spot.task) ≡ Some result.2 }
        ensures woven { IsWoven (head_at (entries_at self.new)) (link_at (entries_at self.new)) }
        ensures untied { IsUntied (head_at (entries_at self.old)) (head_at (entries_at self.new)) (link_at (entries_at self.old)) (link_at (entries_at self.new)) spot result.0 }
        ensures shown { (q : ℕ) → shown_at (entries_at self.new) q ≡ option_map (with_input q spot (KnownInput r)) (shown_at (entries_at self.old) q) }
        ensures stations { (q : ℕ) → station_at (entries_at self.new) q ≡ station_at (entries_at self.old) q }
        ensures there { IsSome (place_at (entries_at self.new) spot) }
        ensures counts { (q : ℕ) → option_map count_of (entries_at self.new q) ≡ option_map count_of (entries_at self.old q) }
        ensures size { IsSameSize self.old self.new }
    {
        let was = self.set_watched(spot, Place::Known(r));
        let link = was.0.unwrap();
        self.pass_first(link.task, link.next);
        (link, was.1, was.2)
    }
}
