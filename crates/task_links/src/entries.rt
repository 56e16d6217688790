// The entries of tasks, and the lists of those that await each.
ghost use Rattle.std.specs.Prelude.{◌≡◌, ◌<◌, ◌≤◌, ◌+◌, ℕ, cond, nat_eq, Some, None, IsSome};
ghost use Rattle.std.specs.HashMap.{hash_map_len};
ghost use Rattle.std.specs.Option.{option_map};
ghost use Rattle.std.specs.List.{list_any};
ghost use Rattle.task_states.specs.States.{is_awaiting, status_of};
ghost use Rattle.task_links.specs.declared.entries.Spot.{Spot as AnySpot};
ghost use Rattle.task_links.specs.declared.entries.Entry.{Entry as AnyEntry};
ghost use Rattle.task_links.specs.Inside.{entries_at, put_in, room_of, IsSameSize, shown_place, place_at, is_spot, with_input, shown_at, shown_entry, station_at, caller_in, with_runner_at, with_asked_at, with_place_at, with_follower_at, with_leader_at};
ghost use Rattle.task_links.specs.Kept.{opened, opened_place, joined_if};
ghost use Rattle.task_links.specs.Weave.{head_at, link_at, with_next, with_joined, with_passed, with_joined_at, with_passed_at, IsBeside, count_of};
ghost use Rattle.task_links.specs.Order.{with_after_at, with_before_at};

use crate::kept::{Kept, KeptPlace, kept_place, link_in};
use crate::quarters::{Quarters, split_if};
use cht_ids::Ref;
use std::collections::HashMap;

/// A place of an input of a task.
#[derive(Clone, Copy)]
pub struct Spot {
    pub task: u128,
    pub place: u8,
}

/// What an awaiting input awaits, under which number, and the next input that awaits the same task.
#[derive(Clone, Copy)]
pub struct Link {
    pub task: u128,
    pub number: u128,
    pub next: Option<Spot>,
}

/// An input of a task.
#[derive(Clone, Copy)]
pub enum Place {
    Known(Ref),
    Awaits(Link),
}

/// A task: its inputs are the first `count` places. The inputs that await it are a list in the order of their numbers, from
/// `first` to `last`; the tasks of its caller are one too, in which the task stands between `before` and `after`.
#[derive(Clone, Copy)]
pub struct Entry<K> {
    pub caller: u32,
    pub kind: K,
    pub runner: Option<u32>,
    pub asked: Option<u128>,
    pub count: u32,
    pub places: [Place; 4],
    pub first: Option<Spot>,
    pub last: Option<Spot>,
    pub before: Option<u128>,
    pub after: Option<u128>,
}

/// All tasks by number, as they are kept.
#[derive(Drop)]
pub struct Entries<K> {
    pub tasks: HashMap<u128, Kept<K>>,
}

impl<K: Copy> Entries<K> {
    /// What is kept of a task.
    #[inline(always)]
    pub fn look(&self, task: u128) -> &Kept<K>
        requires { IsSome (entries_at self.now task) }
        ensures { entries_at self.now task ≡ Some (opened result.now) }
    {
        self.tasks.get(&task).unwrap()
    }

    // The input at a place, as it is kept.
    #[inline(always)]
    fn kept_input(&self, spot: Spot) -> KeptPlace
        requires { IsSome (place_at (entries_at self.now) spot) }
        ensures { place_at (entries_at self.now) spot ≡ Some (opened_place result) }
    {
        let kept = self.look(spot.task);
        kept.place(spot.place)
    }

    // Writes the input at a place. Answers the one that was there.
    #[inline(always)]
    fn swap_place(&mut self, spot: Spot, place: KeptPlace) -> KeptPlace
        requires { IsSome (place_at (entries_at self.old) spot) }
        ensures was { place_at (entries_at self.old) spot ≡ Some (opened_place result) }
        ensures at { (q : ℕ) → entries_at self.new q ≡ option_map (with_place_at q spot (opened_place place)) (entries_at self.old q) }
        ensures size { IsSameSize self.old self.new }
    {
        let kept = self.tasks.get_mut(&spot.task).unwrap();
        kept.swap_place(spot.place, place)
    }

    // Writes the input at a place. Answers the one that was there, whether the task awaits another then, and the task's caller.
    #[inline(always)]
    fn swap_watched(&mut self, spot: Spot, place: KeptPlace) -> (KeptPlace, bool, u32)
        requires there { IsSome (place_at (entries_at self.old) spot) }
        requires short { (entry : AnyEntry K) → entries_at self.old spot.task ≡ Some entry → entry.count ≤ 4 }
        ensures was { place_at (entries_at self.old) spot ≡ Some (opened_place result.0) }
        ensures at { (q : ℕ) → entries_at self.new q ≡ option_map (with_place_at q spot (opened_place place)) (entries_at self.old q) }
        ensures waits { option_map (λ entry. list_any is_awaiting (shown_entry entry).inputs) (entries_at self.new spot.task) ≡ Some result.1 }
        ensures caller { option_map caller_in (entries_at self.old spot.task) ≡ Some result.2 }
        ensures size { IsSameSize self.old self.new }
    {
        let kept = self.tasks.get_mut(&spot.task).unwrap();
        let was = kept.swap_watched(spot.place, place);
        (was.0, was.1, kept.caller)
    }

    // Writes the ends of a task's list that an input joined between two others.
    #[inline(always)]
    fn write_joined(&mut self, task: u128, before: Option<Spot>, spot: Spot, next: Option<Spot>)
        requires { IsSome (entries_at self.old task) }
        ensures at { (q : ℕ) → entries_at self.new q ≡ option_map (with_joined_at q task before spot next) (entries_at self.old q) }
        ensures size { IsSameSize self.old self.new }
    {
        if let Some(kept) = self.tasks.get_mut(&task) {
            kept.join_ends(before, spot, next);
        }
    }

    // Writes the ends of a task's list whose first has gone, by what follows.
    #[inline(always)]
    fn write_passed(&mut self, task: u128, next: Option<Spot>)
        requires { IsSome (entries_at self.old task) }
        ensures at { (q : ℕ) → entries_at self.new q ≡ option_map (with_passed_at q task next) (entries_at self.old q) }
        ensures size { IsSameSize self.old self.new }
    {
        if let Some(kept) = self.tasks.get_mut(&task) {
            kept.pass_first(next);
        }
    }

    // The link of an input, where it awaits a task.
    #[inline(always)]
    fn awaited(&self, spot: Spot) -> Option<Link>
        requires { IsSome (place_at (entries_at self.now) spot) }
        ensures { result ≡ link_at (entries_at self.now) spot }
    {
        link_in(self.kept_input(spot))
    }

    /// The link of an awaiting input.
    #[inline(always)]
    pub fn link(&self, spot: Spot) -> Link
        requires { IsSome (link_at (entries_at self.now) spot) }
        ensures { link_at (entries_at self.now) spot ≡ Some result }
    {
        self.awaited(spot).unwrap()
    }

    /// Writes the input at a place. Answers the link of the one that was there, if it awaited a task.
    #[inline(always)]
    pub fn set_place(&mut self, spot: Spot, place: Place) -> Option<Link>
        requires { IsSome (place_at (entries_at self.old) spot) }
        ensures link { result ≡ link_at (entries_at self.old) spot }
        ensures places { (p : AnySpot) → place_at (entries_at self.new) p ≡ cond (is_spot p spot) (Some place) (place_at (entries_at self.old) p) }
        ensures heads { (q : ℕ) → head_at (entries_at self.new) q ≡ head_at (entries_at self.old) q }
        ensures shown { (q : ℕ) → shown_at (entries_at self.new) q ≡ option_map (with_input q spot (shown_place place)) (shown_at (entries_at self.old) q) }
        ensures stations { (q : ℕ) → station_at (entries_at self.new) q ≡ station_at (entries_at self.old) q }
        ensures counts { (q : ℕ) → option_map count_of (entries_at self.new q) ≡ option_map count_of (entries_at self.old q) }
        ensures size { IsSameSize self.old self.new }
    {
        let was = self.swap_place(spot, kept_place(place));
        link_in(was)
    }

    /// Writes the input at a place. Answers the link of the one that was there, if it awaited a task, whether the task awaits
    /// another then, and the task's caller.
    #[inline(always)]
    pub fn set_watched(&mut self, spot: Spot, place: Place) -> (Option<Link>, bool, u32)
        requires there { IsSome (place_at (entries_at self.old) spot) }
        requires short { (entry : AnyEntry K) → entries_at self.old spot.task ≡ Some entry → entry.count ≤ 4 }
        ensures link { result.0 ≡ link_at (entries_at self.old) spot }
        ensures places { (p : AnySpot) → place_at (entries_at self.new) p ≡ cond (is_spot p spot) (Some place) (place_at (entries_at self.old) p) }
        ensures heads { (q : ℕ) → head_at (entries_at self.new) q ≡ head_at (entries_at self.old) q }
        ensures shown { (q : ℕ) → shown_at (entries_at self.new) q ≡ option_map (with_input q spot (shown_place place)) (shown_at (entries_at self.old) q) }
        ensures waits { option_map (λ entry. list_any is_awaiting (shown_entry entry).inputs) (entries_at self.new spot.task) ≡ Some result.1 }
        ensures caller { option_map caller_in (entries_at self.old spot.task) ≡ Some result.2 }
        ensures stations { (q : ℕ) → station_at (entries_at self.new) q ≡ station_at (entries_at self.old) q }
        ensures counts { (q : ℕ) → option_map count_of (entries_at self.new q) ≡ option_map count_of (entries_at self.old q) }
        ensures size { IsSameSize self.old self.new }
    {
        let was = self.swap_watched(spot, kept_place(place));
        (link_in(was.0), was.1, was.2)
    }

    /// Writes the next one of an awaiting input.
    #[inline(always)]
    pub fn set_next(&mut self, spot: Spot, next: Option<Spot>)
        requires { IsSome (link_at (entries_at self.old) spot) }
        ensures links { (p : AnySpot) → link_at (entries_at self.new) p ≡ option_map (with_next p spot next) (link_at (entries_at self.old) p) }
        ensures heads { (q : ℕ) → head_at (entries_at self.new) q ≡ head_at (entries_at self.old) q }
        ensures shown { (q : ℕ) → shown_at (entries_at self.new) q ≡ shown_at (entries_at self.old) q }
        ensures stations { (q : ℕ) → station_at (entries_at self.new) q ≡ station_at (entries_at self.old) q }
        ensures counts { (q : ℕ) → option_map count_of (entries_at self.new q) ≡ option_map count_of (entries_at self.old q) }
        ensures size { IsSameSize self.old self.new }
    {
        let link = self.link(spot);
        let _was = self.set_place(spot, Place::Awaits(Link { next, ..link }));
    }

    /// Writes the ends of a task's list that an input joined between two others.
    #[inline(always)]
    pub fn join_ends(&mut self, task: u128, before: Option<Spot>, spot: Spot, next: Option<Spot>)
        requires { IsSome (entries_at self.old task) }
        ensures links { (p : AnySpot) → link_at (entries_at self.new) p ≡ link_at (entries_at self.old) p }
        ensures places { (p : AnySpot) → place_at (entries_at self.new) p ≡ place_at (entries_at self.old) p }
        ensures heads { (q : ℕ) → head_at (entries_at self.new) q ≡ option_map (with_joined q task before spot next) (head_at (entries_at self.old) q) }
        ensures shown { (q : ℕ) → shown_at (entries_at self.new) q ≡ shown_at (entries_at self.old) q }
        ensures stations { (q : ℕ) → station_at (entries_at self.new) q ≡ station_at (entries_at self.old) q }
        ensures counts { (q : ℕ) → option_map count_of (entries_at self.new q) ≡ option_map count_of (entries_at self.old q) }
        ensures size { IsSameSize self.old self.new }
    {
        self.write_joined(task, before, spot, next);
    }

    /// Writes the ends of a task's list whose first has gone, by what follows.
    #[inline(always)]
    pub fn pass_first(&mut self, task: u128, next: Option<Spot>)
        requires { IsSome (entries_at self.old task) }
        ensures links { (p : AnySpot) → link_at (entries_at self.new) p ≡ link_at (entries_at self.old) p }
        ensures places { (p : AnySpot) → place_at (entries_at self.new) p ≡ place_at (entries_at self.old) p }
        ensures heads { (q : ℕ) → head_at (entries_at self.new) q ≡ option_map (with_passed q task next) (head_at (entries_at self.old) q) }
        ensures shown { (q : ℕ) → shown_at (entries_at self.new) q ≡ shown_at (entries_at self.old) q }
        ensures stations { (q : ℕ) → station_at (entries_at self.new) q ≡ station_at (entries_at self.old) q }
        ensures counts { (q : ℕ) → option_map count_of (entries_at self.new q) ≡ option_map count_of (entries_at self.old q) }
        ensures size { IsSameSize self.old self.new }
    {
        self.write_passed(task, next);
    }

    // Writes the task that follows a task, as it is kept.
    #[inline(always)]
    fn write_after(&mut self, task: u128, after: Quarters, has_after: bool)
        requires { IsSome (entries_at self.old task) }
        ensures at { (q : ℕ) → entries_at self.new q ≡ option_map (with_follower_at q task (joined_if after has_after)) (entries_at self.old q) }
        ensures size { IsSameSize self.old self.new }
    {
        if let Some(kept) = self.tasks.get_mut(&task) {
            kept.after = after;
            kept.has_after = has_after;
        }
    }

    // Writes the task that stands before a task, as it is kept.
    #[inline(always)]
    fn write_before(&mut self, task: u128, before: Quarters, has_before: bool)
        requires { IsSome (entries_at self.old task) }
        ensures at { (q : ℕ) → entries_at self.new q ≡ option_map (with_leader_at q task (joined_if before has_before)) (entries_at self.old q) }
        ensures size { IsSameSize self.old self.new }
    {
        if let Some(kept) = self.tasks.get_mut(&task) {
            kept.before = before;
            kept.has_before = has_before;
        }
    }

    /// Writes the task that follows a task among those of its caller.
    #[inline(always)]
    pub fn set_after(&mut self, task: u128, after: Option<u128>)
        requires { IsSome (entries_at self.old task) }
        ensures stations { (q : ℕ) → station_at (entries_at self.new) q ≡ option_map (with_after_at q (Some task) after) (station_at (entries_at self.old) q) }
        ensures beside { IsBeside (entries_at self.old) (entries_at self.new) }
        ensures size { IsSameSize self.old self.new }
    {
        let (after, has_after) = split_if(after);
        self.write_after(task, after, has_after);
    }

    /// Writes the task that stands before a task among those of its caller.
    #[inline(always)]
    pub fn set_before(&mut self, task: u128, before: Option<u128>)
        requires { IsSome (entries_at self.old task) }
        ensures stations { (q : ℕ) → station_at (entries_at self.new) q ≡ option_map (with_before_at q (Some task) before) (station_at (entries_at self.old) q) }
        ensures beside { IsBeside (entries_at self.old) (entries_at self.new) }
        ensures size { IsSameSize self.old self.new }
    {
        let (before, has_before) = split_if(before);
        self.write_before(task, before, has_before);
    }

    /// Writes the worker that runs a task. Answers the task's caller.
    #[inline(always)]
    pub fn set_runner(&mut self, task: u128, runner: Option<u32>) -> u32
        requires { IsSome (entries_at self.old task) }
        ensures caller { option_map caller_in (entries_at self.old task) ≡ Some result }
        ensures at { (q : ℕ) → entries_at self.new q ≡ option_map (with_runner_at q task runner) (entries_at self.old q) }
        ensures size { IsSameSize self.old self.new }
    {
        let kept = self.tasks.get_mut(&task).unwrap();
        kept.runner = runner;
        kept.caller
    }

    // Writes the number of a task's asked output, as it is kept.
    #[inline(always)]
    fn write_asked(&mut self, task: u128, asked: Quarters, is_asked: bool)
        requires { IsSome (entries_at self.old task) }
        ensures at { (q : ℕ) → entries_at self.new q ≡ option_map (with_asked_at q task (joined_if asked is_asked)) (entries_at self.old q) }
        ensures size { IsSameSize self.old self.new }
    {
        if let Some(kept) = self.tasks.get_mut(&task) {
            kept.asked = asked;
            kept.is_asked = is_asked;
        }
    }

    /// Writes the number of a task's asked output.
    #[inline(always)]
    pub fn set_asked(&mut self, task: u128, asked: Option<u128>)
        requires { IsSome (entries_at self.old task) }
        ensures at { (q : ℕ) → entries_at self.new q ≡ option_map (with_asked_at q task asked) (entries_at self.old q) }
        ensures size { IsSameSize self.old self.new }
    {
        let (asked, is_asked) = split_if(asked);
        self.write_asked(task, asked, is_asked);
    }

    /// One more task, for which there is room, between two others of its caller.
    #[inline(always)]
    pub fn insert(&mut self, task: u128, kept: Kept<K>, before: Option<u128>, after: Option<u128>)
        requires new { entries_at self.old task ≡ None }
        requires room { 0 < room_of self.old }
        ensures at { (q : ℕ) → entries_at self.new q ≡ put_in task (record (opened kept) { before = before; after = after }) (entries_at self.old) q }
        ensures len { hash_map_len self.new.tasks ≡ hash_map_len self.old.tasks + 1 }
        ensures room { room_of self.old ≤ room_of self.new + 1 }
    {
        let placed = kept.between(before, after);
        let reserved: Result<_, _> = self.tasks.insert(task, placed);
        reserved.unwrap();
    }

    /// Takes a task out.
    #[inline(always)]
    pub fn remove(&mut self, task: u128) -> Entry<K>
        requires { IsSome (entries_at self.old task) }
        ensures entry { entries_at self.old task ≡ Some result }
        ensures at { (q : ℕ) → entries_at self.new q ≡ cond (nat_eq q task) None (entries_at self.old q) }
        ensures len { hash_map_len self.new.tasks + 1 ≡ hash_map_len self.old.tasks }
        ensures room { room_of self.old ≤ room_of self.new }
    {
        let kept = self.tasks.remove(&task).unwrap();
        kept.open()
    }
}

impl<K: Copy> Entries<K> {
    /// What is kept of a task, if there is one.
    #[inline(always)]
    pub fn find(&self, task: u128) -> Option<&Kept<K>>
        ensures { option_map (λ kept. opened kept.now) result ≡ entries_at self.now task }
    {
        self.tasks.get(&task)
    }
}
