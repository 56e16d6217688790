// Entries of tasks as they are kept: numbers in quarters, and few bytes for what may be missing.
ghost use Rattle.std.specs.Prelude.{◌≡◌, ◌<◌, ◌≤◌, ◌+◌, ◌*◌, ◌^◌, map as each, set, slice_get, None, Some, IsSome, IfSome};
ghost use Rattle.task_links.specs.declared.entries.Place.TheVariants.{Known, Awaits};
ghost use Rattle.std.specs.List.{list_any};
ghost use Rattle.task_states.specs.States.{is_awaiting, status_of};
ghost use Rattle.task_links.specs.Inside.{shown_place, shown_entry, inputs_of};
ghost use Rattle.task_links.specs.Weave.{link_of, instead, last_behind};
ghost use Rattle.task_links.specs.Kept.{joined, joined_if, opened_place, first_in, last_in, opened};

use crate::entries::{Entry, Link, Place, Spot};
use crate::quarters::{Quarters, split, split_if, whole, whole_if};
use cht_ids::{Id, Ref};
use task_states::TaskStatus;

/// An input: null; the owner and the number of a reference; the awaited task and the input's own number, without a next
/// input; or the place of the next input, the awaited task, the input's own number, and the task of the next input.
#[derive(Clone, Copy)]
pub enum KeptPlace {
    Null,
    Refers(u32, Quarters),
    Last(Quarters, Quarters),
    Linked(u8, Quarters, Quarters, Quarters),
}

/// The first and the last input of a list: places come before tasks.
#[derive(Clone, Copy)]
pub enum KeptEnds {
    Neither,
    First(u8, Quarters),
    Last(u8, Quarters),
    Both(u8, u8, Quarters, Quarters),
}

/// An entry. A number counts where its flag is set.
#[derive(Clone, Copy)]
pub struct Kept<K> {
    pub places: [KeptPlace; 4],
    pub ends: KeptEnds,
    pub asked: Quarters,
    pub before: Quarters,
    pub after: Quarters,
    pub runner: Option<u32>,
    pub caller: u32,
    pub count: u32,
    pub is_asked: bool,
    pub has_before: bool,
    pub has_after: bool,
    pub kind: K,
}

const _: () = prove!(size_of::<KeptPlace>() == 52);

const _: () = prove!(size_of::<KeptEnds>() == 36);

// An awaiting input as it is kept.
#[inline(always)]
fn kept_link(link: Link) -> KeptPlace
    ensures { opened_place result ≡ Awaits link }
{
    match link.next {
        None => KeptPlace::Last(split(link.task), split(link.number)),
        Some(next) => KeptPlace::Linked(
            next.place,
            split(link.task),
            split(link.number),
            split(next.task),
        ),
    }
}

// An input as it is kept.
#[inline(always)]
pub(crate) fn kept_place(place: Place) -> KeptPlace
    ensures { opened_place result ≡ place }
{
    match place {
        Place::Known(Ref::Null) => KeptPlace::Null,
        Place::Known(Ref::Id(id)) => KeptPlace::Refers(id.owner, split(id.number)),
        Place::Awaits(link) => kept_link(link),
    }
}

// An input that is kept.
#[inline(always)]
fn place(kept: KeptPlace) -> Place
    ensures { result ≡ opened_place kept }
{
    match kept {
        KeptPlace::Null => Place::Known(Ref::Null),
        KeptPlace::Refers(owner, number) => {
            let id = Id {
                owner,
                number: whole(number),
            };
            Place::Known(Ref::Id(id))
        }
        KeptPlace::Last(task, number) => Place::Awaits(Link {
            task: whole(task),
            number: whole(number),
            next: None,
        }),
        KeptPlace::Linked(place, task, number, next) => {
            let next = Spot {
                task: whole(next),
                place,
            };
            Place::Awaits(Link {
                task: whole(task),
                number: whole(number),
                next: Some(next),
            })
        }
    }
}

// The link of an input, where it awaits a task.
#[inline(always)]
pub(crate) fn link_in(kept: KeptPlace) -> Option<Link>
    ensures { result ≡ link_of (Some (opened_place kept)) }
{
    match place(kept) {
        Place::Known(_) => None,
        Place::Awaits(link) => Some(link),
    }
}

// An input, or another where nothing is given.
#[inline(always)]
fn instead(there: Option<Spot>, spot: Spot, other: Option<Spot>) -> Option<Spot>
    ensures { result ≡ instead there spot other }
{
    match there {
        None => Some(spot),
        Some(_) => other,
    }
}

// The last of a list whose first has gone, by what follows.
#[inline(always)]
fn last_behind(next: Option<Spot>, last: Option<Spot>) -> Option<Spot>
    ensures { result ≡ last_behind next last }
{
    match next {
        None => None,
        Some(_) => last,
    }
}

// The ends of a list as they are kept.
#[inline(always)]
pub(crate) fn kept_ends(first: Option<Spot>, last: Option<Spot>) -> KeptEnds
    ensures first { first_in result ≡ first }
    ensures last { last_in result ≡ last }
{
    match first {
        None => match last {
            None => KeptEnds::Neither,
            Some(last) => KeptEnds::Last(last.place, split(last.task)),
        },
        Some(first) => match last {
            None => KeptEnds::First(first.place, split(first.task)),
            Some(last) => {
                KeptEnds::Both(first.place, last.place, split(first.task), split(last.task))
            }
        },
    }
}

// An input by its task in quarters and its place.
#[inline(always)]
fn spot(task: Quarters, place: u8) -> Spot
    ensures { result ≡ record { task = joined task; place = place } }
{
    Spot {
        task: whole(task),
        place,
    }
}

// The first input of a list.
#[inline(always)]
fn first(ends: KeptEnds) -> Option<Spot>
    ensures { result ≡ first_in ends }
{
    match ends {
        KeptEnds::Neither => None,
        KeptEnds::First(place, task) => Some(spot(task, place)),
        KeptEnds::Last(_, _) => None,
        KeptEnds::Both(place, _, task, _) => Some(spot(task, place)),
    }
}

// The last input of a list.
#[inline(always)]
fn last(ends: KeptEnds) -> Option<Spot>
    ensures { result ≡ last_in ends }
{
    match ends {
        KeptEnds::Neither => None,
        KeptEnds::First(_, _) => None,
        KeptEnds::Last(place, task) => Some(spot(task, place)),
        KeptEnds::Both(_, place, _, task) => Some(spot(task, place)),
    }
}

// Inputs that are kept.
#[inline(always)]
fn places(kept: &[KeptPlace; 4]) -> [Place; 4]
    ensures { result ≡ each opened_place kept.now }
{
    [
        place(kept[0]),
        place(kept[1]),
        place(kept[2]),
        place(kept[3]),
    ]
}

impl KeptPlace {
    /// What is kept of an input that is there.
    #[inline(always)]
    pub fn known(r: Ref) -> KeptPlace
        ensures { opened_place result ≡ Known r }
    {
        kept_place(Place::Known(r))
    }

    /// The input.
    #[inline(always)]
    pub fn open(self) -> Place
        ensures { result ≡ opened_place self }
    {
        place(self)
    }

    // Whether the input awaits a task.
    #[inline(always)]
    fn is_awaiting(&self) -> bool
        ensures { result ≡ is_awaiting (shown_place (opened_place self.now)) }
    {
        match self {
            KeptPlace::Null => false,
            KeptPlace::Refers(_, _) => false,
            KeptPlace::Last(_, _) => true,
            KeptPlace::Linked(_, _, _, _) => true,
        }
    }
}

/// Whether one of these inputs awaits a task.
#[inline]
pub fn any_awaits(places: &[KeptPlace]) -> bool
    ensures { result ≡ list_any (λ place. is_awaiting (shown_place (opened_place place))) places.now }
{
    places.iter().any(|place| place.is_awaiting())
}

impl<K: Copy> Kept<K> {
    /// Whether an input awaits a task.
    #[inline(always)]
    pub fn is_waiting(&self) -> bool
        requires { self.now.count ≤ 4 }
        ensures { result ≡ list_any is_awaiting (shown_entry (opened self.now)).inputs }
    {
        any_awaits(&self.places[..self.count as usize])
    }

    /// How far the task is.
    #[inline(always)]
    pub fn status(&self) -> TaskStatus
        requires { self.now.count ≤ 4 }
        ensures { result ≡ status_of (shown_entry (opened self.now)) }
    {
        if self.is_waiting() {
            TaskStatus::Waiting
        } else if self.runner.is_some() {
            TaskStatus::Running
        } else {
            TaskStatus::Ready
        }
    }

    /// The number of the asked output, if the caller awaits it.
    #[inline(always)]
    pub fn asked(&self) -> Option<u128>
        ensures { result ≡ (opened self.now).asked }
    {
        whole_if(self.asked, self.is_asked)
    }

    /// The first input that awaits the task, if one does.
    #[inline(always)]
    pub fn first(&self) -> Option<Spot>
        ensures { result ≡ (opened self.now).first }
    {
        first(self.ends)
    }

    /// The last input that awaits the task, if one does.
    #[inline(always)]
    pub fn last(&self) -> Option<Spot>
        ensures { result ≡ (opened self.now).last }
    {
        last(self.ends)
    }

    /// The task that stands before among those of the caller, if there is one.
    #[inline(always)]
    pub fn leader(&self) -> Option<u128>
        ensures { result ≡ (opened self.now).before }
    {
        whole_if(self.before, self.has_before)
    }

    /// The task that follows among those of the caller, if there is one.
    #[inline(always)]
    pub fn follower(&self) -> Option<u128>
        ensures { result ≡ (opened self.now).after }
    {
        whole_if(self.after, self.has_after)
    }

    /// The input at a place, counted from 0, if there is one.
    #[inline(always)]
    pub fn input(&self, at: u32) -> Option<Place>
        requires { self.now.count ≤ 4 }
        ensures input { result ≡ slice_get (inputs_of (opened self.now)) at }
        ensures few { IfSome result (λ _. at < 4) }
    {
        if at < self.count {
            Some(place(self.place(at as u8)))
        } else {
            None
        }
    }

    // The input at a place, as it is kept.
    #[inline(always)]
    pub(crate) fn place(&self, place: u8) -> KeptPlace
        requires { IsSome (slice_get (inputs_of (opened self.now)) place) }
        ensures { slice_get (inputs_of (opened self.now)) place ≡ Some (opened_place result) }
    {
        self.places[place as usize]
    }

    // Writes the input at a place.
    #[inline(always)]
    fn set_place(&mut self, place: u8, kept: KeptPlace)
        requires { IsSome (slice_get (inputs_of (opened self.old)) place) }
        ensures { opened self.new ≡ record (opened self.old) { places = set (opened self.old).places place (opened_place kept) } }
    {
        self.places[place as usize] = kept;
    }

    // Writes the input at a place. Answers the one that was there.
    #[inline(always)]
    pub(crate) fn swap_place(&mut self, place: u8, kept: KeptPlace) -> KeptPlace
        requires { IsSome (slice_get (inputs_of (opened self.old)) place) }
        ensures was { slice_get (inputs_of (opened self.old)) place ≡ Some (opened_place result) }
        ensures written { opened self.new ≡ record (opened self.old) { places = set (opened self.old).places place (opened_place kept) } }
    {
        let was = self.place(place);
        self.set_place(place, kept);
        was
    }

    // Writes the input at a place. Answers the one that was there, and whether the task awaits another then.
    #[inline(always)]
    pub(crate) fn swap_watched(&mut self, place: u8, kept: KeptPlace) -> (KeptPlace, bool)
        requires there { IsSome (slice_get (inputs_of (opened self.old)) place) }
        requires short { self.old.count ≤ 4 }
        ensures was { slice_get (inputs_of (opened self.old)) place ≡ Some (opened_place result.0) }
        ensures written { opened self.new ≡ record (opened self.old) { places = set (opened self.old).places place (opened_place kept) } }
        ensures waits { result.1 ≡ list_any is_awaiting (shown_entry (opened self.new)).inputs }
    {
        let was = self.swap_place(place, kept);
        let waits = self.is_waiting();
        (was, waits)
    }

    // Writes the ends of the task's list that an input joined between two others.
    #[inline(always)]
    pub(crate) fn join_ends(&mut self, before: Option<Spot>, spot: Spot, next: Option<Spot>)
        ensures { opened self.new ≡ record (opened self.old) { first = instead before spot (opened self.old).first; last = instead next spot (opened self.old).last } }
    {
        let first = instead(before, spot, self.first());
        let last = instead(next, spot, self.last());
        self.ends = kept_ends(first, last);
    }

    // Writes the ends of the task's list whose first has gone, by what follows.
    #[inline(always)]
    pub(crate) fn pass_first(&mut self, next: Option<Spot>)
        ensures { opened self.new ≡ record (opened self.old) { first = next; last = last_behind next (opened self.old).last } }
    {
        let last = last_behind(next, self.last());
        self.ends = kept_ends(next, last);
    }

    /// A task with these inputs, which nobody awaits and no worker runs. It stands beside no other.
    #[inline(always)]
    pub fn alone(caller: u32, kind: K, count: u32, places: [KeptPlace; 4]) -> Kept<K>
        ensures { opened result ≡ record { caller = caller; kind = kind; runner = None; asked = None; count = count; places = each opened_place places; first = None; last = None; before = None; after = None } }
    {
        let none = split(0);
        Kept {
            places,
            ends: KeptEnds::Neither,
            asked: none,
            before: none,
            after: none,
            runner: None,
            caller,
            count,
            is_asked: false,
            has_before: false,
            has_after: false,
            kind,
        }
    }

    /// The same task between two others of its caller.
    #[inline(always)]
    pub fn between(self, before: Option<u128>, after: Option<u128>) -> Kept<K>
        ensures { opened result ≡ record (opened self) { before = before; after = after } }
    {
        let (before, has_before) = split_if(before);
        let (after, has_after) = split_if(after);
        Kept {
            before,
            after,
            has_before,
            has_after,
            ..self
        }
    }

    /// The entry.
    #[inline(always)]
    pub fn open(&self) -> Entry<K>
        ensures { result ≡ opened self.now }
    {
        Entry {
            caller: self.caller,
            kind: self.kind,
            runner: self.runner,
            asked: whole_if(self.asked, self.is_asked),
            count: self.count,
            places: places(&self.places),
            first: first(self.ends),
            last: last(self.ends),
            before: whole_if(self.before, self.has_before),
            after: whole_if(self.after, self.has_after),
        }
    }
}
