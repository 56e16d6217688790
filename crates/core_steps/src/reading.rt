// What the places of an outcome name.
ghost use Rattle.std.specs.Prelude.{◌≡◌, slice_get};
ghost use Rattle.std.specs.Option.{option_copied};
ghost use Rattle.cht_ids.specs.declared.refs.Ref.TheVariants.{Id as Held};
ghost use Rattle.task_types.specs.Places.{places_of, place_at};
ghost use Rattle.name_states.specs.States.{IsLive, IsLiveRef, AreLive};
ghost use Rattle.name_machine.specs.Control.{ref_at, child_named, ref_named};

use cht_ids::{Id, Ref};
use chunk_refs::Refs;
use task_types::{Payload, Place, Places};

// The reference at a place of a list, counted from 0, if there is one.
fn get_ref(refs: &[Ref], i: usize) -> Option<&Ref>
    ensures { option_copied result ≡ slice_get refs.now i }
{
    refs.get(i)
}

// The reference at a place of a list, counted from 0; null past the end.
fn nth_ref(refs: &[Ref], i: u8) -> Ref
    ensures { result ≡ ref_at refs.now i }
{
    match get_ref(refs, i as usize) {
        None => Ref::Null,
        Some(r) => *r,
    }
}

/// The place with a number, counted from 0; null past the last one.
pub(crate) fn nth_place(places: &Places, i: u32) -> Place
    ensures { result ≡ place_at (places_of places.now) i }
{
    match places.get(i) {
        None => Place::Null,
        Some(place) => place,
    }
}

// Child `j` of a live identifier, counted from 0; null past the last one.
fn nth_child<C: Payload>(names: &Refs<C>, id: Id, j: u8) -> Ref
    requires { IsLive names.now.names id }
    ensures value { result ≡ child_named names.now.names (Held id) j }
    ensures live { IsLiveRef names.now.names result }
{
    match names.nth_child(id, j as u32) {
        None => Ref::Null,
        Some(child) => child,
    }
}

// Child `j` of what a live reference names, counted from 0; null past the last one, and for null.
#[inline(never)]
fn child_at<C: Payload>(names: &Refs<C>, r: Ref, j: u8) -> Ref
    requires { IsLiveRef names.now.names r }
    ensures value { result ≡ child_named names.now.names r j }
    ensures live { IsLiveRef names.now.names result }
{
    match r {
        Ref::Null => Ref::Null,
        Ref::Id(id) => nth_child(names, id, j),
    }
}

/// What a place of an outcome names, over the references of the task's inputs and of its new chunks; null for the output of
/// a new task, and past the end.
#[inline(always)]
pub fn read_place<C: Payload>(names: &Refs<C>, inputs: &[Ref], made: &[Ref], place: Place) -> Ref
    requires inputs { AreLive names.now.names inputs.now }
    requires made { AreLive names.now.names made.now }
    ensures value { result ≡ ref_named names.now.names inputs.now made.now place }
    ensures live { IsLiveRef names.now.names result }
{
    match place {
        Place::Null => Ref::Null,
        Place::Input(i) => nth_ref(inputs, i),
        Place::Child(i, j) => child_at(names, nth_ref(inputs, i), j),
        Place::Chunk(i) => nth_ref(made, i),
        Place::Task(_) => Ref::Null,
    }
}
