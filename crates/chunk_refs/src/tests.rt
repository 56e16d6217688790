ghost use Rattle.std.specs.Prelude.{◌≡◌, ℕ, ◌+◌, ◌≤◌, ◌<◌, ◌^◌, length, IsTrue};
ghost use Rattle.name_states.specs.States.{IsLiveRef, AreLive};
ghost use Rattle.chunk_refs.specs.Room.{workers_of};
ghost use Rattle.name_states.specs.Steps.{present};
ghost use Rattle.name_states.specs.Rules.{AreWithin};

use crate::{Holder, Refs};
use cht_ids::{Counter, Id, Memory, Ref};
use std::alloc::Global;
use std::test::Fail;
use task_types::{Body, Payload};

// A number without children, or a node with four.
#[derive(Clone, Copy, Debug, PartialEq, Eq)]
enum Shape {
    Num(i64),
    Node { height: u32, peak: u32 },
}

impl Payload for Shape {
    ghost use Rattle.std.proofs.Common.{rules};
    ghost use Rattle.chunk_refs.specs.declared.tests.Shape.TheVariants.{Num, Node};

    ghost arity = { elim [ Num n ↦ 0 | Node height peak ↦ 4 ] };

    ghost sound = { λ content. Unit {0} };

    ghost few_children = { elim [ Num n ↦ Prim.search rules | Node height peak ↦ Prim.search rules ] };

    fn arity(&self) -> u32 {
        match self {
            Shape::Num(_) => 0,
            Shape::Node { .. } => 4,
        }
    }
}

// Whether a reference is null or a live identifier.
fn is_live(refs: &Refs<Shape>, r: Ref) -> bool
    ensures { IsTrue result → IsLiveRef refs.now.names r }
{
    match r {
        Ref::Null => true,
        Ref::Id(id) => refs.holder(id).is_some(),
    }
}

// Whether a content has as many children as these, each null or live.
#[tactic(auto, using(name_states::proofs::Within::drawn_few))]
fn may_have(refs: &Refs<Shape>, content: Shape, children: &[Ref]) -> bool
    ensures live { IsTrue result → AreLive refs.now.names children.now }
    ensures arity { IsTrue result → length children.now ≡ ⟦<Shape as Payload>⟧.arity content }
    ensures few { IsTrue result → present children.now ≤ 4 }
{
    match (content, children) {
        (Shape::Num(_), []) => true,
        (Shape::Node { .. }, [a, b, c, d]) => {
            is_live(refs, *a) && is_live(refs, *b) && is_live(refs, *c) && is_live(refs, *d)
        }
        _ => false,
    }
}

// Registers a body for caller 0, where its children may be so.
fn register(
    alloc: Global,
    refs: &mut Refs<Shape>,
    counter: &mut Counter,
    worker: u32,
    content: Shape,
    children: &[Ref],
) -> Result<Id, Memory>
    requires worker { worker < workers_of refs.old }
    requires numbered { AreWithin refs.old.names counter.old }
    requires few { counter.old < 2 ^ 90 }
    ensures workers { workers_of refs.new ≡ workers_of refs.old }
    ensures numbered { AreWithin refs.new.names counter.new }
    ensures few { counter.new ≤ counter.old + 6 }
{
    let body = Body::new(alloc, content)?;
    if may_have(refs, content, children) {
        let made = refs.register(counter, Holder::Caller(0), worker, body, children)?;
        Ok(made)
    } else {
        Err(Memory)
    }
}

// Deletes an identifier that a caller or a task holds.
fn delete(refs: &mut Refs<Shape>, id: Id) -> bool
    ensures workers { workers_of refs.new ≡ workers_of refs.old }
    ensures numbered { (bound : ℕ) → AreWithin refs.old.names bound → AreWithin refs.new.names bound }
{
    match refs.holder(id) {
        Some(Holder::Caller(_)) => {
            refs.delete(id);
            true
        }
        Some(Holder::Task(_)) => {
            refs.delete(id);
            true
        }
        _ => false,
    }
}

// Child `j` of a body that is there and has so many.
fn child(refs: &Refs<Shape>, id: Id, j: u32) -> Option<Ref> {
    if refs.holder(id).is_none() {
        return None;
    }
    if j < refs.look(id).content().arity() {
        Some(refs.child(id, j))
    } else {
        None
    }
}

// The content of a body that is there.
fn content(refs: &Refs<Shape>, id: Id) -> Option<Shape> {
    if refs.holder(id).is_none() {
        return None;
    }
    Some(*refs.look(id).content())
}

fn id(owner: u32, number: u128) -> Id {
    Id { owner, number }
}

// A copy for a task, with the next number.
fn copy_for_task(refs: &mut Refs<Shape>, counter: &mut Counter, from: Id) -> Result<Id, Memory>
    requires numbered { AreWithin refs.old.names counter.old }
    requires few { counter.old < 2 ^ 90 }
    ensures workers { workers_of refs.new ≡ workers_of refs.old }
    ensures numbered { AreWithin refs.new.names counter.new }
    ensures few { counter.new ≤ counter.old + 1 }
{
    if refs.holder(from).is_none() {
        return Err(Memory);
    }
    let number = counter.next();
    refs.copy(Holder::Task(9), from, number)
}

#[test]
fn a_body_goes_with_its_last_identifier(rt: HostRuntime) -> Result<(), Fail> {
    let alloc = rt.alloc();
    let mut refs: Refs<Shape> = Refs::new(alloc, 1)?;
    let mut counter = Counter::new();
    refs.reserve(0, 2, 4)?;
    let number = register(alloc, &mut refs, &mut counter, 0, Shape::Num(5), &[])?;
    assert_eq!(rt; number, id(0, 2));
    let named = Ref::Id(number);
    let children = [named, Ref::Null, Ref::Null, named];
    let shape = Shape::Node { height: 1, peak: 5 };
    let node = register(alloc, &mut refs, &mut counter, 0, shape, &children)?;
    assert_eq!(rt; node, id(0, 4));
    assert_eq!(rt; child(&refs, node, 0), Some(Ref::Id(id(0, 5))));
    assert_eq!(rt; child(&refs, node, 1), Some(Ref::Null));
    assert_eq!(rt; child(&refs, node, 3), Some(Ref::Id(id(0, 6))));
    assert_eq!(rt; refs.holder(id(0, 5)), Some(Holder::Body(3)));
    assert_eq!(rt; refs.live_bodies(), 2);
    assert_eq!(rt; refs.live_ids(), 4);
    assert!(rt; delete(&mut refs, number));
    assert_eq!(rt; refs.live_bodies(), 2);
    assert_eq!(rt; refs.live_ids(), 3);
    assert_eq!(rt; content(&refs, id(0, 6)), Some(Shape::Num(5)));
    assert!(rt; delete(&mut refs, node));
    assert_eq!(rt; refs.live_bodies(), 0);
    assert_eq!(rt; refs.live_ids(), 0);
    assert_eq!(rt; refs.holder(id(0, 5)), None);

    let number = register(alloc, &mut refs, &mut counter, 0, Shape::Num(7), &[])?;
    let copy = copy_for_task(&mut refs, &mut counter, number)?;
    assert_eq!(rt; refs.holder(copy), Some(Holder::Task(9)));
    assert!(rt; delete(&mut refs, number));
    assert_eq!(rt; content(&refs, copy), Some(Shape::Num(7)));
    Ok(())
}
