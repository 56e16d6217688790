ghost use Rattle.std.specs.Prelude.{◌≡◌, ◌+◌, ◌≤◌, [], ◌∷◌, ◌++◌, length, OnOk, OnErr};
ghost use Rattle.std.specs.List.{flat_map};
ghost use Rattle.cht_io.specs.Bytes.{Adds, AddsFront};
ghost use Rattle.cht_io.specs.Faults.{Rose};
ghost use Rattle.journal_text.specs.Text.{line_of, ended_line, last_words, journal_text};
ghost use Rattle.journal_text.specs.Openings.{ref_part, chunk_line, task_line, opening_words, closing, event_text};
ghost use Rattle.journal_text.specs.Sending.{IsSent};

use crate::buffer::{Held, LINE, SIZE};
use crate::pushing::{
    push_id, push_kind, push_number, push_place, push_places, push_ref, push_verb,
};
use cht_history::{Event, Journal};
use cht_ids::Ref;
use cht_io::{Failed, Sink};
use task_types::{Kinds, NewTask, Places};

/// Writes the text of a journal, without memory. After `Failed` the sink took a front of the text.
pub fn write_journal<K: Kinds, S: Sink>(journal: &Journal<K>, sink: &mut S) -> Result<(), Failed>
    ensures whole { OnOk result (Adds (S.took sink.old) (journal_text K.name_of K.height_of journal.now.events) (S.took sink.new)) }
    ensures front { OnErr result (AddsFront (S.took sink.old) (journal_text K.name_of K.height_of journal.now.events) (S.took sink.new)) }
    ensures cause { OnErr result (Rose (S.faults sink.old) (S.faults sink.new)) }
    ensures later { S.faults sink.old ≤ S.faults sink.new }
{
    let mut held = Held::new();
    held.push(b"cht journal 1\n");
    write_events(&mut held, sink, journal)?;
    write_end(&mut held, sink, journal.len())?;
    held.flush(sink)
}

// Sends the lines of all events.
fn write_events<K: Kinds, S: Sink>(
    held: &mut Held,
    sink: &mut S,
    journal: &Journal<K>,
) -> Result<(), Failed>
    ensures whole { OnOk result (IsSent (S.took sink.old) held.old (flat_map (event_text K.name_of K.height_of) journal.now.events) (S.took sink.new) held.new) }
    ensures front { OnErr result (AddsFront (S.took sink.old) (held.old ++ flat_map (event_text K.name_of K.height_of) journal.now.events) (S.took sink.new)) }
    ensures cause { OnErr result (Rose (S.faults sink.old) (S.faults sink.new)) }
    ensures later { S.faults sink.old ≤ S.faults sink.new }
{
    for i in 0..journal.len() {
        match journal.get(i) {
            Some(event) => write_event(held, sink, event)?,
            None => return Ok(()),
        }
    }
    Ok(())
}

// Sends the last line.
fn write_end<S: Sink>(held: &mut Held, sink: &mut S, count: u64) -> Result<(), Failed>
    ensures whole { OnOk result (IsSent (S.took sink.old) held.old (ended_line (last_words count)) (S.took sink.new) held.new) }
    ensures front { OnErr result (AddsFront (S.took sink.old) (held.old ++ ended_line (last_words count)) (S.took sink.new)) }
    ensures cause { OnErr result (Rose (S.faults sink.old) (S.faults sink.new)) }
    ensures later { S.faults sink.old ≤ S.faults sink.new }
{
    held.make_room(sink)?;
    push_end(held, count);
    Ok(())
}

// Adds the last line.
fn push_end(held: &mut Held, count: u64)
    requires { length held.old + LINE ≤ SIZE }
    ensures { held.new ≡ held.old ++ ended_line (last_words count) }
{
    held.push(b"end");
    push_number(held, count as u128);
    held.push(b"\n");
}

// Sends the lines of an event.
fn write_event<K: Kinds, S: Sink>(
    held: &mut Held,
    sink: &mut S,
    event: &Event<K>,
) -> Result<(), Failed>
    ensures whole { OnOk result (IsSent (S.took sink.old) held.old (event_text K.name_of K.height_of event.now) (S.took sink.new) held.new) }
    ensures front { OnErr result (AddsFront (S.took sink.old) (held.old ++ event_text K.name_of K.height_of event.now) (S.took sink.new)) }
    ensures cause { OnErr result (Rose (S.faults sink.old) (S.faults sink.new)) }
    ensures later { S.faults sink.old ≤ S.faults sink.new }
{
    held.make_room(sink)?;
    push_opening(held, event);
    write_closing(held, sink, event)
}

// Adds the words of an event's first line that are no list.
fn push_opening<K: Kinds>(held: &mut Held, event: &Event<K>)
    requires { length held.old + LINE ≤ SIZE }
    ensures { held.new ≡ held.old ++ line_of (opening_words K.name_of K.height_of event.now) }
{
    match event {
        Event::Register { caller, id, .. } => {
            push_verb(held, b"register", *caller);
            push_id(held, *id);
        }
        Event::Copy { caller, from, to } => {
            push_verb(held, b"copy", *caller);
            push_id(held, *from);
            push_id(held, *to);
        }
        Event::Delete { caller, id } => {
            push_verb(held, b"delete", *caller);
            push_id(held, *id);
        }
        Event::Ask {
            caller,
            task,
            kind,
            ..
        } => {
            push_verb(held, b"ask", *caller);
            push_number(held, *task);
            push_kind(held, kind);
        }
        Event::Collect { caller, task, got } => {
            push_verb(held, b"collect", *caller);
            push_number(held, *task);
            push_ref(held, *got);
        }
        Event::Abandon { caller } => push_verb(held, b"abandon", *caller),
        Event::Stop { caller } => push_verb(held, b"stop", *caller),
        Event::Start { worker, task } => {
            push_verb(held, b"start", *worker);
            push_number(held, *task);
        }
        Event::GiveBack { worker, task } => {
            push_verb(held, b"give_back", *worker);
            push_number(held, *task);
        }
        Event::Finish {
            worker,
            task,
            chunks,
            tasks,
            result,
        } => {
            push_verb(held, b"finish", *worker);
            push_number(held, *task);
            push_number(held, chunks.len() as u128);
            push_number(held, tasks.len() as u128);
            push_place(held, *result);
        }
    }
}

// Sends what stands behind them.
fn write_closing<K: Kinds, S: Sink>(
    held: &mut Held,
    sink: &mut S,
    event: &Event<K>,
) -> Result<(), Failed>
    ensures whole { OnOk result (IsSent (S.took sink.old) held.old (closing K.name_of K.height_of event.now) (S.took sink.new) held.new) }
    ensures front { OnErr result (AddsFront (S.took sink.old) (held.old ++ closing K.name_of K.height_of event.now) (S.took sink.new)) }
    ensures cause { OnErr result (Rose (S.faults sink.old) (S.faults sink.new)) }
    ensures later { S.faults sink.old ≤ S.faults sink.new }
{
    match event {
        Event::Register { children, .. } => write_refs(held, sink, children.as_slice()),
        Event::Copy { .. } => end_line(held, sink),
        Event::Delete { .. } => end_line(held, sink),
        Event::Ask { inputs, .. } => write_refs(held, sink, inputs.as_slice()),
        Event::Collect { .. } => end_line(held, sink),
        Event::Abandon { .. } => end_line(held, sink),
        Event::Stop { .. } => end_line(held, sink),
        Event::Start { .. } => end_line(held, sink),
        Event::GiveBack { .. } => end_line(held, sink),
        Event::Finish { chunks, tasks, .. } => {
            write_plan(held, sink, chunks.as_slice(), tasks.as_slice())
        }
    }
}

// Sends a line feed.
fn end_line<S: Sink>(held: &mut Held, sink: &mut S) -> Result<(), Failed>
    ensures whole { OnOk result (IsSent (S.took sink.old) held.old (10 ∷ []) (S.took sink.new) held.new) }
    ensures front { OnErr result (AddsFront (S.took sink.old) (held.old ++ 10 ∷ []) (S.took sink.new)) }
    ensures cause { OnErr result (Rose (S.faults sink.old) (S.faults sink.new)) }
    ensures later { S.faults sink.old ≤ S.faults sink.new }
{
    held.make_room(sink)?;
    held.push(b"\n");
    Ok(())
}

// Sends the references behind the other words of a line, and the line feed.
fn write_refs<S: Sink>(held: &mut Held, sink: &mut S, refs: &[Ref]) -> Result<(), Failed>
    ensures whole { OnOk result (IsSent (S.took sink.old) held.old (flat_map ref_part refs.now ++ 10 ∷ []) (S.took sink.new) held.new) }
    ensures front { OnErr result (AddsFront (S.took sink.old) (held.old ++ (flat_map ref_part refs.now ++ 10 ∷ [])) (S.took sink.new)) }
    ensures cause { OnErr result (Rose (S.faults sink.old) (S.faults sink.new)) }
    ensures later { S.faults sink.old ≤ S.faults sink.new }
{
    write_each_ref(held, sink, refs)?;
    end_line(held, sink)
}

fn write_each_ref<S: Sink>(held: &mut Held, sink: &mut S, refs: &[Ref]) -> Result<(), Failed>
    ensures whole { OnOk result (IsSent (S.took sink.old) held.old (flat_map ref_part refs.now) (S.took sink.new) held.new) }
    ensures front { OnErr result (AddsFront (S.took sink.old) (held.old ++ flat_map ref_part refs.now) (S.took sink.new)) }
    ensures cause { OnErr result (Rose (S.faults sink.old) (S.faults sink.new)) }
    ensures later { S.faults sink.old ≤ S.faults sink.new }
{
    for r in refs {
        write_ref(held, sink, *r)?;
    }
    Ok(())
}

// Sends a space and a reference.
fn write_ref<S: Sink>(held: &mut Held, sink: &mut S, r: Ref) -> Result<(), Failed>
    ensures whole { OnOk result (IsSent (S.took sink.old) held.old (ref_part r) (S.took sink.new) held.new) }
    ensures front { OnErr result (AddsFront (S.took sink.old) (held.old ++ ref_part r) (S.took sink.new)) }
    ensures cause { OnErr result (Rose (S.faults sink.old) (S.faults sink.new)) }
    ensures later { S.faults sink.old ≤ S.faults sink.new }
{
    held.make_room(sink)?;
    push_ref(held, r);
    Ok(())
}

// Sends the line feed of a finish, and its new chunks and tasks.
fn write_plan<K: Kinds, S: Sink>(
    held: &mut Held,
    sink: &mut S,
    chunks: &[Places],
    tasks: &[NewTask<K>],
) -> Result<(), Failed>
    ensures whole { OnOk result (IsSent (S.took sink.old) held.old (10 ∷ [] ++ flat_map chunk_line chunks.now ++ flat_map (task_line K.name_of K.height_of) tasks.now) (S.took sink.new) held.new) }
    ensures front { OnErr result (AddsFront (S.took sink.old) (held.old ++ (10 ∷ [] ++ flat_map chunk_line chunks.now ++ flat_map (task_line K.name_of K.height_of) tasks.now)) (S.took sink.new)) }
    ensures cause { OnErr result (Rose (S.faults sink.old) (S.faults sink.new)) }
    ensures later { S.faults sink.old ≤ S.faults sink.new }
{
    end_line(held, sink)?;
    write_chunks(held, sink, chunks)?;
    write_tasks(held, sink, tasks)
}

// Sends the lines of new chunks.
fn write_chunks<S: Sink>(held: &mut Held, sink: &mut S, chunks: &[Places]) -> Result<(), Failed>
    ensures whole { OnOk result (IsSent (S.took sink.old) held.old (flat_map chunk_line chunks.now) (S.took sink.new) held.new) }
    ensures front { OnErr result (AddsFront (S.took sink.old) (held.old ++ flat_map chunk_line chunks.now) (S.took sink.new)) }
    ensures cause { OnErr result (Rose (S.faults sink.old) (S.faults sink.new)) }
    ensures later { S.faults sink.old ≤ S.faults sink.new }
{
    for places in chunks {
        write_chunk(held, sink, places)?;
    }
    Ok(())
}

// Sends the line of a new chunk.
fn write_chunk<S: Sink>(held: &mut Held, sink: &mut S, places: &Places) -> Result<(), Failed>
    ensures whole { OnOk result (IsSent (S.took sink.old) held.old (chunk_line places.now) (S.took sink.new) held.new) }
    ensures front { OnErr result (AddsFront (S.took sink.old) (held.old ++ chunk_line places.now) (S.took sink.new)) }
    ensures cause { OnErr result (Rose (S.faults sink.old) (S.faults sink.new)) }
    ensures later { S.faults sink.old ≤ S.faults sink.new }
{
    held.make_room(sink)?;
    held.push(b"chunk");
    push_places(held, places);
    Ok(())
}

// Sends the lines of new tasks.
fn write_tasks<K: Kinds, S: Sink>(
    held: &mut Held,
    sink: &mut S,
    tasks: &[NewTask<K>],
) -> Result<(), Failed>
    ensures whole { OnOk result (IsSent (S.took sink.old) held.old (flat_map (task_line K.name_of K.height_of) tasks.now) (S.took sink.new) held.new) }
    ensures front { OnErr result (AddsFront (S.took sink.old) (held.old ++ flat_map (task_line K.name_of K.height_of) tasks.now) (S.took sink.new)) }
    ensures cause { OnErr result (Rose (S.faults sink.old) (S.faults sink.new)) }
    ensures later { S.faults sink.old ≤ S.faults sink.new }
{
    for task in tasks {
        write_task(held, sink, task)?;
    }
    Ok(())
}

// Sends the line of a new task.
fn write_task<K: Kinds, S: Sink>(
    held: &mut Held,
    sink: &mut S,
    task: &NewTask<K>,
) -> Result<(), Failed>
    ensures whole { OnOk result (IsSent (S.took sink.old) held.old (task_line K.name_of K.height_of task.now) (S.took sink.new) held.new) }
    ensures front { OnErr result (AddsFront (S.took sink.old) (held.old ++ task_line K.name_of K.height_of task.now) (S.took sink.new)) }
    ensures cause { OnErr result (Rose (S.faults sink.old) (S.faults sink.new)) }
    ensures later { S.faults sink.old ≤ S.faults sink.new }
{
    held.make_room(sink)?;
    held.push(b"task");
    push_kind(held, &task.kind);
    push_places(held, &task.inputs);
    Ok(())
}
