// One line after another.
ghost use Rattle.std.specs.Prelude.{◌≡◌, ◌<◌, ◌+◌, None, Some, IfOk};
ghost use Rattle.cht_ids.specs.Lines.{pieces_of};
ghost use Rattle.journal_text.specs.Bounds.{AreWithin};
ghost use Rattle.journal_text.specs.States.{IsOpen, MayBeOpen, begun_of, chunk_taken, task_taken, IsAdded, IsSettled, IsStep};

use crate::head::Head;
use crate::line::read_head;
use crate::mentions::Mentions;
use crate::open::{Begun, Halt, Open};
use crate::plan_lines::{read_chunk, read_task};
use cht_history::{Event, Journal};
use cht_ids::{List, Memory, Ref};
use std::alloc::Global;
use task_types::{Kinds, NewTask, Places};

// Takes one more line.
pub(crate) fn take_line<K: Kinds>(
    alloc: Global,
    journal: &mut Journal<K>,
    part: Option<Open<K>>,
    line: &[u8],
) -> Result<Option<Open<K>>, Halt>
    requires within { AreWithin K.height_of journal.old.events }
    requires part { MayBeOpen K.height_of part }
    ensures { IsStep K.name_of K.height_of journal.old.events part (pieces_of line.now) result journal.new.events }
{
    match part {
        None => begin(alloc, journal, line),
        Some(part) => go_on(journal, part, line),
    }
}

// Takes the first line of an event, or the last line.
fn begin<K: Kinds>(
    alloc: Global,
    journal: &mut Journal<K>,
    line: &[u8],
) -> Result<Option<Open<K>>, Halt>
    requires { AreWithin K.height_of journal.old.events }
    ensures { IsStep K.name_of K.height_of journal.old.events None (pieces_of line.now) result journal.new.events }
{
    let count = journal.len();
    match read_head(line) {
        None => Err(Halt::Wrong),
        Some(head) => match begun(alloc, head)? {
            Begun::Whole(event) => add(journal, event),
            Begun::Part(part) => settle(journal, part),
            Begun::Last(told) => {
                if told == count {
                    Err(Halt::Ended)
                } else {
                    Err(Halt::Wrong)
                }
            }
        },
    }
}

// What a line begins.
fn begun<K: Kinds>(alloc: Global, head: Head<K>) -> Result<Begun<K>, Memory>
    ensures { IfOk result (λ begun. begun ≡ begun_of head) }
{
    match head {
        Head::Register {
            caller,
            id,
            children,
        } => {
            let children = list_of(alloc, &children)?;
            Ok(Begun::Whole(Event::Register {
                caller,
                id,
                children,
            }))
        }
        Head::Copy { caller, from, to } => Ok(Begun::Whole(Event::Copy { caller, from, to })),
        Head::Delete { caller, id } => Ok(Begun::Whole(Event::Delete { caller, id })),
        Head::Ask {
            caller,
            task,
            kind,
            inputs,
        } => {
            let inputs = list_of(alloc, &inputs)?;
            Ok(Begun::Whole(Event::Ask {
                caller,
                task,
                kind,
                inputs,
            }))
        }
        Head::Collect { caller, task, got } => {
            Ok(Begun::Whole(Event::Collect { caller, task, got }))
        }
        Head::Abandon { caller } => Ok(Begun::Whole(Event::Abandon { caller })),
        Head::Stop { caller } => Ok(Begun::Whole(Event::Stop { caller })),
        Head::Start { worker, task } => Ok(Begun::Whole(Event::Start { worker, task })),
        Head::GiveBack { worker, task } => Ok(Begun::Whole(Event::GiveBack { worker, task })),
        Head::Finish {
            worker,
            task,
            chunks,
            tasks,
            result,
        } => Ok(Begun::Part(Open {
            worker,
            task,
            result,
            chunks: List::new(alloc),
            tasks: List::new(alloc),
            chunks_left: chunks,
            tasks_left: tasks,
        })),
        Head::End { count } => Ok(Begun::Last(count)),
    }
}

fn list_of(alloc: Global, mentions: &Mentions) -> Result<List<Ref>, Memory>
    ensures { IfOk result (λ list. list ≡ mentions.now) }
{
    let mut list = List::new(alloc);
    list.extend(mentions.as_slice())?;
    Ok(list)
}

// Adds an event that is whole.
fn add<K: Kinds>(journal: &mut Journal<K>, event: Event<K>) -> Result<Option<Open<K>>, Halt>
    ensures { IsAdded journal.old.events event result journal.new.events }
{
    journal.reserve(1)?;
    journal.push_reserved(event);
    Ok(None)
}

// Adds a finish once no more lines of it are to come.
fn settle<K: Kinds>(journal: &mut Journal<K>, part: Open<K>) -> Result<Option<Open<K>>, Halt>
    requires within { AreWithin K.height_of journal.old.events }
    requires part { IsOpen K.height_of part }
    ensures { IsSettled K.name_of K.height_of journal.old.events part result journal.new.events }
{
    if part.chunks_left > 0 || part.tasks_left > 0 {
        return Ok(Some(part));
    }
    add(
        journal,
        Event::Finish {
            worker: part.worker,
            task: part.task,
            chunks: part.chunks,
            tasks: part.tasks,
            result: part.result,
        },
    )
}

// Takes a line of a new chunk or of a new task.
fn go_on<K: Kinds>(
    journal: &mut Journal<K>,
    part: Open<K>,
    line: &[u8],
) -> Result<Option<Open<K>>, Halt>
    requires within { AreWithin K.height_of journal.old.events }
    requires part { IsOpen K.height_of part }
    requires more { 0 < part.chunks_left + part.tasks_left }
    ensures { IsStep K.name_of K.height_of journal.old.events (Some part) (pieces_of line.now) result journal.new.events }
{
    if part.chunks_left > 0 {
        match read_chunk(line) {
            None => Err(Halt::Wrong),
            Some(places) => {
                let part = with_chunk(part, places)?;
                settle(journal, part)
            }
        }
    } else {
        match read_task(line) {
            None => Err(Halt::Wrong),
            Some(task) => {
                let part = with_task(part, task)?;
                settle(journal, part)
            }
        }
    }
}

// With one more new chunk.
fn with_chunk<K: Kinds>(mut part: Open<K>, places: Places) -> Result<Open<K>, Memory>
    requires { 0 < part.chunks_left }
    ensures { IfOk result (λ now. now ≡ chunk_taken part places) }
{
    match part.chunks.push(places) {
        Ok(()) => {
            part.chunks_left -= 1;
            Ok(part)
        }
        Err(_) => Err(Memory),
    }
}

// With one more new task.
fn with_task<K: Kinds>(mut part: Open<K>, task: NewTask<K>) -> Result<Open<K>, Memory>
    requires { 0 < part.tasks_left }
    ensures { IfOk result (λ now. now ≡ task_taken part task) }
{
    match part.tasks.push(task) {
        Ok(()) => {
            part.tasks_left -= 1;
            Ok(part)
        }
        Err(_) => Err(Memory),
    }
}
