//! The laws of the machine of names and of its replay. Each function does nothing: its contract is the law, which
//! `specs/Laws.antt` states.

ghost use Rattle.std.specs.Prelude.{ℕ};
ghost use Rattle.name_machine.specs.Example.{TakesExample};
ghost use Rattle.name_machine.specs.Forgetting.{ForgettingReplays};
ghost use Rattle.name_machine.specs.Replay.{Plans};
ghost use Rattle.name_machine.specs.Laws.{AccountsChange, LeavesCallers, LeavesWorkers, FactsHold, StopsAreLast, StopsEnd, FinishedOnce, RefusesStrange, DeadIsStrange, OthersAreStrange, UncollectedIsStrange, RefusesOutOfTurn, RefusesNotReady, RefusesSecondStart, RefusesUnplanned, OpeningStands, EmptyBothWays, StandsStep, OpeningIsOrderly, KeepsOrder, OpeningComesOfNone, EventsLeadOn};

use task_types::Library;

/// In a list of events that can be replayed no task is finished twice, whatever the plans are.
pub fn finished_once<K>()
    ensures { (plans : Plans K) → FinishedOnce plans }
{}

/// What a replay refuses, in every state and whatever the plans are: a mention of an identifier that the caller does
/// not hold, since it is not live, is held by another, or is an output that was not yet collected; a number that is not
/// the next one; a start of a task that is not ready, and a second start of a worker; and a shape that the plan does
/// not allow.
pub fn refusals<K>()
    ensures strange { (plans : Plans K) → RefusesStrange plans }
    ensures dead { DeadIsStrange K }
    ensures others { OthersAreStrange K }
    ensures uncollected { UncollectedIsStrange K }
    ensures out_of_turn { (plans : Plans K) → RefusesOutOfTurn plans }
    ensures not_ready { (plans : Plans K) → RefusesNotReady plans }
    ensures second_start { (plans : Plans K) → RefusesSecondStart plans }
    ensures unplanned { (plans : Plans K) → RefusesUnplanned plans }
{}

/// In every state that a legal run of a library reaches the facts hold.
pub fn facts_hold<L: Library>()
    ensures { FactsHold L.meanings L.Chunk.arity }
{}

/// An event after a legal run changes the account of each caller as told: its own ask adds work, its own abandon takes
/// off what was left to do, and nothing else changes it.
pub fn accounts_change<L: Library>()
    ensures { AccountsChange L.meanings L.Chunk.arity }
{}

/// An event after a legal run leaves the part of each caller and of each worker whose own it is not.
pub fn parts_stay<L: Library>()
    ensures callers { LeavesCallers L.meanings L.Chunk.arity }
    ensures workers { LeavesWorkers L.meanings L.Chunk.arity }
{}

/// After a legal run a caller is stopped exactly where a stop of it stands among the events with no abandon of it since.
/// It has asked nothing since then: its asks are older than the stop.
pub fn stops<L: Library>()
    ensures last { StopsAreLast L.meanings L.Chunk.arity }
    ensures end { StopsEnd L.meanings L.Chunk.arity }
{}

/// An event that is allowed does, in a control state that keeps contents, what a replay makes of it with the number of
/// children in place of each content, whatever the plans are.
pub fn forgetting_replays<C, K>()
    ensures { (arity : C → ℕ) (plans : Plans K) → ForgettingReplays arity plans }
{}

/// What a control state with contents stands for: the opening state stands for the opening state; it has nothing in
/// it exactly where what it stands for has nothing; and each event that a replay allows, and that is as the machine
/// wants it, is the machine's step of its name between the states that are stood for.
pub fn standing<L: Library>()
    ensures opening { OpeningStands L.meanings }
    ensures empty { EmptyBothWays L.meanings L.Chunk.arity }
    ensures steps { (plans : Plans L.Kind) → StandsStep L.meanings L.Chunk.arity plans }
{}

/// A control state with contents stays in order: the opening state is, and each such event leaves it so.
pub fn order<L: Library>()
    ensures opening { OpeningIsOrderly L.Kind L.Chunk.arity }
    ensures steps { (plans : Plans L.Kind) → KeepsOrder L.meanings L.Chunk.arity plans }
{}

/// A control state with contents and the events that led to it: the opening state comes of no events, and after each
/// further event, where it is allowed and as the machine wants it, the state is in order, stands for the state that the
/// legal run of all events leads to, and is without its contents what a replay of them leads to.
pub fn events_lead<L: Library>()
    ensures opening { (plans : Plans L.Kind) → OpeningComesOfNone L.meanings L.Chunk.arity plans }
    ensures steps { (plans : Plans L.Kind) → EventsLeadOn L.meanings L.Chunk.arity plans }
{}

/// A replay takes the eleven events of the worked example, whatever the plans are, so long as they allow the shape of
/// the one finish; it has then drawn nine numbers, and nothing is left.
pub fn takes_example<K>()
    ensures { (plans : Plans K) → TakesExample plans }
{}
