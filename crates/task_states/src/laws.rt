//! The laws of maps and of unfinished tasks, whatever their inputs and kinds are. Each function does nothing: its contract
//! is the law, which `specs/Laws.antt` states.

ghost use Rattle.task_states.specs.Laws.{ChoosesKeyByKey, DeliversOneByOne, DeliversToNone, DeliversToOne, ListsAwaiters, ListsNone, TakesOneOut, AddingBrings, AskingBrings, StartingBringsNone, GivingBackBringsNone, RemovingBringsNone, OthersAwaitNothing};

/// A law: a map with each value changed or left out by a choice holds under each key what the choice makes of its value.
pub fn choices_go_key_by_key()
    ensures { ChoosesKeyByKey }
{}

/// Delivering to the awaiters of a task one by one, until nobody awaits it, gives what delivering to all at once does.
/// Each delivery takes one awaiter away, and leaves all others.
pub fn deliveries_go_one_by_one<X, K>()
    ensures step { DeliversOneByOne X K }
    ensures end { DeliversToNone X K }
    ensures left { DeliversToOne X K }
{}

/// The list of the awaiters of a task, and what a delivery takes out of it: each awaiter stands in it once, so that the list
/// is one shorter after each delivery, and what is done for each of its members in any order is done for all awaiters.
pub fn awaiters_are_listed<X, K>()
    ensures members { ListsAwaiters X K }
    ensures none { ListsNone X K }
    ensures delivered { TakesOneOut X K }
{}

/// Who awaits after a step awaited before, or was brought by it. So numbers that rise are no awaiter's.
pub fn steps_bring_awaiters<X, K>()
    ensures adding { AddingBrings X K }
    ensures asking { AskingBrings X K }
    ensures starting { StartingBringsNone X K }
    ensures giving_back { GivingBackBringsNone X K }
    ensures removing { RemovingBringsNone X K }
{}

/// A task that is not Waiting awaits nothing.
pub fn waiting_tasks_await<X, K>()
    ensures { OthersAwaitNothing X K }
{}
