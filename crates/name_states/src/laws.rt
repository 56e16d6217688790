//! The laws of states of names, for any contents. Each function does nothing: its contract is the law, which
//! `specs/Laws.antt` states.

ghost use Rattle.name_states.specs.Laws.{RegisteringWithout, CopyingWithout, EndingWithout, SweepingWithout, RulesWithout, ReachedWithout, NoNamesKeep, RegisteringKeeps, CopyingKeeps, EndingKeeps, SweepingKeeps, SweptOnce, NothingGoes};

/// Leaving contents out, with the number of children in place of each, commutes with each step and with sweeping,
/// keeps the rules, and changes nothing in what is reached.
pub fn without_contents<C>()
    ensures registering { RegisteringWithout C }
    ensures copying { CopyingWithout C }
    ensures ending { EndingWithout C }
    ensures sweeping { SweepingWithout C }
    ensures rules { RulesWithout C }
    ensures reached { ReachedWithout C }
{}

/// The rules hold of no names, and each step and sweeping keep them.
pub fn rules<C>()
    ensures none { NoNamesKeep C }
    ensures registering { RegisteringKeeps C }
    ensures copying { CopyingKeeps C }
    ensures ending { EndingKeeps C }
    ensures sweeping { SweepingKeeps C }
{}

/// When to sweep: it is enough to sweep at the end, and where all is reached nothing goes.
pub fn sweeping<C>()
    ensures once { SweptOnce C }
    ensures nothing { NothingGoes C }
{}
