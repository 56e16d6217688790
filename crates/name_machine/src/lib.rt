//! The machine of names: what a core stands for, in steps that know no stores, counts or threads.
#![tactic(auto)]

mod laws;

pub use laws::{
    accounts_change, events_lead, facts_hold, finished_once, forgetting_replays, order, parts_stay,
    refusals, standing, stops, takes_example,
};
