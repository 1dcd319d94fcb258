//! The model of a source: a plain and slow program of its commands, and the laws that they keep.
#![tactic(auto)]

mod command;
mod destination;
mod event;
mod grouping;
mod laws;
mod names;
mod state;
mod value;
mod walk_laws;

pub use command::{Command, Group, Item, MOST_GROUPED, Refusal, Reply, StepError};
pub use destination::mirror;
pub use event::{Event, walk};
pub use grouping::{Counts, group_refusal};
pub use laws::{
    changes_are_kept, fold_is_regular, groups_step_in_turn, lawful_stays, names_are_a_map,
    names_stay_ordered, parts_do_not_run_out, start_is_regular, step_is_regular,
};
pub use state::{State, states_are_lawful};
pub use value::{Body, Entry, Held};
pub use walk_laws::{
    walks_are_catalogued, walks_are_folds, walks_pass_each_count, walks_stay_lawful,
};
