//! Laws of nodes: what the emission of a node adds and what its code does, the simulation of each part of a form, why a
//! node is refused and which errors never come, and that a tree of which nothing depends on the level means the same at
//! every level.
#![tactic(auto)]

mod laws;
mod laws_of_calls;
mod laws_of_faults;
mod laws_of_levels;
mod laws_of_parts;
mod laws_of_runs;

pub use laws::{emissions_grow, nodes_add, scopes_are_unrefused, scopes_begin_ready};
pub use laws_of_calls::{calls_find_cells, calls_on_parts_refused_first, calls_refused_first};
pub use laws_of_faults::{errors_that_never_come, nodes_refused_first};
pub use laws_of_levels::{levels_agree, levels_run_alike};
pub use laws_of_parts::{clauses_simulate, handlers_simulate, parts_simulate};
pub use laws_of_runs::{calls_run, finished_hold, nodes_run};
