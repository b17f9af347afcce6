//! From instructions to units: the least widths of jumps, and the units that are written in them.
#![tactic(auto)]

pub mod units;
pub mod widths;

pub use units::{Assembled, assemble};
pub use widths::{Layout, LayoutError, Need, lay_out, width_of};
