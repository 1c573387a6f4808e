//! Tables of names: which names were seen, and which item of a list has a name.
//!
//! This crate knows nothing of what a name stands for. Its contract: a value of [`NameSet`] is the list of the names that
//! were put into it, in the order in which they first came; a value of [`NameTable`] is the list of its items, of which
//! each name finds the first that has it; [`first_named`] finds it in a short list without a table.
#![tactic(auto)]

mod name_set;
mod name_table;
mod scan;

pub use name_set::NameSet;
pub use name_table::NameTable;
pub use scan::first_named;
