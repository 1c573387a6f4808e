//! Lists that contracts see as lists, with a name for each list that the layers above share, and what has a name.
//!
//! This crate knows nothing of text, graphs or time. Its whole contract: a value of [`Items`] is the list of its items in
//! order, and nothing else of it shows.
#![tactic(auto)]

mod items;
mod named;
mod numbers;

pub use items::Items;
pub use named::Named;
pub use numbers::numbered;

/// The bytes of one word.
pub type Name = Items<u8>;

/// The numbers of a message.
pub type Vals = Items<i64>;

/// Words in order.
pub type Names = Items<Name>;
