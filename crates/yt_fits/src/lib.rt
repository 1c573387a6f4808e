//! Whether a set of tasks fits.
//!
//! The conditions are defined with task sets; here they are computed, without memory. This crate may not know of text,
//! graphs or schedules. Its contract: [`fits`] tells exactly whether a set fits, and if not, which condition fails and by how
//! much.
#![tactic(auto)]

mod dearest;
mod interval;
mod laws;
mod multiple;
mod stream;
mod sums;
mod tournament;
mod unfit;
mod walk;
mod walking;

pub use interval::{Breach, interval_plain};
pub use laws::worked_intervals;
pub use sums::{LoadSum, TooWide, load};
pub use unfit::{Unfit, fits};
pub use walking::interval_walk;
