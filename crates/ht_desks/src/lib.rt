//! Desks of the tests: no file of the system is read or written.
//!
//! [`MemoryDesk`] is over files in memory, with failures by plan, and
//! [`CleanDesk`] never fails but for a name that it doesn't hold.
#![tactic(auto)]

mod clean;
mod copy_front;
mod memory;
mod store;

pub use clean::CleanDesk;
pub use memory::{Fail, MemoryDesk};
