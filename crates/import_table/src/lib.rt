//! The functions that a miniport image may import: their numbers, words, calling conventions and
//! levels, and the argument words of a call.
#![tactic(auto)]

mod calls;
mod laws;
mod lookup;
mod rows;

pub use calls::{Call, CutCall, arguments};
pub use laws::{call_laws, table_laws};
pub use lookup::{import_named, import_row};
pub use rows::{Convention, ImportRow};
