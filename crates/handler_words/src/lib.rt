//! What a handler is entered with: the context, its argument words, and what is written for it beside
//! its stack. (Windows DDK, the reference page of each Miniport function; where the answer places
//! stand: docs/MEMORY.md.)
#![tactic(auto)]

mod contexts;
mod enterings;
mod events;
mod given;
mod homes;
mod laws;
mod owed;
mod requests;
mod subjects;
mod words;
mod writes;

pub use contexts::free_context;
pub use enterings::entering;
pub use homes::loan_home;
pub use laws::enter_laws;
pub use owed::entering_owed;
pub use requests::{Asked, entering_asked, entering_return, to_hand};
pub use words::words_of;
pub use writes::writes_of;
