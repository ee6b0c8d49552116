//! Instructions as they are written, as bytes in which a number may still be open.
//!
//! What a mnemonic and its operands are as an instruction is a function (specs/Operations.antt), in the
//! words of Intel SDM volume 2. Its bytes are a template (specs/Templates.antt): whatever address is put
//! in for an open number, they spell the instruction with it, and so decode to it.
#![tactic(auto)]

mod forms;
mod jumps;
mod operation;
mod templates;

pub use forms::{Form, form_of};
pub use jumps::{Jump, jump_of};
pub use operation::{Given, Operation};
pub use templates::{Fault, Template, Term, template_is_one, template_of};
