//! Test miniports: for each kind of misbehaving or plain driver the file of its image, made of a
//! source text, and the INF file that goes with it.
#![tactic(auto)]

mod deserial;
mod double;
mod forging;
mod idle;
mod inf;
mod kind;
mod mute;
mod scarce;

pub use forging::{Miniport, forge};
pub use kind::{Kind, kind_named, source_of};
