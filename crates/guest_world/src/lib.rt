//! The world of a miniport's calls: guest memory, the guest pool, levels and locks, the clock and its
//! timers, the adapters with their cards, and what calls have given. And what a call may get.
//! (Windows DDK, ndis.h: what NDIS keeps of a miniport and of its adapters.)
#![tactic(auto)]

mod adapters;
mod answer;
mod miniport;
mod params;
mod timer_functions;
mod world;

pub use adapters::{Adapter, Attributes, Hardware, Interrupt};
pub use answer::{Answer, CallRefusal, Caller, Reply, SentFrames};
pub use miniport::{CHARACTERISTICS, Miniport, TimerFunction};
pub use params::Params;
pub use timer_functions::TimerFunctions;
pub use world::{ADAPTERS, World};
