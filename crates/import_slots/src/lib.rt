//! The slots of an image's imports: the addresses that stand for the functions that it names.
#![tactic(auto)]

mod image_slots;
mod laws;

pub use image_slots::{SlotRefusal, slots};
pub use laws::slot_laws;
