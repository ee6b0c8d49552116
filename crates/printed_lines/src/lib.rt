//! The lines that show what an input file holds, and those of its refusals.
#![tactic(auto)]

mod image_refusals;
mod image_text;
mod parameter_refusals;
mod parameter_text;
mod refusal_line;

pub use image_refusals::{image_line, unknown_import_line};
pub use image_text::image_lines;
pub use parameter_refusals::{inf_line, parameters_line};
pub use parameter_text::parameter_lines;
