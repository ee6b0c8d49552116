//! The parameters that an INF file gives a hardware id (Windows Driver Kit, "INF File Sections and
//! Directives").
#![tactic(auto)]

mod answer;
mod gathered;
mod in_place;
mod laws;
mod lines;
mod models;
mod numbers;
mod param;
mod reading;
mod repeats;
mod row;
mod source;
mod strings;

pub use answer::parameters;
pub use laws::{
    each_name_comes_once, first_fault_is_named, first_model_is_taken, last_row_counts,
    strings_are_replaced,
};
pub use param::{Param, ParamRefusal, ParamValue};
