//! What calls that set an adapter up share: handles of its configuration, addresses of functions,
//! NDIS_STATUS values, half words of guest memory, and answers that write words.
#![tactic(auto)]

mod guest_values;
mod handles;
mod statuses;
mod word_answers;

pub use guest_values::half_at;
pub use handles::{hardware_of, is_configuration_context, is_configuration_handle, is_function};
pub use statuses::{BAD_CHARACTERISTICS, BAD_VERSION, FAILURE, RESOURCES, SUCCESS};
pub use word_answers::{put_words, with_words};
