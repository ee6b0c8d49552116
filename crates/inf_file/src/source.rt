//! What the lines of an INF file are read by.

use crate::strings::Strings;
use inf_text::Inf;
use std::alloc::Global;

/// The sections and the strings of an INF file, and the allocator of what is read from them.
#[derive(Clone, Copy)]
pub struct Source<'a> {
    pub inf: &'a Inf,
    pub strings: &'a Strings,
    pub alloc: Global,
}
