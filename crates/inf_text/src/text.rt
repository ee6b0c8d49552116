//! Reading the text of an INF file.

ghost use Rattle.std.specs.Prelude.{◌≡◌};
ghost use Rattle.nd_base.specs.Results.{Gives};
ghost use Rattle.inf_text.specs.Characters.{IsTextFile};
ghost use Rattle.inf_text.specs.Reading.{sections_of};

use crate::characters::{bad_byte, text_of};
use crate::joining::joined_lines;
use crate::refusal::InfRefusal;
use crate::sections::Inf;
use std::alloc::Global;

/// The longest file that is read, in bytes.
const LONGEST_FILE: usize = 1_048_576;

impl Inf {
    /// The sections of an INF file of at most 1,048,576 bytes. Text behind the byte order mark
    /// `FF FE` is UTF-16, and of other text each byte is the character of that number. What is
    /// refused is refused with its first fault.
    pub fn read(alloc: Global, bytes: &[u8]) -> Result<Inf, InfRefusal>
        ensures value { Gives InfRefusal.OutOfMemory (λ i. i) result (sections_of bytes.now) }
        // A file that is too long or no text is refused as that, whatever memory there is.
        ensures memory { result ≡ Err InfRefusal.OutOfMemory → IsTextFile bytes.now }
    {
        if bytes.len() > LONGEST_FILE {
            return Err(InfRefusal::TooLong);
        }
        if let Some(at) = bad_byte(bytes) {
            return Err(InfRefusal::BadText(at));
        }
        let text = text_of(alloc, bytes)?;
        let lines = joined_lines(alloc, text.as_slice())?;
        Inf::of_lines(alloc, lines.as_slice())
    }
}
