//! The first event that waits for an adapter's MiniportPnPEventNotify.

ghost use Rattle.std.specs.Prelude.{◌≡◌, IfOk, length};
ghost use Rattle.std.specs.Option.{option_map};
ghost use Rattle.handler_words.specs.Given.{told_place, told_words, told_bytes};

use log_fields::Words;
use nd_base::OutOfMemory;
use std::alloc::Global;

/// Where an event's bytes stand, or 0 where it has none.
fn place(area: u32, bytes: &[u8]) -> u32
    ensures { result ≡ told_place area bytes.now }
{
    if bytes.is_empty() { 0 } else { area }
}

/// How many bytes there are; memory is wanted where a word can't tell that.
pub(crate) fn length_of(bytes: &[u8]) -> Result<u32, OutOfMemory>
    ensures { IfOk result (λ n. n ≡ length bytes.now) }
{
    match u32::try_from(bytes.len()) {
        Ok(n) => Ok(n),
        Err(_) => Err(OutOfMemory),
    }
}

/// The argument words of MiniportPnPEventNotify, with the adapter's context word, by the event's number
/// and bytes; those of no event are none.
pub(crate) fn event_words(
    alloc: Global,
    area: u32,
    context: u32,
    event: Option<(u32, &[u8])>,
) -> Result<Words, OutOfMemory>
    ensures { IfOk result (λ words. words ≡ told_words area context (option_map (λ e. (e.0, e.1.now)) event.entry)) }
{
    match event {
        Some((number, bytes)) => {
            let length = length_of(bytes)?;
            Words::copy(alloc, &[context, number, place(area, bytes), length])
        }
        None => Ok(Words::new(alloc)),
    }
}

/// The bytes of an event; of none there are none.
pub(crate) fn event_bytes(event: Option<(u32, &[u8])>) -> &[u8]
    ensures { result.now ≡ told_bytes (option_map (λ e. (e.0, e.1.now)) event.entry) }
{
    match event {
        Some((_, bytes)) => bytes,
        None => &[],
    }
}
