//! Text around a separator.

ghost use Rattle.std.specs.Prelude.{◌≡◌, ◌==◌, ◌<◌, IfSome, length};
ghost use Rattle.std.specs.List.{position};
ghost use Rattle.std.specs.Option.{option_map};
ghost use Rattle.asm_lines.specs.Parts.{cut};

/// Where a byte stands first.
fn place_of(separator: u8, bytes: &[u8]) -> Option<usize>
    ensures { result ≡ position (λ byte. byte == separator) bytes.now }
{
    bytes.iter().position(|byte| *byte == separator)
}

/// What is in front of the first separator, and what is behind it, if it stands there.
#[tactic(auto, unfolding(crate::specs::Parts::cut))]
pub fn cut(separator: u8, bytes: &[u8]) -> (&[u8], Option<&[u8]>)
    ensures { (result.0.now, option_map (λ rest. rest.now) result.1) ≡ cut separator bytes.now }
{
    match place_of(separator, bytes) {
        Some(place) => (&bytes[..place], Some(&bytes[place + 1..])),
        None => (bytes, None),
    }
}
