//! Frames that cards get.

ghost use Rattle.std.specs.Prelude.{◌≡◌, map};
ghost use Rattle.legal_run.specs.After.{with_arrival};

use guest_world::Adapter;

/// A card that is there gets a frame.
fn reach_one(part: &mut Option<Adapter>, bytes: &[u8])
    ensures { part.new ≡ with_arrival bytes.now part.old }
{
    if let Some(adapter) = part {
        adapter.card.arrive(bytes);
    }
}

/// Every card that is there gets a frame.
pub(crate) fn reach_all(parts: &mut [Option<Adapter>], bytes: &[u8])
    ensures { parts.new ≡ map (with_arrival bytes.now) parts.old }
{
    for n in 0..parts.len() {
        reach_one(&mut parts[n], bytes);
    }
}
