//! NDIS_RESOURCE_LIST, a CM_PARTIAL_RESOURCE_LIST.

ghost use Rattle.std.specs.Prelude.{◌≡◌};
ghost use Rattle.import_answers.specs.Configuration as configuration;

use guest_world::Hardware;

/// An adapter's ports and its interrupt.
pub fn resource_list(hardware: Hardware) -> [u8; 40]
    ensures { result ≡ configuration.resource_list hardware }
{
    let [low, high] = hardware.port.to_le_bytes();
    let irq = hardware.irq;
    [
        1, 0, 1, 0, 2, 0, 0, 0, // version, revision, two descriptors
        1, 1, 1, 0, low, high, 0, 0, 0, 0, 0, 0, 32, 0, 0, 0, // 32 ports, exclusive
        2, 1, 1, 0, irq, 0, 0, 0, irq, 0, 0, 0, 1, 0, 0, 0, // level, vector, affinity
    ]
}
