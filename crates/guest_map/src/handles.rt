//! Opaque handles: numbers that a driver is given and only hands back. No memory stands there.

ghost use Rattle.std.specs.Prelude.{◌≡◌, ◌<◌};
ghost use Rattle.guest_map.specs.Handles as handles;

use crate::regions::ADAPTERS;
use nd_base::AdapterNo;

/// The driver object, DriverEntry's first argument.
pub const DRIVER_OBJECT: u32 = 0xE000_0000;

/// The registry path, DriverEntry's second argument.
pub const REGISTRY_PATH: u32 = 0xE000_0008;

/// The handle that NdisInitializeWrapper gives.
pub const WRAPPER: u32 = 0xE000_0010;

/// The context that an adapter's initialize is given to open its configuration with.
pub fn configuration_context(adapter: AdapterNo) -> u32
    requires { adapter.0 < ADAPTERS }
    ensures { result ≡ handles.configuration_context adapter.0 }
{
    0xE000_1000 + u32::from(adapter.0)
}

/// The handle of an adapter's configuration, once it is open.
pub fn configuration_handle(adapter: AdapterNo) -> u32
    requires { adapter.0 < ADAPTERS }
    ensures { result ≡ handles.configuration_handle adapter.0 }
{
    0xE000_2000 + u32::from(adapter.0)
}

/// The handle of a pool of packets or buffers, by its number.
pub fn pool_handle(number: u32) -> u32
    requires { number < 0xFFF0000 }
    ensures { result ≡ handles.pool_handle number }
{
    0xE001_0000 + number
}
