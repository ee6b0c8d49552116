//! What a call finds of its own adapter, and addresses of functions.

ghost use Rattle.std.specs.Prelude.{◌≡◌};
ghost use Rattle.import_answers.specs.World as found;
ghost use Rattle.import_answers.specs.Registration as registration;

use guest_map::{configuration_context, configuration_handle, slot_address};
use guest_world::{Hardware, World};
use nd_base::{AdapterNo, Slot};

/// Whether an address may be that of a function: it is not the one that handlers return to.
pub fn is_function(address: u32) -> bool
    ensures { result ≡ registration.is_function address }
{
    address != slot_address(Slot::Leave).0
}

/// Whether the handle is the configuration context of the adapter.
pub fn is_configuration_context(adapter: Option<AdapterNo>, handle: u32) -> bool
    requires { found.IsNumber adapter }
    ensures { result ≡ found.is_configuration_context adapter handle }
{
    match adapter {
        Some(a) => handle == configuration_context(a),
        None => false,
    }
}

/// Whether the handle is the adapter's configuration handle, and was given.
pub fn is_configuration_handle(world: &World, adapter: Option<AdapterNo>, handle: u32) -> bool
    requires { found.IsNumber adapter }
    ensures { result ≡ found.is_configuration_handle world.now adapter handle }
{
    let Some(a) = adapter else {
        return false;
    };
    match &world.adapters[usize::from(a.0)] {
        Some(adapter) => adapter.opened && handle == configuration_handle(a),
        None => false,
    }
}

/// What the machine has for the caller's adapter.
pub fn hardware_of(world: &World, adapter: Option<AdapterNo>) -> Hardware
    requires { found.IsNumber adapter }
    ensures { result ≡ found.hardware_of world.now adapter }
{
    let none = Hardware {
        port: 0,
        irq: 0,
        station: [0; 6],
    };
    let Some(a) = adapter else {
        return none;
    };
    match &world.adapters[usize::from(a.0)] {
        Some(adapter) => adapter.hardware,
        None => none,
    }
}
