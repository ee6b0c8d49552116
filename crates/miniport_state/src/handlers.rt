//! Addresses of the miniport's handlers (Windows DDK, NDIS_MINIPORT_CHARACTERISTICS).

ghost use Rattle.std.specs.Prelude.{◌≡◌, ◌*◌, ◌<◌, ◌==◌, not};
ghost use Rattle.std.specs.Option.{option_map_or};
ghost use Rattle.import_answers.specs.Registration.{handler_of, offset_of_handler};

use guest_world::World;
use log_fields::Handler;

/// Which word of the characteristics a handler's address is; none of a handler that is given
/// elsewhere.
fn word_of(handler: Handler) -> usize
    ensures word { 4 * result ≡ offset_of_handler handler }
    ensures inside { result < 27 }
{
    match handler {
        Handler::CheckForHang => 2,
        Handler::DisableInterrupt => 3,
        Handler::EnableInterrupt => 4,
        Handler::Halt => 5,
        Handler::HandleInterrupt => 6,
        Handler::Initialize => 7,
        Handler::Isr => 8,
        Handler::Query => 9,
        Handler::Reset => 11,
        Handler::Send => 12,
        Handler::Set => 13,
        Handler::TransferData => 14,
        Handler::ReturnPacket => 15,
        Handler::SendPackets => 16,
        Handler::CancelSend => 24,
        Handler::PnpEvent => 25,
        Handler::Shutdown => 26,
        Handler::DriverEntry | Handler::Timer | Handler::Sync => 0,
    }
}

/// The address of a handler that the miniport gave when it registered, or 0.
pub fn handler_address(world: &World, handler: Handler) -> u32
    ensures { result ≡ option_map_or (λ m. handler_of m handler) world.now.miniport 0 }
{
    let word = word_of(handler);
    match &world.miniport {
        Some(miniport) if word != 0 => miniport.words[word],
        _ => 0,
    }
}

/// Whether the miniport gave a handler.
pub fn has_handler(world: &World, handler: Handler) -> bool
    ensures { result ≡ not (option_map_or (λ m. handler_of m handler) world.now.miniport 0 == 0) }
{
    handler_address(world, handler) != 0
}
