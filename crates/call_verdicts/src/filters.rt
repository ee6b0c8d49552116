//! Which frames a driver's filter takes.
//!
//! (DDK: OID_GEN_CURRENT_PACKET_FILTER, OID_802_3_MULTICAST_LIST.)

ghost use Rattle.std.specs.Prelude.{◌≡◌, ◌<◌};
ghost use Rattle.owner_machine.specs.State.{is_bound};
ghost use Rattle.owner_machine.specs.Loans.{has_bit, destination, is_broadcast, is_group, is_listed, takes, wants};

use owner_machine::{Binding, Driver};

const DIRECTED: u32 = 0x01;

const MULTICAST: u32 = 0x02;

const ALL_MULTICAST: u32 = 0x04;

const BROADCAST: u32 = 0x08;

const PROMISCUOUS: u32 = 0x20;

/// Whether a filter has the bit of this weight.
fn has_bit(filter: u32, weight: u32) -> bool
    requires { 0 < weight }
    ensures { result ≡ has_bit filter weight }
{
    (filter / weight) % 2 == 1
}

/// A frame's destination address.
fn destination(bytes: &[u8]) -> &[u8]
    ensures { result.now ≡ destination bytes.now }
{
    &bytes[..bytes.len().min(6)]
}

fn is_broadcast(to: &[u8]) -> bool
    ensures { result ≡ is_broadcast to.now }
{
    to == [0xFF; 6].as_slice()
}

/// Whether an address is a group address.
fn is_group(to: &[u8]) -> bool
    ensures { result ≡ is_group to.now }
{
    match to {
        [] => false,
        [first, ..] => *first % 2 == 1,
    }
}

/// Whether an address is in a list of addresses of six bytes each.
fn is_listed(to: &[u8], list: &[u8]) -> bool
    ensures { result ≡ is_listed to.now list.now }
{
    match list {
        [a, b, c, d, e, f, rest @ ..] => {
            [*a, *b, *c, *d, *e, *f].as_slice() == to || is_listed(to, rest)
        }
        _ => false,
    }
}

/// Whether a filter and a list take a frame to this address.
fn takes(filter: u32, list: &[u8], to: &[u8]) -> bool
    ensures { result ≡ takes filter list.now to.now }
{
    let broadcast = is_broadcast(to);
    let group = is_group(to);
    let any = has_bit(filter, PROMISCUOUS);
    let all = has_bit(filter, BROADCAST) && broadcast;
    let groups = has_bit(filter, ALL_MULTICAST) && (group && !broadcast);
    let listed = has_bit(filter, MULTICAST) && is_listed(to, list);
    let own = has_bit(filter, DIRECTED) && !group;
    any || (all || (groups || (listed || own)))
}

fn is_bound(binding: Binding) -> bool
    ensures { result ≡ is_bound binding }
{
    matches!(binding, Binding::Bound)
}

/// Whether a driver of the adapter wants a frame.
pub(crate) fn wants(driver: &Driver, a: u8, bytes: &[u8]) -> bool
    ensures { result ≡ wants a bytes.now driver.now }
{
    let bound = is_bound(driver.binding);
    let own = driver.adapter.0 == a;
    bound && (own && takes(driver.filter, driver.list.as_slice(), destination(bytes)))
}
