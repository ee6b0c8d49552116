//! Charges: DriverEntry's count to every adapter, those of any other context to its own.

ghost use Rattle.std.specs.Prelude.{◌≡◌, ◌≤◌, ◌+◌, ◌^◌, ℕ, false, nat_le};
ghost use Rattle.legal_run.specs.After.{charge_to, reaches_for};
ghost use Rattle.miniport_state.specs.Seen.{Keeps, Point};
ghost use Rattle.miniport.specs.Charges.{IsMost, IsOwn};

use miniport_state::Adapters;
use nd_base::AdapterNo;

/// The largest of some charges, or 0.
fn most_of(charges: &[u64]) -> u64
    ensures { IsMost charges.now result }
{
    let mut most = 0;
    for charge in charges {
        most = most.max(*charge);
    }
    most
}

/// What an adapter was charged beside DriverEntry; where there is none, the most of any.
fn own_charge(charges: &[u64], adapter: Option<AdapterNo>) -> u64
    ensures { IsOwn charges.now adapter result }
{
    match adapter {
        Some(a) => match charges.get(usize::from(a.0)) {
            Some(charge) => *charge,
            None => 0,
        },
        None => most_of(charges),
    }
}

/// What a context of the adapter has used of its budget; where there is no adapter, what one of
/// DriverEntry has.
pub fn used(adapters: &Adapters, adapter: Option<AdapterNo>) -> u64
    ghost o: { Point }
    requires { Keeps o.inputs o.state adapters.now }
    ensures { (n : ℕ) → reaches_for o.inputs o.state adapter n ≡ nat_le o.inputs.budget (result + n) }
{
    adapters.charged + own_charge(&adapters.charges, adapter)
}

/// Charges a context of the adapter, or one of DriverEntry where there is none.
pub fn charge(adapters: &mut Adapters, adapter: Option<AdapterNo>, n: u64)
    ghost o: { Point }
    requires keeps { Keeps o.inputs o.state adapters.old }
    requires unspent { reaches_for o.inputs o.state adapter 0 ≡ false }
    requires most { n ≤ 2 ^ 33 }
    ensures { Keeps o.inputs (charge_to o.state adapter n) adapters.new }
{
    match adapter {
        None => adapters.charged += n,
        Some(a) => {
            let place = usize::from(a.0);
            if place < adapters.charges.len() {
                adapters.charges[place] += n;
            }
        }
    }
}
