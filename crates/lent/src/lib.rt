// The fault pair as the host lends it.
#![tactic(auto)]

ghost use Rattle.std.specs.Prelude.{◌≡◌};
ghost use Rattle.lent.specs.Lent.{pair_with};

use state::FaultPair;

// Stores both words of the lent pair.
pub fn store(pair: &mut FaultPair, status: u32, address: u32)
    ensures { pair.new ≡ pair_with status address }
{
    pair.status = status;
    pair.address = address;
}
