//! How much has left a network.
ghost use Rattle.std.specs.Prelude.{◌≡◌, length};
ghost use Rattle.exb_bridge.specs.BridgeWorlds.{all_left};

use exb_outbox::Left;

/// How many frames left: one at each port.
pub fn count_left(left: &[Left]) -> u128
    ensures { result ≡ length (all_left left.now) }
{
    if let [frame] = left {
        return frame.row.count() as u128;
    }
    let mut total = 0u128;
    for frame in left {
        total += frame.row.count() as u128;
    }
    total
}
