//! Shares of members, in ten-thousandths of a percent.
ghost use Rattle.std.specs.Prelude.{◌≡◌, ◌+◌, ◌*◌, ◌^◌, ◌<◌};
ghost use Rattle.quantities.specs.Limits.{whole_share};
ghost use Rattle.quantities.specs.Shares.{Nearest, corrected, nearest};

use crate::limits::WHOLE_SHARE;

fn to_nearest(n: u64, d: u64) -> u64
    requires divisor { 0 < d }
    requires doubled { 2 * n + d < 2 ^ 64 }
    requires doubled_divisor { 2 * d < 2 ^ 64 }
    ensures { result ≡ nearest n d }
{
    (2 * n + d) / (2 * d)
}

/// The share that counts on a day whose shares add up to `total`: where that is above the whole,
/// the shares are scaled down to it, each to the nearest number, halves up.
#[tactic(auto, using(crate::proofs::Correction::corrections))]
pub fn corrected_share(share: u32, total: u32) -> u32
    ensures value { result ≡ corrected share total }
    ensures close { whole_share < total → Nearest (share * whole_share) total result }
{
    if total <= WHOLE_SHARE {
        return share;
    }
    // No more than the share, so it fits.
    to_nearest(u64::from(share) * u64::from(WHOLE_SHARE), u64::from(total)) as u32
}
