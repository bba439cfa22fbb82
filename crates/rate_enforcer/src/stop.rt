ghost use Rattle.std.specs.Prelude.{◌≡◌};
ghost use Rattle.rate_enforcer.specs.Stops.{stop_after, first_stop};

use asc_base::{Evidence, Stop};
use unified_tree::TreeStop;

/// The stop that a stop of the tree becomes.
pub(crate) fn stop_of(stop: TreeStop) -> Stop
    ensures { result ≡ stop_after stop }
{
    match stop {
        TreeStop::BadSlot { bucket, slot } => Stop::Integrity(Evidence::BadSlot { bucket, slot }),
        TreeStop::OffPath { bucket, slot } => Stop::Integrity(Evidence::OffPath { bucket, slot }),
        TreeStop::Doubled { address } => Stop::Integrity(Evidence::Doubled { address }),
        TreeStop::Full { held } => Stop::StashFull { held },
        TreeStop::Device => Stop::Device,
        TreeStop::NoMemory => Stop::NoMemory,
    }
}

/// The stop that was kept before, or else this one.
pub(crate) fn earlier(kept: Option<Stop>, stop: Stop) -> Stop
    ensures { result ≡ first_stop kept stop }
{
    match kept {
        Some(before) => before,
        None => stop,
    }
}
