ghost use Rattle.std.specs.Prelude.{◌≡◌, ◌+◌, ◌^◌, ◌<◌, ◌≤◌, IfSome};
ghost use Rattle.pef_cert.specs.Extension.{moved_value};
ghost use Rattle.pef_cert.specs.Kept.Values.{offered};

use crate::fixups::WORD;

/// The most bytes that an increment moves.
pub const REACH: u64 = 4096;

/// The most bytes that a skip moves.
pub const SKIP_REACH: u64 = 1020;

/// The most bytes that both together move.
const BOTH_REACH: u64 = REACH + SKIP_REACH;

/// Returns the extension away from the offset of the next fixup, in halfwords: the fixup lies `ahead`
/// bytes ahead (0 if the position is past it), with the label there and the least offer, if there is one.
pub fn moved_value(ahead: u64, label: u32, offer: Option<u64>) -> u64
    requires { IfSome offer (λ x. x + 1 < 2 ^ 64) }
    ensures is { result ≡ moved_value ahead label offer }
    ensures small { result ≤ 2 + label }
{
    let label = u64::from(label);
    let near = if 1 <= ahead && ahead <= REACH {
        1 + label
    } else {
        2 + label
    };
    match offer {
        Some(offer) => with_offer(ahead, near, offer),
        None => near,
    }
}

/// Returns the lesser of a value and the value of an offer.
fn with_offer(ahead: u64, value: u64, offer: u64) -> u64
    requires { offer + 1 < 2 ^ 64 }
    ensures { result ≡ offered ahead value offer }
{
    if WORD <= ahead && ahead <= SKIP_REACH && ahead % WORD == 0 {
        value.min(offer)
    } else if 1 <= ahead && ahead <= BOTH_REACH {
        value.min(1 + offer)
    } else {
        value
    }
}
