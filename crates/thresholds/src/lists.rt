// The list of thresholds: its test.
ghost use Rattle.std.specs.Prelude.{◌≡◌, ◌&&◌, leb, ltb, suc};
ghost use Rattle.mass.specs.Refusal.{number_in};
ghost use Rattle.mass.specs.Split.{whole};
ghost use Rattle.thresholds.specs.Thresholds.{header_at, falls, thresholds_test};

use crate::CommonHeader;
use mass::{Mass, Refusal};
use plan::Header;

// The header of a run with a threshold.
pub fn header_at(h: CommonHeader, threshold: u64) -> Header
    ensures { result ≡ header_at h threshold }
{
    Header {
        nodes: h.nodes,
        links: h.links,
        events: h.events,
        threshold,
        cap: h.cap,
    }
}

// Whether a threshold is 1 or more, and below `above`.
fn in_range(t: u64, above: u64) -> bool
    ensures { result ≡ (leb 1 t && ltb t above) }
{
    1 <= t && t < above
}

// Whether the thresholds are 1 to 10^18, and each is below the one before.
fn falls(list: &[u64]) -> bool
    ensures { result ≡ falls (suc whole) list.now }
{
    let mut above = Mass::WHOLE.units + 1;
    // The thresholds that are left fall from below `above` exactly where all do from below 10^18 + 1.
    for t in list {
        if !in_range(*t, above) {
            return false;
        }
        above = *t;
    }
    true
}

// 23: no threshold, more than 16, one outside 1 to 10^18, or one that is not below the one before.
pub fn thresholds_test(list: &[u64]) -> Result<(), Refusal>
    ensures { number_in result ≡ thresholds_test list.now }
{
    Refusal::Thresholds.when(list.is_empty() || 16 < list.len() || !falls(list))
}
