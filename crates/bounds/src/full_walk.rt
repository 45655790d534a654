// The full walk of an accepted plan.
ghost use Rattle.std.specs.Prelude.{◌≡◌, leb};
ghost use Rattle.sets.specs.Sets.{digit};
ghost use Rattle.plan.specs.LentLists.{plan_refusal, plan_of_lists};
ghost use Rattle.network.specs.Code.{outage};
ghost use Rattle.bounds.specs.Calls.{totals_of};
ghost use Rattle.bounds.specs.Summed.{Summed, Cleared};

use crate::ends::go_on;
use crate::{Tally, Totals};
use network::Failed;
use plan::Header;

// 1 where no branch is left on the stack, else 0.
pub fn none_left(at: usize) -> u64
    ensures { result ≡ digit (leb 512 at) }
{
    u64::from(512 <= at)
}

// The full walk of an accepted plan, with some nodes and links out before the first event: the totals, and the lower bounds in the entries
// of the pairs.
pub fn walk_all(
    h: Header,
    links: &[u8; 256],
    words: &[u64; 512],
    out: Failed,
    lower: &mut [u64; 2016],
) -> Totals
    requires words_value { plan_refusal (plan_of_lists h links.now words.now) ≡ 0 }
    requires cleared { Cleared lower.old }
    ensures value { result ≡ totals_of (plan_of_lists h links.now words.now) }
    ensures summed { Summed (outage out) (plan_of_lists h links.now words.now) h.nodes lower.new }
{
    let table = network::links_at(h.nodes as usize, links, h.links as usize);
    let mut stack = [0u64; 512];
    let at = walk::begin(&mut stack);
    let so_far = Tally {
        at,
        left: h.cap,
        count: 0,
        mass: 0,
    };
    let r = go_on(h, links, words, &table, out, &mut stack, lower, so_far);
    Totals {
        count: r.count,
        complete: none_left(r.at),
        mass: r.mass,
    }
}
