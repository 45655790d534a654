// A walk begun, and gone on with, under a quota.
ghost use Rattle.std.specs.Prelude.{◌≡◌, true, ◌+◌, ◌≤◌, ◌<◌, length, IfOk, OnOk};
ghost use Rattle.mass.specs.Refusal.{number_in};
ghost use Rattle.plan.specs.LentLists.{plan_of_lists, in_words, lists_number};
ghost use Rattle.network.specs.Outage.{intact};
ghost use Rattle.walk_state.specs.Sound.{sound};
ghost use Rattle.panel.specs.Walks.{WalkAt, root_walk};
ghost use Rattle.panel.specs.Calls.{full_quota, quota_test, gone_on, WentOn};
ghost use Rattle.panel.specs.Steps.{open_ends, ends_there, WalkedOn};

use crate::Quota;
use bounds::Tally;
use mass::Refusal;
use plan::Header;
use walk_state::{Walk, is_sound};

// Begins the walk of a plan in lent lists.
pub fn begin(h: Header, links: &[u8], events: &[u64]) -> Result<Walk, Refusal>
    ensures number { number_in result ≡ lists_number (in_words h links.now events.now) }
    ensures root { IfOk result (λ w. w ≡ root_walk h links.now events.now) }
    ensures begun { IfOk result (λ w.
        WalkAt intact (plan_of_lists h links.now events.now) 0 w) }
{
    let mut bytes = [0u8; 256];
    let mut words = [0u64; 512];
    plan_lists::accept(h, links, events, &mut bytes, &mut words)?;
    let mut stack = [0u64; 512];
    let at = walk::begin(&mut stack);
    Ok(Walk {
        header: h,
        links: bytes,
        events: words,
        stack,
        sums: [0u64; 2016],
        at,
        reached: 0,
        count: 0,
        mass: 0,
    })
}

// The quota at power-up: 10,000,000 ends.
pub fn power_up() -> Quota
    ensures { result ≡ full_quota }
{
    Quota { left: 10_000_000 }
}

// 19: the quota is empty.
fn quota_test(left: u64) -> Result<(), Refusal>
    ensures number { number_in result ≡ quota_test left }
    ensures some { OnOk result (0 < left) }
{
    Refusal::Quota.when(left == 0)
}

// How many ends the cap still allows: none from a state that is no walk or has no end to come.
fn ends_open(w: &Walk) -> u64
    ensures allowed { result ≡ open_ends w.now }
    ensures sized { length w.now.stack ≡ 512 }
{
    if !is_sound(
        w.header, &w.links, &w.events, &w.stack, &w.sums, w.at, w.reached, w.count, w.mass,
    ) {
        return 0;
    }
    if 512 <= w.at {
        return 0;
    }
    w.header.cap - w.reached
}

// Goes on with a walk, by the loop of the run, for at most so many ends as are allowed. Answers how many it reached.
fn reach_ends(walk: &mut Walk, allowed: u64) -> u64
    requires { (sound walk.old ≡ true) × (allowed + walk.old.reached ≤ walk.old.header.cap) }
    ensures reached { result ≡ ends_there walk.old allowed }
    ensures walked { WalkedOn walk.old allowed walk.new }
{
    let h = walk.header;
    let table = network::links_at(h.nodes as usize, &walk.links, h.links as usize);
    let so_far = Tally {
        at: walk.at,
        left: allowed,
        count: walk.count,
        mass: walk.mass,
    };
    let r = bounds::go_on(
        h,
        &walk.links,
        &walk.events,
        &table,
        network::Failed::NONE,
        &mut walk.stack,
        &mut walk.sums,
        so_far,
    );
    let reached = allowed - r.left;
    walk.at = r.at;
    walk.reached += reached;
    walk.count = r.count;
    walk.mass = r.mass;
    reached
}

// Goes on with a walk for at most k ends, drawing on the quota, and answers how many ends it reached. A refusal leaves both as they were.
pub fn go_on(walk: &mut Walk, quota: &mut Quota, k: u64) -> Result<u64, Refusal>
    ensures { WentOn walk.old quota.old k (gone_on result walk.new quota.new) }
{
    let wanted = k.min(ends_open(walk));
    if wanted == 0 {
        return Ok(0);
    }
    quota_test(quota.left)?;
    let reached = reach_ends(walk, wanted.min(quota.left));
    quota.left -= reached;
    Ok(reached)
}
