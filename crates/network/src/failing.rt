// What has failed in a scenario: the union over its failing events. Events are four words each: probability, nodes, links 0 to 63, links 64
// to 127.
ghost use Rattle.std.specs.Prelude.{◌≡◌, ◌*◌, ◌^◌, ◌≤◌, ◌<◌};
ghost use Rattle.sets.specs.Sets.{joined};
ghost use Rattle.plan.specs.Lists.{events_of};
ghost use Rattle.network.specs.Outage.{beside, event_at, with_event, outage_of};
ghost use Rattle.network.specs.Code.{outage};

use crate::Failed;

// What has failed in either of two.
pub fn beside(f: Failed, more: Failed) -> Failed
    ensures { outage result ≡ beside (outage f) (outage more) }
{
    Failed {
        nodes: f.nodes | more.nodes,
        low: f.low | more.low,
        high: f.high | more.high,
    }
}

// What has failed when event i fails too.
fn failed_with_event(events: &[u64; 512], i: usize, f: Failed) -> Failed
    requires { i < 128 }
    ensures { outage result ≡ with_event (outage f) (event_at (events_of 128 events.now) i) }
{
    let at = 4 * i;
    let named = Failed {
        nodes: events[at + 1],
        low: events[at + 2],
        high: events[at + 3],
    };
    beside(f, named)
}

// What has failed when the events base + i, for each element i of one word, fail.
fn failed_word(events: &[u64; 512], count: usize, base: usize, set: u64, start: Failed) -> Failed
    requires { (count ≤ 128) × (set * 2 ^ base < 2 ^ count) }
    ensures { outage result ≡ outage_of (outage start) (events_of count events.now) (set * 2 ^ base) }
{
    let mut f = start;
    // When the events of the elements still to come fail beside f, what has failed is what the call is to return.
    for i in sets::elements(set) {
        f = failed_with_event(events, base + i, f);
    }
    f
}

// What has failed when the events of a set of two words fail, beside what had failed at the start.
pub fn failed_by(events: &[u64; 512], count: usize, low: u64, high: u64, start: Failed) -> Failed
    requires { (count ≤ 128) × (joined low high < 2 ^ count) }
    ensures { outage result ≡ outage_of (outage start) (events_of count events.now) (joined low high) }
{
    let f = failed_word(events, count, 0, low, start);
    failed_word(events, count, 64, high, f)
}
