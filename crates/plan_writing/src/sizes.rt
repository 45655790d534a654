// How many members an event has, and how many bytes events take in a plan file: document 01, section "Plan file".
ghost use Rattle.std.specs.Prelude.{◌≡◌, ◌+◌, ◌*◌, ◌≤◌, length};
ghost use Rattle.sets.specs.Sets.{joined};
ghost use Rattle.plan.specs.Lists.{events_of};
ghost use Rattle.plan.specs.Layout.{elements, event_bytes};

// How many elements a set of one word has.
fn count_elements(set: u64) -> u64
    ensures { (result ≡ length (elements 64 0 set)) × (result ≤ 64) }
{
    u64::from(set.count_ones())
}

// How many members an event has.
pub fn member_count(nodes: u64, low: u64, high: u64) -> u64
    ensures { (result ≡ length (elements 64 0 nodes) + length (elements 128 0 (joined low high))) × (result ≤ 192) }
{
    count_elements(nodes) + count_elements(low) + count_elements(high)
}

// How many bytes events take.
pub fn events_size(words: &[u64], count: u64) -> usize
    requires { (count ≤ 128) × (4 * count ≤ length words.now) }
    ensures { result ≡ length (event_bytes (events_of count words.now)) }
{
    let mut size = 0;
    // `size` and the bytes of the events from event i on make the bytes of all events.
    for i in 0..count as usize {
        let members = member_count(words[4 * i + 1], words[4 * i + 2], words[4 * i + 3]);
        size += 5 + 2 * (members as usize);
    }
    size
}
