// The test of a state: whether fields that are set to anything may be gone on with.
ghost use Rattle.std.specs.Prelude.{◌≡◌, ◌%◌, ◌≤◌, length, drop};
ghost use Rattle.walk.specs.Stack.{entry_mass};
ghost use Rattle.walk_state.specs.Sound.{sound_entry, sound_entries, none_above, sound_numbers, sound};

use plan::Header;

// Whether an entry of a stack is sound, where the pending branches may have at most `room` mass and `below` words lie under it.
fn entry_sound(
    count: u64,
    room: u64,
    depth: u64,
    mass: u64,
    low: u64,
    high: u64,
    below: usize,
) -> bool
    ensures { result ≡ sound_entry count room depth mass low high below }
{
    if depth > 128 {
        return 0 < mass;
    }
    if depth > count {
        return false;
    }
    if mass > room {
        return false;
    }
    if refusals::reaches_wide(depth, low, high) {
        return false;
    }
    below <= 4 * (depth as usize)
}

// The mass of an entry: dropped ends have none.
fn entry_mass(depth: u64, mass: u64) -> u64
    ensures { result ≡ entry_mass depth mass }
{
    if depth > 128 {
        return 0;
    }
    mass
}

// Whether the entries of a stack from `at` on are sound, their pending branches of at most `room` mass together.
fn entries_sound(count: u64, room: u64, stack: &[u64; 512], at: usize) -> bool
    requires { (length stack.now ≡ 512) × (at ≤ 512) × (at % 4 ≡ 0) }
    ensures { result ≡ sound_entries count room (drop at stack.now) }
{
    let mut left = room;
    // The entries from entry i on are sound, of at most `left` mass, exactly where those from `at` on are, of at most `room`.
    for i in at / 4..128 {
        let depth = stack[4 * i];
        let mass = stack[4 * i + 1];
        if !entry_sound(
            count,
            left,
            depth,
            mass,
            stack[4 * i + 2],
            stack[4 * i + 3],
            508 - 4 * i,
        ) {
            return false;
        }
        left -= entry_mass(depth, mass);
    }
    true
}

// Whether no sum is above `most`.
fn none_above(most: u64, sums: &[u64; 2016]) -> bool
    requires { length sums.now ≡ 2016 }
    ensures { result ≡ none_above most sums.now }
{
    sums.iter().all(|sum| *sum <= most)
}

// Whether no more scenarios were examined than ends reached, no more ends reached than the cap, and the stack begins at an entry.
fn numbers_sound(cap: u64, at: usize, reached: u64, count: u64) -> bool
    ensures { result ≡ sound_numbers cap at reached count }
{
    if reached < count {
        return false;
    }
    if cap < reached {
        return false;
    }
    if at % 4 != 0 {
        return false;
    }
    at <= 512
}

// Whether a state may be gone on with.
pub fn is_sound(
    h: Header,
    links: &[u8; 256],
    events: &[u64; 512],
    stack: &[u64; 512],
    sums: &[u64; 2016],
    at: usize,
    reached: u64,
    count: u64,
    mass: u64,
) -> bool
    requires { (length stack.now ≡ 512) × (length sums.now ≡ 2016) }
    ensures { result ≡ sound (record {
      header = h;
      links = links.now;
      events = events.now;
      stack = stack.now;
      sums = sums.now;
      at = «at»;
      reached = «reached»;
      count = «count»;
      mass = «mass»;
    }) }
{
    if plan_lists::lists_refusal(h, links, events).is_err() {
        return false;
    }
    if !numbers_sound(h.cap, at, reached, count) {
        return false;
    }
    if mass > mass::Mass::WHOLE.units {
        return false;
    }
    if !entries_sound(h.events, mass::Mass::WHOLE.units - mass, stack, at) {
        return false;
    }
    none_above(mass, sums)
}
