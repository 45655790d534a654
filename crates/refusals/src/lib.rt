// The tests of document 01's table "Refused": each gives its refusal where it finds something wrong. Numbers 8 and 16 are tests of the
// crate `mass`.
// Assumes nothing.
#![tactic(auto)]

ghost use Rattle.std.specs.Prelude.{◌≡◌, ◌^◌, ◌≤◌, ◌<◌, leb, OnOk};
ghost use Rattle.mass.specs.Refusal.{number_in};
ghost use Rattle.sets.specs.Sets.{joined};
ghost use Rattle.refusals.specs.Tests.{short_test, mark_test, version_test, counts_test, threshold_test, cap_test, numbers_test};
ghost use Rattle.refusals.specs.Tests.{ends_test, order_test, count_of_kind, member_test, sets_test, left_test, room_test};

use mass::{Mass, Refusal};

// 1: fewer than `need` bytes are left.
pub fn short_test(left: usize, need: usize) -> Result<(), Refusal>
    ensures number { number_in result ≡ short_test left need }
    ensures there { OnOk result (need ≤ left) }
{
    Refusal::BytesEnd.when(left < need)
}

// 2: the mark a b c is not x y z.
pub fn mark_test(x: u64, y: u64, z: u64, a: u64, b: u64, c: u64) -> Result<(), Refusal>
    ensures { number_in result ≡ mark_test x y z a b c }
{
    Refusal::Mark.when(!(a == x && b == y && c == z))
}

// 3: the version is not 1.
pub fn version_test(version: u64) -> Result<(), Refusal>
    ensures { number_in result ≡ version_test version }
{
    Refusal::Version.when(version != 1)
}

// 4: a count is out of range.
pub fn counts_test(nodes: u64, links: u64, events: u64) -> Result<(), Refusal>
    ensures number { number_in result ≡ counts_test nodes links events }
    ensures in_range { OnOk result ((nodes ≤ 64) × (links ≤ 128) × (events ≤ 128)) }
{
    Refusal::Counts.when(nodes < 1 || 64 < nodes || 128 < links || 128 < events)
}

// 5: the threshold is 0 or above one whole.
pub fn threshold_test(t: u64) -> Result<(), Refusal>
    ensures { number_in result ≡ threshold_test t }
{
    Refusal::Threshold.when(t < 1 || Mass::WHOLE.units < t)
}

// 6: the cap is 0 or above 1,000,000.
pub fn cap_test(cap: u64) -> Result<(), Refusal>
    ensures { number_in result ≡ cap_test cap }
{
    Refusal::Cap.when(cap < 1 || 1_000_000 < cap)
}

// 4 to 6.
#[tactic(auto, using(mass::proofs::RefusalLaws::refuses))]
pub fn numbers_test(
    nodes: u64,
    links: u64,
    events: u64,
    threshold: u64,
    cap: u64,
) -> Result<(), Refusal>
    ensures number { number_in result ≡ numbers_test nodes links events threshold cap }
    ensures in_range { OnOk result ((nodes ≤ 64) × (links ≤ 128) × (events ≤ 128)) }
{
    counts_test(nodes, links, events)?;
    threshold_test(threshold)?;
    cap_test(cap)
}

// 7: a link end is N or more, or the first is not smaller than the second.
pub fn ends_test(nodes: u64, low: u64, high: u64) -> Result<(), Refusal>
    ensures { number_in result ≡ ends_test nodes low high }
{
    Refusal::LinkEnds.when(nodes <= low || nodes <= high || high <= low)
}

// 9: a probability is above that of the event before.
pub fn order_test(before: u64, q: u64) -> Result<(), Refusal>
    ensures { number_in result ≡ order_test before q }
{
    Refusal::Order.when(before < q)
}

// How many elements a kind of member has.
fn count_of_kind(nodes: u64, links: u64, kind: u64) -> u64
    ensures { result ≡ count_of_kind nodes links kind }
{
    match kind {
        0 => nodes,
        1 => links,
        _ => 0,
    }
}

// 10: a member has a wrong kind or number, or does not rise.
pub fn member_test(
    nodes: u64,
    links: u64,
    least: u64,
    kind: u64,
    number: u64,
) -> Result<(), Refusal>
    requires { (kind < 256) × (number < 256) }
    ensures { number_in result ≡ member_test nodes links least kind number }
{
    let rank = kind * 256 + number;
    Refusal::Member.when(count_of_kind(nodes, links, kind) <= number || rank < least)
}

// Whether a set has an element that is `count` or more.
pub fn reaches(count: u64, set: u64) -> bool
    requires { count ≤ 64 }
    ensures { result ≡ leb (2 ^ count) set }
{
    if count == 64 {
        return false;
    }
    0 < set >> count
}

// Whether a set of two words has an element that is `count` or more.
pub fn reaches_wide(count: u64, low: u64, high: u64) -> bool
    requires { count ≤ 128 }
    ensures { result ≡ leb (2 ^ count) (joined low high) }
{
    if 64 <= count {
        return reaches(count - 64, high);
    }
    0 < high || reaches(count, low)
}

// 10, in a record: a set has a bit at or past the count.
pub fn sets_test(nodes: u64, links: u64, set: u64, low: u64, high: u64) -> Result<(), Refusal>
    requires { (nodes ≤ 64) × (links ≤ 128) }
    ensures { number_in result ≡ sets_test nodes links set (joined low high) }
{
    Refusal::Member.when(reaches(nodes, set) || reaches_wide(links, low, high))
}

// 11: bytes are left after the last event.
pub fn left_test(left: usize) -> Result<(), Refusal>
    ensures { number_in result ≡ left_test left }
{
    Refusal::BytesLeft.when(0 < left)
}

// 12: a lent list or buffer is too short.
pub fn room_test(room: usize, need: usize) -> Result<(), Refusal>
    ensures number { number_in result ≡ room_test room need }
    ensures there { OnOk result (need ≤ room) }
{
    Refusal::Room.when(room < need)
}
