// Lent lists: copying them, the number with which they are refused, in the writer's order, and one way in for every call that takes them:
// `accept`.
// Assumes nothing.
#![tactic(auto)]

ghost use Rattle.std.specs.Prelude.{◌≡◌, ◌+◌, ◌*◌, ◌≤◌, min, length, take, OnOk};
ghost use Rattle.std.proofs.lemmas.List.Edits.{sets};
ghost use Rattle.mass.specs.Refusal.{number_in};
ghost use Rattle.mass.specs.Split.{certain};
ghost use Rattle.plan.specs.Lists.{links_of, events_of};
ghost use Rattle.plan.specs.LentLists.{link_list_refusal, event_list_refusal, in_words, lists_number};
ghost use Rattle.plan_lists.specs.Taken.{Taken};

use mass::Refusal;
use plan::{Header, byte_at};

// Lays the first `count` items of a list down from a position on. By a loop: with `copy_from_slice` the probe's archive asks for `memmove`.
pub fn copy_first<T: Copy>(from: &[T], to: &mut [T], at: usize, count: usize)
    requires { (count ≤ length from.now) × (at + count ≤ length to.old) }
    ensures { to.new ≡ sets to.old at (take count from.now) }
{
    // The first i items are laid down, and no others.
    for i in 0..count {
        to[at + i] = from[i];
    }
}

// Takes the first bytes and words of lent lists into the arrays, and says how long the arrays are.
fn load(links: &[u8], events: &[u64], bytes: &mut [u8; 256], words: &mut [u64; 512])
    ensures bytes_len { (length bytes.old ≡ 256) × (length words.old ≡ 512) }
    ensures bytes_after { bytes.new ≡ sets bytes.old 0
        (take (min (length links.now) 256) links.now) }
    ensures words_after { words.new ≡ sets words.old 0
        (take (min (length events.now) 512) events.now) }
{
    copy_first(links, bytes, 0, links.len().min(256));
    copy_first(events, words, 0, events.len().min(512));
}

// Each link, 7.
fn link_list_refusal(links: &[u8], count: u64, nodes: u64) -> Result<(), Refusal>
    requires { (count ≤ 128) × (2 * count ≤ length links.now) }
    ensures { number_in result ≡ link_list_refusal nodes (links_of count links.now) }
{
    // The links from i on are refused as all links are: those before them pass.
    for i in 0..count as usize {
        refusals::ends_test(nodes, byte_at(links, 2 * i), byte_at(links, 2 * i + 1))?;
    }
    Ok(())
}

// Each event, 8, 9, 10.
fn event_list_refusal(words: &[u64], count: u64, nodes: u64, links: u64) -> Result<(), Refusal>
    requires { ((count ≤ 128) × (4 * count ≤ length words.now)) × ((nodes ≤ 64) × (links ≤ 128)) }
    ensures { number_in result ≡ event_list_refusal nodes links certain (events_of count words.now) }
{
    let mut before = mass::CERTAIN;
    // The events from i on, after the probability `before`, are refused as all events are: those before them pass.
    for i in 0..count as usize {
        let at = 4 * i;
        let q = words[at];
        mass::probability_test(q)?;
        refusals::order_test(before, q)?;
        refusals::sets_test(nodes, links, words[at + 1], words[at + 2], words[at + 3])?;
        before = q;
    }
    Ok(())
}

// The refusal of a header and lent lists, if there is one: 4 to 6, 12 for the two lists, 7, then 8, 9, 10.
pub fn lists_refusal(h: Header, links: &[u8], events: &[u64]) -> Result<(), Refusal>
    ensures { number_in result ≡ lists_number (in_words h links.now events.now) }
{
    refusals::numbers_test(h.nodes, h.links, h.events, h.threshold, h.cap)?;
    refusals::room_test(links.len(), 2 * (h.links as usize))?;
    refusals::room_test(events.len() / 4, h.events as usize)?;
    link_list_refusal(links, h.links, h.nodes)?;
    event_list_refusal(events, h.events, h.nodes, h.links)
}

// Takes a header and lent lists into the arrays, and answers their refusal, if there is one.
pub fn accept(
    h: Header,
    links: &[u8],
    events: &[u64],
    bytes: &mut [u8; 256],
    words: &mut [u64; 512],
) -> Result<(), Refusal>
    ensures number { number_in result ≡ lists_number (in_words h links.now events.now) }
    ensures taken { OnOk result (Taken h links.now events.now bytes.new words.new) }
    ensures bytes { bytes.new ≡ sets bytes.old 0
        (take (min (length links.now) 256) links.now) }
    ensures words { words.new ≡ sets words.old 0
        (take (min (length events.now) 512) events.now) }
{
    load(links, events, bytes, words);
    lists_refusal(h, links, events)
}
