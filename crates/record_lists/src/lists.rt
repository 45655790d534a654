// From words to records and back: the events of a plan stand in 512 words, four to an event.
ghost use Rattle.std.specs.Prelude.{◌≡◌, [], ◌∷◌, ◌*◌, ◌<◌, ◌≤◌, length, take, drop};
ghost use Rattle.std.proofs.lemmas.List.Edits.{sets};
ghost use Rattle.record_lists.specs.Events.{words_of, words_used, record_in, records_of};

use crate::Event;

// The record whose words stand at place `i`.
pub fn event_at(words: &[u64; 512], i: usize) -> Event
    requires { i < 128 }
    ensures { result ≡ record_in (drop (4 * i) words.now) }
{
    Event {
        probability: words[4 * i],
        nodes: words[4 * i + 1],
        links_low: words[4 * i + 2],
        links_high: words[4 * i + 3],
    }
}

// Lays the words of a record down at place `i`.
pub fn put_event(words: &mut [u64; 512], i: usize, e: Event)
    requires { i < 128 }
    ensures { words.new ≡ sets words.old (4 * i) (words_of (e ∷ [])) }
{
    words[4 * i] = e.probability;
    words[4 * i + 1] = e.nodes;
    words[4 * i + 2] = e.links_low;
    words[4 * i + 3] = e.links_high;
}

// The first `count` records of the words, laid down from the start of a lent list.
pub fn fill(words: &[u64; 512], events: &mut [Event], count: usize)
    requires { (count ≤ 128) × (count ≤ length events.old) }
    ensures { events.new ≡ sets events.old 0 (records_of count words.now) }
{
    // The first i records are laid down, and no others.
    for i in 0..count {
        events[i] = event_at(words, i);
    }
}

// The words of the first 128 records, or of all where there are fewer, laid down from the start of the array. What a call on words is given
// of them is `used_words`.
pub fn flatten(events: &[Event], words: &mut [u64; 512])
    ensures { words.new ≡ sets words.old 0 (words_of (take 128 events.now)) }
{
    // The words of the first i records are laid down, and no others.
    for i in 0..events.len().min(128) {
        put_event(&mut *words, i, events[i]);
    }
}

// The part of the words that a list of `count` records fills, or its first 128. A call that takes words is given this part and no more: then
// it meets 12 where the header has more events than the list has records.
pub fn used_words(words: &[u64; 512], count: usize) -> &[u64]
    ensures { result.now ≡ words_used count words.now }
{
    let used = 4 * count.min(128);
    &words[..used]
}
