// Writing a plan file with the events in a lent list of records. The call on records is thin: an array of words of its own, and two calls.
ghost use Rattle.std.specs.Prelude.{◌≡◌, length, IfOk};
ghost use Rattle.mass.specs.Refusal.{number_in};
ghost use Rattle.plan.specs.Layout.{layout};
ghost use Rattle.plan.specs.LentLists.{plan_of_lists, in_words};
ghost use Rattle.plan.specs.Calls.{filled, write_number};
ghost use Rattle.record_lists.specs.Events.{words_of, words_used, in_records};

use crate::Event;
use crate::lists::{flatten, used_words};
use mass::Refusal;
use plan::Header;

// Writes a plan whose events stand in an array of words: the lent list of events has `count` of them, of which the first 128 stand in the
// array.
pub fn write_words(
    h: Header,
    links: &[u8],
    count: usize,
    words: &[u64; 512],
    out: &mut [u8],
) -> Result<usize, Refusal>
    ensures number { number_in result ≡ write_number (in_words h links.now (words_used count words.now)) (length out.old) }
    ensures size { IfOk result (λ n. n ≡ length (layout (plan_of_lists h links.now (words_used count words.now)))) }
    ensures out_after { out.new ≡ filled (number_in result)
        (layout (plan_of_lists h links.now (words_used count words.now))) out.old }
{
    plan_writing::write(h, links, used_words(words, count), out)
}

// Writes a plan from lent lists: links two bytes each, events a record each.
pub fn write_records(
    h: Header,
    links: &[u8],
    events: &[Event],
    out: &mut [u8],
) -> Result<usize, Refusal>
    ensures number { number_in result ≡ write_number (in_records h links.now events.now) (length out.old) }
    ensures size { IfOk result (λ n. n ≡ length (layout (plan_of_lists h links.now (words_of events.now)))) }
    ensures out_after { out.new ≡ filled (number_in result)
        (layout (plan_of_lists h links.now (words_of events.now))) out.old }
{
    let mut words = [0u64; 512];
    flatten(events, &mut words);
    write_words(h, links, events.len(), &words, out)
}
