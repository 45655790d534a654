// The run over all pairs with the events in a lent list of records: document 01, sections "Plan file" and "Bounds of a pair".
// `run_records` is thin over `run_words`; `run_plan` takes a plan file in their place.
// `copy_plan` reads a plan file into records and writes it again.
// Assumes nothing.
#![tactic(auto)]

mod copying;
mod running;

ghost use Rattle.std.specs.Prelude.{◌≡◌, ◌*◌, length, IfOk};
ghost use Rattle.mass.specs.Refusal.{number_in};
ghost use Rattle.plan.specs.LentLists.{plan_of_lists, in_words};
ghost use Rattle.plan.specs.Calls.{filled};
ghost use Rattle.network.specs.Outage.{intact};
ghost use Rattle.bounds.specs.Bounds.{lower_list, upper_list, EnclosesAll};
ghost use Rattle.bounds.specs.Calls.{run_number, totals_of};
ghost use Rattle.record_lists.specs.Events.{words_of, words_used, in_records};

use bounds::Totals;
pub use copying::copy_plan;
use mass::Refusal;
use plan::Header;
use record_lists::{Event, flatten, used_words};
pub use running::run_plan;

// The run on an array of words: the lent list of events has `count` of them, of which the first 128 stand in the array.
pub fn run_words(
    h: Header,
    links: &[u8],
    count: usize,
    words: &[u64; 512],
    lower: &mut [u64],
    upper: &mut [u64],
) -> Result<Totals, Refusal>
    ensures number { number_in result
        ≡ run_number (in_words h links.now (words_used count words.now)) (length lower.old) (length upper.old) }
    ensures totals { IfOk result (λ t. t ≡ totals_of (plan_of_lists h links.now (words_used count words.now))) }
    ensures lowers { lower.new ≡ filled (number_in result)
        (lower_list intact (plan_of_lists h links.now (words_used count words.now))) lower.old }
    ensures uppers { upper.new ≡ filled (number_in result)
        (upper_list intact (plan_of_lists h links.now (words_used count words.now))) upper.old }
    ensures demand3 { IfOk result (λ t. EnclosesAll intact (plan_of_lists h links.now (words_used count words.now))
        lower.new upper.new t.count) }
{
    bounds::run(h, links, used_words(words, count), lower, upper)
}

// The run over all pairs: fills the two lists with the bounds of the pairs, in order, and answers the examined count, complete and E.
pub fn run_records(
    h: Header,
    links: &[u8],
    events: &[Event],
    lower: &mut [u64],
    upper: &mut [u64],
) -> Result<Totals, Refusal>
    ensures number { number_in result
        ≡ run_number (in_records h links.now events.now) (length lower.old) (length upper.old) }
    ensures totals { IfOk result (λ t. t ≡ totals_of (plan_of_lists h links.now (words_of events.now))) }
    ensures lowers { lower.new ≡ filled (number_in result)
        (lower_list intact (plan_of_lists h links.now (words_of events.now))) lower.old }
    ensures uppers { upper.new ≡ filled (number_in result)
        (upper_list intact (plan_of_lists h links.now (words_of events.now))) upper.old }
    ensures demand3 { IfOk result (λ t. EnclosesAll intact (plan_of_lists h links.now (words_of events.now))
        lower.new upper.new t.count) }
{
    let mut words = [0u64; 512];
    flatten(events, &mut words);
    run_words(h, links, events.len(), &words, lower, upper)
}
