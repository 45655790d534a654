// The run over all pairs, and the run with windows of planned work.
ghost use Rattle.std.specs.Prelude.{◌≡◌, [], ◌∷◌, ◌≤◌, length, IfOk, OnOk};
ghost use Rattle.std.proofs.lemmas.List.Edits.{sets};
ghost use Rattle.mass.specs.Refusal.{first, number_in};
ghost use Rattle.refusals.specs.Tests.{room_test};
ghost use Rattle.plan.specs.LentLists.{plan_refusal, plan_of_lists, in_words};
ghost use Rattle.plan.specs.Calls.{filled};
ghost use Rattle.network.specs.Outage.{intact};
ghost use Rattle.network.specs.Code.{outage};
ghost use Rattle.pairs.specs.Pairs.{pair_count};
ghost use Rattle.windows.specs.Windows.{taken_out};
ghost use Rattle.bounds.specs.Bounds.{lower_list, upper_list, EnclosesAll};
ghost use Rattle.bounds.specs.Calls.{totals_of, run_number, run_at_number};

use crate::Totals;
use crate::full_walk::walk_all;
use mass::Refusal;
use network::Failed;
use pairs::{give_bounds, pair_count};
use plan::Header;

// 12 for the two lists of bounds: each is to have room for `entries`.
#[tactic(auto, using(mass::proofs::RefusalLaws::refuses))]
pub fn bounds_test(entries: usize, lower_room: usize, upper_room: usize) -> Result<(), Refusal>
    ensures number { number_in result ≡ first (room_test lower_room entries ∷ room_test upper_room entries ∷ []) }
    ensures there { OnOk result ((entries ≤ lower_room) × (entries ≤ upper_room)) }
{
    refusals::room_test(lower_room, entries)?;
    refusals::room_test(upper_room, entries)
}

// The walk of an accepted plan, with some nodes and links out before the first event: fills the two lists with the bounds of the pairs, in
// order, and answers the totals.
fn fill_bounds(
    h: Header,
    links: &[u8; 256],
    words: &[u64; 512],
    out: Failed,
    lower: &mut [u64],
    upper: &mut [u64],
) -> Totals
    requires words_value { plan_refusal (plan_of_lists h links.now words.now) ≡ 0 }
    requires nodes_in_bounds { (pair_count h.nodes ≤ length lower.old) × (pair_count h.nodes ≤ length upper.old) }
    ensures totals { result ≡ totals_of (plan_of_lists h links.now words.now) }
    ensures lowers { lower.new ≡ sets lower.old 0
        (lower_list (outage out) (plan_of_lists h links.now words.now)) }
    ensures uppers { upper.new ≡ sets upper.old 0
        (upper_list (outage out) (plan_of_lists h links.now words.now)) }
{
    let mut sums = [0u64; 2016];
    let totals = walk_all(h, links, words, out, &mut sums);
    give_bounds(h.nodes as usize, totals.mass, &sums, lower, upper);
    totals
}

// The run over all pairs: fills the two lists with the bounds of the pairs, in order, and answers the examined count, complete and E. It is
// the run with no window of planned work.
pub fn run(
    h: Header,
    links: &[u8],
    events: &[u64],
    lower: &mut [u64],
    upper: &mut [u64],
) -> Result<Totals, Refusal>
    ensures number { number_in result
        ≡ run_number (in_words h links.now events.now) (length lower.old) (length upper.old) }
    ensures totals { IfOk result (λ t. t ≡ totals_of (plan_of_lists h links.now events.now)) }
    ensures lowers { lower.new ≡ filled (number_in result)
        (lower_list intact (plan_of_lists h links.now events.now)) lower.old }
    ensures uppers { upper.new ≡ filled (number_in result)
        (upper_list intact (plan_of_lists h links.now events.now)) upper.old }
    ensures demand3 { IfOk result (λ t. EnclosesAll intact (plan_of_lists h links.now events.now)
        lower.new upper.new t.count) }
{
    run_at(h, links, events, &[], 0, lower, upper)
}

// The run with windows of planned work, five words each, at a minute of the week: as the run, over the network without what is out in the
// windows that hold the minute.
pub fn run_at(
    h: Header,
    links: &[u8],
    events: &[u64],
    windows: &[u64],
    minute: u64,
    lower: &mut [u64],
    upper: &mut [u64],
) -> Result<Totals, Refusal>
    ensures number { number_in result
        ≡ run_at_number (in_words h links.now events.now) (length lower.old) (length upper.old)
        windows.now minute }
    ensures totals { IfOk result (λ t. t ≡ totals_of (plan_of_lists h links.now events.now)) }
    ensures lowers { lower.new ≡ filled (number_in result)
        (lower_list (taken_out windows.now minute) (plan_of_lists h links.now events.now))
        lower.old }
    ensures uppers { upper.new ≡ filled (number_in result)
        (upper_list (taken_out windows.now minute) (plan_of_lists h links.now events.now))
        upper.old }
    ensures demand3 { IfOk result (λ t. EnclosesAll (taken_out windows.now minute)
        (plan_of_lists h links.now events.now) lower.new upper.new t.count) }
{
    let mut bytes = [0u8; 256];
    let mut words = [0u64; 512];
    plan_lists::accept(h, links, events, &mut bytes, &mut words)?;
    bounds_test(pair_count(h.nodes as usize), lower.len(), upper.len())?;
    windows::work_refusal(h.nodes, h.links, windows, minute)?;
    let out = windows::out_at(windows, minute);
    Ok(fill_bounds(h, &bytes, &words, out, lower, upper))
}
