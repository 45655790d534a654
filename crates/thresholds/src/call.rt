// The call for several thresholds: its tests, and what it answers.
ghost use Rattle.std.specs.Prelude.{◌≡◌, length, IfOk, OnOk};
ghost use Rattle.mass.specs.Refusal.{number_in};
ghost use Rattle.plan.specs.Calls.{filled};
ghost use Rattle.plan_lists.specs.Taken.{Taken};
ghost use Rattle.network.specs.Outage.{intact};
ghost use Rattle.bounds.specs.Bounds.{lower_list, upper_list};
ghost use Rattle.thresholds.specs.Thresholds.{header_at, lent_at, plan_at, thresholds_number, answer_of, blocks};
ghost use Rattle.thresholds.specs.Thresholds.{EnclosesBlocks};
ghost use Rattle.thresholds.specs.Steps.{Accepted};

use crate::blocks::fill_blocks;
use crate::lists::{header_at, thresholds_test};
use crate::{Answered, CommonHeader};
use bounds::bounds_test;
use mass::Refusal;
use pairs::pair_count;

// The tests of the call: those of the lists, which are taken into the arrays, 23, then 12 for the two lists of bounds.
fn accept_thresholds(
    h: CommonHeader,
    links: &[u8],
    events: &[u64],
    list: &[u64],
    lower_room: usize,
    upper_room: usize,
    bytes: &mut [u8; 256],
    words: &mut [u64; 512],
) -> Result<(), Refusal>
    ensures number { number_in result ≡ thresholds_number (lent_at h links.now events.now 1) list.now
        lower_room upper_room }
    ensures accepted { OnOk result (Taken (header_at h 1) links.now events.now bytes.new words.new
        × Accepted h list.now lower_room upper_room) }
{
    plan_lists::accept(header_at(h, 1), links, events, bytes, words)?;
    thresholds_test(list)?;
    let n = h.nodes as usize;
    bounds_test(pair_count(n) * list.len(), lower_room, upper_room)
}

// Several thresholds in one walk: fills the two lists with the bounds of the pairs, a block for each threshold in the order of the list, and
// answers the examined count, complete and E of each. A threshold's block and answers are those of a run with it.
pub fn thresholds(
    h: CommonHeader,
    links: &[u8],
    events: &[u64],
    list: &[u64],
    lower: &mut [u64],
    upper: &mut [u64],
) -> Result<Answered, Refusal>
    ensures number { number_in result ≡ thresholds_number (lent_at h links.now events.now 1) list.now
        (length lower.old) (length upper.old) }
    ensures answer { IfOk result (λ a. a ≡ answer_of (plan_at h links.now events.now) list.now) }
    ensures lowers { lower.new ≡ filled (number_in result)
        (blocks (λ t. lower_list intact (plan_at h links.now events.now t)) list.now) lower.old }
    ensures uppers { upper.new ≡ filled (number_in result)
        (blocks (λ t. upper_list intact (plan_at h links.now events.now t)) list.now) upper.old }
    ensures demand3 { IfOk result (λ a. EnclosesBlocks (plan_at h links.now events.now) list.now
        lower.new upper.new a.count) }
{
    let mut bytes = [0u8; 256];
    let mut words = [0u64; 512];
    accept_thresholds(
        h,
        links,
        events,
        list,
        lower.len(),
        upper.len(),
        &mut bytes,
        &mut words,
    )?;
    Ok(fill_blocks(header_at(h, 1), &bytes, &words, list, lower, upper))
}
