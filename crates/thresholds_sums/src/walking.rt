// The loops of the walk for several thresholds.
ghost use Rattle.std.specs.Prelude.{◌≡◌, ◌⊎◌, ◌-◌, ◌*◌, ◌≤◌, ◌<◌, length, get_or};
ghost use Rattle.plan.specs.Held.{Held};
ghost use Rattle.network.specs.Table.{LinksAt};
ghost use Rattle.pairs.specs.Pairs.{pair_count};
ghost use Rattle.thresholds_walk.specs.Stack.{SharedStack};
ghost use Rattle.thresholds_sums.specs.Walked.{plans_of, FallingFirst, Places, AllCountedSoFar, Kept, Fresh, AllHoldAnswers};

use crate::PlaceNumbers;
use crate::paths::{add_path, count_path};
use plan::Header;
use thresholds_walk::{begin, next_path};

// Goes on with the walk for the first `active` thresholds until the lowest of them has reached more ends than the cap, or no branch is
// pending. Returns where the stack then begins.
fn walk_with(
    h: Header,
    links: &[u8; 256],
    words: &[u64; 512],
    table: &[u64; 128],
    list: &[u64; 16],
    active: usize,
    stack: &mut [u64; 640],
    start: usize,
    places: &mut PlaceNumbers,
    lower: &mut [u64],
) -> usize
    requires held { Held h links.now words.now }
    requires links_at { LinksAt links.now h.links table.now }
    requires falling_first { FallingFirst active list.now × (1 ≤ active) × (h.cap < 4294967296) }
    requires shared_stack { SharedStack h.events start stack.old × (pair_count h.nodes * active ≤ length lower.old)
        × Places places.old }
    requires all_counted_so_far { AllCountedSoFar (plans_of h links.now words.now list.now) active start stack.old
        places.old lower.old }
    ensures shared_stack_2 { SharedStack h.events result stack.new }
    ensures all_counted_so_far_2 { AllCountedSoFar (plans_of h links.now words.now list.now) active result stack.new
        places.new lower.new }
    ensures kept { Kept h active places.old lower.old
        places.new lower.new }
    ensures fact { (get_or places.new.rooms (active - 1) 0 ≡ 0) ⊎ (result ≡ 640) }
{
    let lowest = list[active - 1];
    let mut at = start;
    // For each of the first `active` thresholds, what was reached and what is to come give its plan's answers; all else is untouched.
    // Each turn takes a branch off the stack: fewer ends of the lowest threshold are to come, or fewer branches are pending.
    while at < 640 {
        if places.rooms[active - 1] == 0 {
            return at;
        }
        let path = next_path(h.events, lowest, words, &mut *stack, at);
        at = path.at;
        add_path(
            h,
            links,
            words,
            table,
            list,
            active,
            path,
            &places.rooms,
            &mut *lower,
        );
        count_path(h.events, words, list, active, path, &mut *places);
    }
    at
}

// The walk for the first `count` thresholds of a list: one after another reaches more ends than the cap, the lowest first, or no branch is
// pending.
pub fn walk_thresholds(
    h: Header,
    links: &[u8; 256],
    words: &[u64; 512],
    list: &[u64; 16],
    count: usize,
    places: &mut PlaceNumbers,
    lower: &mut [u64],
)
    requires held { Held h links.now words.now }
    requires falling_first { FallingFirst count list.now × (h.cap < 4294967296) }
    requires fresh { Fresh h count places.old lower.old }
    ensures { AllHoldAnswers (plans_of h links.now words.now list.now) count
        places.old lower.old
        places.new lower.new }
{
    let table = network::links_at(h.nodes as usize, links, h.links as usize);
    let mut stack = [0u64; 640];
    let mut at = begin(&mut stack);
    let mut active = count;
    // The walks of the thresholds past the first `active` have ended. Each turn ends that of the lowest that is under way.
    while 0 < active {
        at = walk_with(
            h,
            links,
            words,
            &table,
            list,
            active,
            &mut stack,
            at,
            &mut *places,
            &mut *lower,
        );
        active -= 1;
    }
}
