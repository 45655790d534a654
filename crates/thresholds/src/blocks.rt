// The blocks of bounds: the walk that fills those of the lower bounds, those of the upper bounds, and the answer for each threshold.
ghost use Rattle.std.specs.Prelude.{◌≡◌, map, ◌*◌, ◌≤◌, ◌<◌, ltb, length, replicate};
ghost use Rattle.std.proofs.lemmas.List.Edits.{sets};
ghost use Rattle.sets.specs.Sets.{digit};
ghost use Rattle.plan.specs.LentLists.{plan_refusal, plan_of_lists};
ghost use Rattle.plan.specs.Held.{Held};
ghost use Rattle.network.specs.Outage.{intact};
ghost use Rattle.pairs.specs.Pairs.{pair_count};
ghost use Rattle.bounds.specs.Bounds.{lower_list, upper_list};
ghost use Rattle.thresholds_sums.specs.Walked.{plan_with, plans_of};
ghost use Rattle.thresholds.specs.Thresholds.{thresholds_test, blocks, answer_of, EnclosesBlocks};
ghost use Rattle.thresholds.specs.Steps.{BlocksWalked, Raising, Raised};

use crate::Answered;
use pairs::{copy_raised, pair_count};
use plan::Header;
use thresholds_sums::{PlaceNumbers, walk_thresholds};

// The walk of an accepted plan for the thresholds of a list. The places and the blocks of `lower` take what it gives.
fn walk_blocks(
    h: Header,
    links: &[u8; 256],
    words: &[u64; 512],
    list: &[u64],
    places: &mut PlaceNumbers,
    lower: &mut [u64],
)
    requires held { Held h links.now words.now }
    requires cap_bound { (h.cap < 4294967296) × (thresholds_test list.now ≡ 0) }
    requires rooms_value { (places.old.rooms ≡ replicate 16 0)
        × ((places.old.counts ≡ replicate 16 0) × (places.old.masses ≡ replicate 16 0)) }
    requires list_in_bounds { pair_count h.nodes * length list.now ≤ length lower.old }
    ensures { BlocksWalked (plans_of h links.now words.now list.now)
        places.new lower.old lower.new }
{
    let count = list.len();
    let n = h.nodes as usize;
    let mut falling = [0u64; 16];
    plan_lists::copy_first(list, &mut falling, 0, count);
    // Zeros, raised by one more than the cap where there is a threshold.
    copy_raised(&places.masses, &mut places.rooms, 0, count, h.cap + 1);
    pairs::clear(&mut *lower, pair_count(n) * count);
    walk_thresholds(h, links, words, &falling, count, places, lower);
}

// The complete flags of 16 places: 1 where room is left, else 0.
fn completes(rooms: [u64; 16]) -> [u64; 16]
    ensures { result ≡ map (λ room. digit (ltb 0 room)) rooms }
{
    rooms.map(|room| u64::from(0 < room))
}

// Lays the blocks of upper bounds down: those of the lower bounds, with what each threshold did not examine added.
fn raise_blocks(pairs: usize, count: usize, masses: &[u64; 16], lower: &[u64], upper: &mut [u64])
    requires { Raising pairs count masses.now lower.now upper.old }
    ensures { Raised pairs count masses.now lower.now upper.old upper.new }
{
    // The first i blocks are laid down, and all else is untouched.
    for i in 0..count {
        copy_raised(
            lower,
            &mut *upper,
            pairs * i,
            pairs,
            mass::Mass::WHOLE.units - masses[i],
        );
    }
}

// The walk of an accepted plan: fills the blocks of the two lists, and answers for each threshold.
pub fn fill_blocks(
    h: Header,
    links: &[u8; 256],
    words: &[u64; 512],
    list: &[u64],
    lower: &mut [u64],
    upper: &mut [u64],
) -> Answered
    requires held { Held h links.now words.now × (plan_refusal (plan_of_lists h links.now words.now) ≡ 0) }
    requires cap_bound { (h.cap < 4294967296) × (thresholds_test list.now ≡ 0) }
    requires list_in_bounds { (pair_count h.nodes * length list.now ≤ length lower.old)
        × (pair_count h.nodes * length list.now ≤ length upper.old) }
    ensures answer { result ≡ answer_of (plan_with h links.now words.now) list.now }
    ensures lowers { lower.new ≡ sets lower.old 0
        (blocks (λ t. lower_list intact (plan_with h links.now words.now t)) list.now) }
    ensures uppers { upper.new ≡ sets upper.old 0
        (blocks (λ t. upper_list intact (plan_with h links.now words.now t)) list.now) }
    ensures demand3 { EnclosesBlocks (plan_with h links.now words.now) list.now
        lower.new upper.new result.count }
{
    let mut places = PlaceNumbers {
        rooms: [0; 16],
        counts: [0; 16],
        masses: [0; 16],
    };
    walk_blocks(h, links, words, list, &mut places, &mut *lower);
    let n = h.nodes as usize;
    raise_blocks(pair_count(n), list.len(), &places.masses, lower, upper);
    Answered {
        count: places.counts,
        complete: completes(places.rooms),
        mass: places.masses,
    }
}
