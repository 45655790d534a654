// The calls on a walk in lent words, for the exports of crate `probe`, not part of the product: document 02, request U4. Each returns the
// number of the refusal, or 0.
// Assumes nothing.
#![tactic(auto)]

ghost use Rattle.std.specs.Prelude.{◌≡◌, ◌≤◌, ◌<◌, length, get_or, IfOk};
ghost use Rattle.mass.specs.Refusal.{number_in};
ghost use Rattle.plan.specs.LentLists.{plan_of_lists, in_words};
ghost use Rattle.plan.specs.Calls.{filled};
ghost use Rattle.network.specs.Outage.{intact};
ghost use Rattle.panel.specs.Walks.{WalkAt, root_walk};
ghost use Rattle.panel.specs.Calls.{look_of, look_pair_of};
ghost use Rattle.walk_words.specs.WalkWords.{walk_length, walk_words, walk_of};
ghost use Rattle.host_answers.specs.Laid.{laid, values_or_zeros};
ghost use Rattle.host_answers.specs.Answers.{totals_values, bounds_values};
ghost use Rattle.host_panel.specs.WordCalls.{begin_number, moved_words, ShortState, WordsWent, look_number, look_pair_number};

use bounds::{PairBounds, Totals};
use host_answers::{give_pair, give_totals, put};
use mass::{Refusal, number_in};
use panel::Quota;
use plan::Header;
use refusals::room_test;
use walk_state::Walk;
use walk_words::{WORDS, lay, pack, walk_of};

// Begins the walk of a plan in lent lists, and lays it down in the state. Refused as the lists are, then with 12 where the state is too
// short for a walk.
#[tactic(auto, using(mass::proofs::RefusalLaws::refuses), unfolding(crate::specs::WordCalls::begin_number))]
pub fn begin(h: Header, links: &[u8], events: &[u64], state: &mut [u64]) -> u32
    ensures number { result ≡ begin_number (in_words h links.now events.now) (length state.old) }
    ensures state { state.new ≡ filled result (walk_words
        (root_walk h links.now events.now)) state.old }
    ensures begun { result ≡ 0
        → WalkAt intact (plan_of_lists h links.now events.now) 0 (walk_of state.new) }
{
    match panel::begin(h, links, events) {
        Ok(walk) => number_in(&pack(walk, state)),
        Err(refused) => u32::from(refused),
    }
}

// The first word of a list: 0 where it is empty.
fn first_word(list: &[u64]) -> u64
    ensures { result ≡ get_or list.now 0 0 }
{
    if list.len() == 0 {
        return 0;
    }
    list[0]
}

// Lays a walk down where it has moved.
fn keep(reached: u64, walk: Walk, state: &mut [u64])
    requires { walk_length ≤ length state.old }
    ensures state { state.new ≡ moved_words reached walk state.old }
    ensures again { (reached ≡ 0 → walk_of state.old ≡ walk) → walk_of state.new ≡ walk }
{
    if reached != 0 {
        lay(walk, state);
    }
}

// Goes on with the walk in the state for at most k ends, drawing on the quota in its list, and hands out how many ends it reached. Refused
// with 12, before everything else, where the state is too short for a walk.
pub fn go_on(state: &mut [u64], quota: &mut [u64], k: u64, reached: &mut [u64]) -> u32
    ensures short { length state.old < walk_length → ShortState state.old quota.old
        reached.old result state.new quota.new reached.new }
    ensures went { walk_length ≤ length state.old → WordsWent state.old quota.old k
        reached.old result state.new quota.new reached.new }
{
    if let Err(refused) = room_test(state.len(), WORDS) {
        put(reached, 0, 0);
        return u32::from(refused);
    }
    let mut walk = walk_of(state);
    let before = first_word(quota);
    let mut rest = Quota { left: before };
    let answer = panel::go_on(&mut walk, &mut rest, k);
    let ends = answer.unwrap_or(0);
    keep(ends, walk, state);
    put(quota, 0, rest.left);
    put(reached, 0, ends);
    number_in(&answer)
}

// What a look at the walk in the state shows. Refused with 12 where the state is too short for a walk.
fn looked(state: &[u64]) -> Result<Totals, Refusal>
    ensures number { number_in result ≡ look_number state.now }
    ensures totals { IfOk result (λ t. t ≡ look_of (walk_of state.now)) }
{
    room_test(state.len(), WORDS)?;
    Ok(panel::look(walk_of(state)))
}

// Count, complete and E of the walk in the state. Refused with 12 where the state is too short for a walk.
pub fn look(state: &[u64], res: &mut [u64]) -> u32
    ensures number { result ≡ look_number state.now }
    ensures res { res.new ≡ laid
        (values_or_zeros 3 result (totals_values (look_of (walk_of state.now)))) res.old }
{
    give_totals(looked(state), res)
}

// What a look at a pair of the walk in the state shows. Refused with 12 where the state is too short for a walk, then with 13.
#[tactic(auto, using(mass::proofs::RefusalLaws::refuses), unfolding(crate::specs::WordCalls::look_pair_number))]
fn pair_looked(state: &[u64], v: u64, w: u64) -> Result<PairBounds, Refusal>
    ensures number { number_in result ≡ look_pair_number state.now v w }
    ensures bounds { IfOk result (λ b. b ≡ look_pair_of (walk_of state.now) v w) }
{
    room_test(state.len(), WORDS)?;
    panel::look_pair(walk_of(state), v, w)
}

// The bounds of a pair of the walk in the state. Refused with 12 where the state is too short for a walk, then with 13.
pub fn look_pair(state: &[u64], v: u64, w: u64, res: &mut [u64]) -> u32
    ensures number { result ≡ look_pair_number state.now v w }
    ensures res { res.new ≡ laid
        (values_or_zeros 2 result (bounds_values (look_pair_of (walk_of state.now) v w))) res.old }
{
    give_pair(pair_looked(state, v, w), res)
}
