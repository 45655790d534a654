// A walk in lent words: begun, gone on with and looked at, for the tests in Rust, the benchmark and `planner`.
ghost use Rattle.std.specs.Prelude.{◌≡◌, ◌≤◌, ◌<◌, length};
ghost use Rattle.plan.specs.LentLists.{plan_of_lists, in_words};
ghost use Rattle.plan.specs.Calls.{filled};
ghost use Rattle.network.specs.Outage.{intact};
ghost use Rattle.panel.specs.Walks.{WalkAt, root_walk};
ghost use Rattle.panel.specs.Calls.{look_of, look_pair_of};
ghost use Rattle.walk_words.specs.WalkWords.{walk_length, walk_words, walk_of};
ghost use Rattle.host_answers.specs.Laid.{laid, values_or_zeros};
ghost use Rattle.host_answers.specs.Answers.{header_with, totals_values, bounds_values};
ghost use Rattle.host_panel.specs.WordCalls.{begin_number, ShortState, WordsWent, look_number, look_pair_number};

use crate::header;

#[unsafe(no_mangle)]
pub extern "C" fn probe_walk_words() -> u64
    ensures { result ≡ walk_length }
{
    walk_words::walk_words()
}

#[unsafe(no_mangle)]
pub extern "C" fn probe_begin(
    nodes: u64,
    links_count: u64,
    events_count: u64,
    threshold: u64,
    cap: u64,
    links: &[u8],
    events: &[u64],
    state: &mut [u64],
) -> u32
    ensures number { result ≡ begin_number (in_words (header_with nodes links_count events_count threshold cap)
        links.now events.now) (length state.old) }
    ensures state { state.new ≡ filled result (walk_words (root_walk
        (header_with nodes links_count events_count threshold cap) links.now events.now))
        state.old }
    ensures begun { result ≡ 0 → WalkAt intact (plan_of_lists
        (header_with nodes links_count events_count threshold cap) links.now events.now) 0
        (walk_of state.new) }
{
    let h = header(nodes, links_count, events_count, threshold, cap);
    host_panel::begin(h, links, events, state)
}

#[unsafe(no_mangle)]
pub extern "C" fn probe_go_on(
    state: &mut [u64],
    quota: &mut [u64],
    k: u64,
    reached: &mut [u64],
) -> u32
    ensures short { length state.old < walk_length → ShortState state.old quota.old
        reached.old result state.new quota.new reached.new }
    ensures went { walk_length ≤ length state.old → WordsWent state.old quota.old k
        reached.old result state.new quota.new reached.new }
{
    host_panel::go_on(state, quota, k, reached)
}

#[unsafe(no_mangle)]
pub extern "C" fn probe_look(state: &[u64], res: &mut [u64]) -> u32
    ensures number { result ≡ look_number state.now }
    ensures res { res.new ≡ laid
        (values_or_zeros 3 result (totals_values (look_of (walk_of state.now)))) res.old }
{
    host_panel::look(state, res)
}

#[unsafe(no_mangle)]
pub extern "C" fn probe_look_pair(state: &[u64], v: u64, w: u64, res: &mut [u64]) -> u32
    ensures number { result ≡ look_pair_number state.now v w }
    ensures res { res.new ≡ laid
        (values_or_zeros 2 result (bounds_values (look_pair_of (walk_of state.now) v w))) res.old }
{
    host_panel::look_pair(state, v, w, res)
}
