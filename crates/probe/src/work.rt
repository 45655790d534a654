// The run with windows of planned work, for the tests in Rust and `planner`.
ghost use Rattle.std.specs.Prelude.{◌≡◌, length};
ghost use Rattle.plan.specs.LentLists.{plan_of_lists, in_words};
ghost use Rattle.plan.specs.Calls.{filled};
ghost use Rattle.windows.specs.Windows.{taken_out};
ghost use Rattle.bounds.specs.Bounds.{lower_list, upper_list};
ghost use Rattle.bounds.specs.Calls.{totals_of, run_at_number};
ghost use Rattle.host_answers.specs.Laid.{laid, values_or_zeros};
ghost use Rattle.host_answers.specs.Answers.{header_with, totals_values};

use crate::header;

#[unsafe(no_mangle)]
pub extern "C" fn probe_run_at(
    nodes: u64,
    links_count: u64,
    events_count: u64,
    threshold: u64,
    cap: u64,
    links: &[u8],
    events: &[u64],
    windows: &[u64],
    minute: u64,
    lower: &mut [u64],
    upper: &mut [u64],
    res: &mut [u64],
) -> u32
    ensures number { result ≡ run_at_number (in_words (header_with nodes links_count events_count threshold cap)
        links.now events.now)
        (length lower.old) (length upper.old) windows.now minute }
    ensures lowers { lower.new ≡ filled result (lower_list (taken_out windows.now minute)
        (plan_of_lists (header_with nodes links_count events_count threshold cap) links.now events.now))
        lower.old }
    ensures uppers { upper.new ≡ filled result (upper_list (taken_out windows.now minute)
        (plan_of_lists (header_with nodes links_count events_count threshold cap) links.now events.now))
        upper.old }
    ensures res { res.new ≡ laid (values_or_zeros 3 result (totals_values (totals_of
        (plan_of_lists (header_with nodes links_count events_count threshold cap) links.now events.now))))
        res.old }
{
    let h = header(nodes, links_count, events_count, threshold, cap);
    host_runs::run_at(h, links, events, windows, minute, lower, upper, res)
}
