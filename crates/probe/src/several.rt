// Several thresholds in one walk, for the tests in Rust and `planner`.
ghost use Rattle.std.specs.Prelude.{◌≡◌, length};
ghost use Rattle.plan.specs.Calls.{filled};
ghost use Rattle.network.specs.Outage.{intact};
ghost use Rattle.bounds.specs.Bounds.{lower_list, upper_list};
ghost use Rattle.thresholds.specs.Thresholds.{lent_at, plan_at, thresholds_number, thresholds_answer, blocks};
ghost use Rattle.host_answers.specs.Laid.{laid};
ghost use Rattle.host_thresholds.specs.ThresholdAnswers.{common_with, places_values};

use thresholds::CommonHeader;

#[unsafe(no_mangle)]
pub extern "C" fn probe_thresholds(
    nodes: u64,
    links_count: u64,
    events_count: u64,
    cap: u64,
    links: &[u8],
    events: &[u64],
    thresholds: &[u64],
    lower: &mut [u64],
    upper: &mut [u64],
    res: &mut [u64],
) -> u32
    ensures number { result ≡ thresholds_number
        (lent_at (common_with nodes links_count events_count cap) links.now events.now 1)
        thresholds.now (length lower.old) (length upper.old) }
    ensures lowers { lower.new ≡ filled result (blocks
        (λ t. lower_list intact (plan_at (common_with nodes links_count events_count cap) links.now events.now t))
        thresholds.now) lower.old }
    ensures uppers { upper.new ≡ filled result (blocks
        (λ t. upper_list intact (plan_at (common_with nodes links_count events_count cap) links.now events.now t))
        thresholds.now) upper.old }
    ensures res { res.new ≡ laid (places_values (thresholds_answer result
        (plan_at (common_with nodes links_count events_count cap) links.now events.now) thresholds.now))
        res.old }
{
    let h = CommonHeader {
        nodes,
        links: links_count,
        events: events_count,
        cap,
    };
    host_thresholds::thresholds(h, links, events, thresholds, lower, upper, res)
}
