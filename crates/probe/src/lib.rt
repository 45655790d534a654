// Exports for the tests in Rust, the benchmark and the text tool `planner`, not part of the product. Each returns the number of the
// refusal, or 0; where it refuses, every number that it hands out is 0. A list of numbers that is handed out is used only where it has
// room.
// Assumes nothing.
#![tactic(auto)]

mod by_records;
mod equipment;
mod further;
mod list;
mod reach;
mod several;
mod walks;
mod work;

ghost use Rattle.std.specs.Prelude.{◌≡◌, ◌/◌, length};
ghost use Rattle.plan.specs.File.{refusal, plan_of};
ghost use Rattle.plan.specs.Layout.{layout};
ghost use Rattle.plan.specs.Lists.{link_bytes, event_words};
ghost use Rattle.plan.specs.LentLists.{plan_of_lists, in_words};
ghost use Rattle.plan.specs.Calls.{filled, header_of, read_number, write_number};
ghost use Rattle.network.specs.Outage.{intact};
ghost use Rattle.bounds.specs.Bounds.{lower_list, upper_list};
ghost use Rattle.bounds.specs.Calls.{totals_of, run_number, bounds_of, pair_number};
ghost use Rattle.host_answers.specs.Laid.{laid, values_or_zeros};
ghost use Rattle.host_answers.specs.Answers.{header_with, header_values, size_values, totals_values, bounds_values};

use plan::Header;

#[unsafe(no_mangle)]
pub extern "C" fn probe_check(plan: &[u8]) -> u32
    ensures { result ≡ refusal plan.now }
{
    host_runs::check(plan)
}

#[unsafe(no_mangle)]
pub extern "C" fn probe_read(
    plan: &[u8],
    numbers: &mut [u64],
    links: &mut [u8],
    events: &mut [u64],
) -> u32
    ensures number { result ≡ read_number
        (length links.old) (length events.old / 4) plan.now }
    ensures numbers { numbers.new ≡ laid
        (values_or_zeros 5 result (header_values (header_of plan.now))) numbers.old }
    ensures links { links.new ≡ filled result (link_bytes (plan_of plan.now).links) links.old }
    ensures events { events.new ≡ filled result (event_words (plan_of plan.now).events) events.old }
{
    host_answers::give_header(plan_reading::read(plan, links, events), numbers)
}

fn header(nodes: u64, links: u64, events: u64, threshold: u64, cap: u64) -> Header
    ensures { result ≡ header_with nodes links events threshold cap }
{
    Header {
        nodes,
        links,
        events,
        threshold,
        cap,
    }
}

#[unsafe(no_mangle)]
pub extern "C" fn probe_write(
    nodes: u64,
    links_count: u64,
    events_count: u64,
    threshold: u64,
    cap: u64,
    links: &[u8],
    events: &[u64],
    out: &mut [u8],
    size: &mut [u64],
) -> u32
    ensures number { result ≡ write_number (in_words (header_with nodes links_count events_count threshold cap)
        links.now events.now) (length out.old) }
    ensures out { out.new ≡ filled result (layout
        (plan_of_lists (header_with nodes links_count events_count threshold cap) links.now events.now))
        out.old }
    ensures size { size.new ≡ laid (values_or_zeros 1 result (size_values (length (layout
        (plan_of_lists (header_with nodes links_count events_count threshold cap) links.now events.now)))))
        size.old }
{
    let h = header(nodes, links_count, events_count, threshold, cap);
    host_answers::give_size(plan_writing::write(h, links, events, out), size)
}

#[unsafe(no_mangle)]
pub extern "C" fn probe_run(
    nodes: u64,
    links_count: u64,
    events_count: u64,
    threshold: u64,
    cap: u64,
    links: &[u8],
    events: &[u64],
    lower: &mut [u64],
    upper: &mut [u64],
    res: &mut [u64],
) -> u32
    ensures number { result ≡ run_number (in_words (header_with nodes links_count events_count threshold cap)
        links.now events.now) (length lower.old) (length upper.old) }
    ensures lowers { lower.new ≡ filled result (lower_list intact
        (plan_of_lists (header_with nodes links_count events_count threshold cap) links.now events.now))
        lower.old }
    ensures uppers { upper.new ≡ filled result (upper_list intact
        (plan_of_lists (header_with nodes links_count events_count threshold cap) links.now events.now))
        upper.old }
    ensures res { res.new ≡ laid (values_or_zeros 3 result (totals_values (totals_of
        (plan_of_lists (header_with nodes links_count events_count threshold cap) links.now events.now))))
        res.old }
{
    let h = header(nodes, links_count, events_count, threshold, cap);
    host_answers::give_totals(bounds::run(h, links, events, lower, upper), res)
}

#[unsafe(no_mangle)]
pub extern "C" fn probe_pair(
    nodes: u64,
    links_count: u64,
    events_count: u64,
    threshold: u64,
    cap: u64,
    links: &[u8],
    events: &[u64],
    v: u64,
    w: u64,
    res: &mut [u64],
) -> u32
    ensures number { result ≡ pair_number (in_words (header_with nodes links_count events_count threshold cap)
        links.now events.now) v w }
    ensures res { res.new ≡ laid (values_or_zeros 2 result (bounds_values (bounds_of intact
        (plan_of_lists (header_with nodes links_count events_count threshold cap) links.now events.now) v w)))
        res.old }
{
    let h = header(nodes, links_count, events_count, threshold, cap);
    host_runs::pair(h, links, events, v, w, res)
}
