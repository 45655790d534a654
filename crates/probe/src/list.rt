// The topology list, for the tests in Rust.
ghost use Rattle.std.specs.Prelude.{◌≡◌, ◌/◌, length};
ghost use Rattle.plan.specs.LentLists.{in_words};
ghost use Rattle.topology_list.specs.Calls.{topology_list_in, topologies_number, list_after};
ghost use Rattle.host_answers.specs.Laid.{laid, values_or_zeros};
ghost use Rattle.host_answers.specs.Answers.{header_with};
ghost use Rattle.host_readings.specs.FurtherAnswers.{entries_values};
ghost use Rattle.network.specs.Outage.{intact};

use crate::header;

#[unsafe(no_mangle)]
pub extern "C" fn probe_topologies(
    nodes: u64,
    links_count: u64,
    events_count: u64,
    threshold: u64,
    cap: u64,
    links: &[u8],
    events: &[u64],
    list: &mut [u64],
    res: &mut [u64],
) -> u32
    ensures number { result ≡ topologies_number intact (in_words (header_with nodes links_count events_count threshold cap)
        links.now events.now) list.old }
    ensures list { list.new ≡ list_after intact (in_words (header_with nodes links_count events_count threshold cap)
        links.now events.now) list.old }
    ensures res { res.new ≡ laid (values_or_zeros 1 result (entries_values (length (topology_list_in intact
        (in_words (header_with nodes links_count events_count threshold cap) links.now events.now)
        list.old).entries))) res.old }
{
    let h = header(nodes, links_count, events_count, threshold, cap);
    host_readings::give_entries(topology_list::topologies(h, links, events, list), res)
}
