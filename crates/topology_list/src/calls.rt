// The topology list of a plan in lent lists.
ghost use Rattle.std.specs.Prelude.{◌≡◌, length, IfOk};
ghost use Rattle.mass.specs.Refusal.{number_in};
ghost use Rattle.plan.specs.LentLists.{in_words};
ghost use Rattle.topology_list.specs.Calls.{topology_list_in, topologies_number, list_after};
ghost use Rattle.network.specs.Outage.{intact};

use crate::ends::list_all;
use mass::Refusal;
use plan::Header;

// The topology list of a plan: fills the list with the entries, four words each, and answers how many there are.
pub fn topologies(
    h: Header,
    links: &[u8],
    events: &[u64],
    list: &mut [u64],
) -> Result<usize, Refusal>
    ensures number { number_in result ≡ topologies_number intact (in_words h links.now events.now) list.old }
    ensures count { IfOk result (λ n. n ≡ length (topology_list_in intact (in_words h links.now events.now) list.old).entries) }
    ensures list { list.new ≡ list_after intact (in_words h links.now events.now) list.old }
{
    let mut bytes = [0u8; 256];
    let mut words = [0u64; 512];
    plan_lists::accept(h, links, events, &mut bytes, &mut words)?;
    list_all(h, &bytes, &words, list)
}
