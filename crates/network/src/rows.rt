// The neighbours of each node by the working links of a scenario.
ghost use Rattle.std.specs.Prelude.{◌≡◌, true, ◌||◌, ℕ, ◌+◌, ◌<◌, length, get_or};
ghost use Rattle.sets.specs.Sets.{bit};
ghost use Rattle.network.specs.Topology.{has_ends, adjacent};
ghost use Rattle.network.specs.Code.{network_in};
ghost use Rattle.plan.specs.Held.{LinksHeld};
ghost use Rattle.network.specs.Table.{ends_of, joined_by, LinksAt};

use crate::Failed;
use crate::working::{ends, working_links};

// Puts a and b into each other's rows.
fn join(rows: &mut [u64; 64], a: usize, b: usize)
    requires rows_len { length rows.old ≡ 64 }
    requires a_bound { (a < 64) × (b < 64) }
    ensures size { length rows.new ≡ 64 }
    ensures rows { (v w : ℕ) →
        bit (get_or rows.new v 0) w ≡ (bit (get_or rows.old v 0) w || has_ends (ends_of a b) v w) }
{
    rows[a] = sets::union(rows[a], sets::only(1, b));
    rows[b] = sets::union(rows[b], sets::only(1, a));
}

// Puts the links base + i, for each element i of one word, into the rows.
fn put_in(rows: &mut [u64; 64], n: usize, links: &[u8; 256], count: usize, base: usize, set: u64)
    requires rows_len { length rows.old ≡ 64 }
    requires links_held { LinksHeld n links.now count }
    requires by_index { (i : ℕ) → bit set i ≡ true → base + i < count }
    ensures size { length rows.new ≡ 64 }
    ensures rows { (v w : ℕ) →
        bit (get_or rows.new v 0) w ≡ (bit (get_or rows.old v 0) w || joined_by links.now base set v w) }
{
    // With the links of the elements still to come put in, the rows are as with all links of the set. Those elements are of the set.
    for i in sets::elements(set) {
        let (low, high) = ends(n, links, count, base + i);
        join(&mut *rows, low, high);
    }
}

// The neighbours of each node by the working links: row v has w where a working link joins v and w.
pub fn neighbours(
    n: usize,
    links: &[u8; 256],
    count: usize,
    table: &[u64; 128],
    failed: Failed,
) -> [u64; 64]
    requires links_held { LinksHeld n links.now count }
    requires links_at { LinksAt links.now count table.now }
    ensures { (v w : ℕ) → bit (get_or result v 0) w ≡ adjacent (network_in n failed links.now count) v w }
{
    let up = working_links(failed, count, table);
    let mut rows = [0u64; 64];
    put_in(&mut rows, n, links, count, 0, up.low);
    put_in(&mut rows, n, links, count, 64, up.high);
    rows
}
