// The table of each node's links, made once for a network.
ghost use Rattle.std.specs.Prelude.{◌≡◌, ◌&&◌, ◌||◌, ℕ, ◌<◌, eqb, length};
ghost use Rattle.plan.specs.Held.{LinksHeld};
ghost use Rattle.network.specs.Table.{table_has, LinksAt};

use crate::working::ends;

// Puts link i into the table at node v.
fn put_at(table: &mut [u64; 128], v: usize, i: usize)
    requires table_len { length table.old ≡ 128 }
    requires v_bound { (v < 64) × (i < 128) }
    ensures size { length table.new ≡ 128 }
    ensures put { (u j : ℕ) → u < 64 → j < 128 →
        table_has table.new u j ≡ (table_has table.old u j || (eqb v u && eqb j i)) }
{
    let k = 2 * v + i / 64;
    table[k] = sets::union(table[k], sets::only(1, i % 64));
}

// The table of the links: each is put at its two ends.
pub fn links_at(n: usize, links: &[u8; 256], count: usize) -> [u64; 128]
    requires { LinksHeld n links.now count }
    ensures { LinksAt links.now count result }
{
    let mut table = [0u64; 128];
    // The table has the first i links, each at its two ends, and no others.
    for i in 0..count {
        let (low, high) = ends(n, links, count, i);
        put_at(&mut table, low, i);
        put_at(&mut table, high, i);
    }
    table
}
