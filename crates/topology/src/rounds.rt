// Reach by rounds over the rows of neighbours.
ghost use Rattle.std.specs.Prelude.{◌≡◌, true, ◌↔◌, ℕ, ◌<◌};
ghost use Rattle.sets.specs.Sets.{bit};
ghost use Rattle.topology.specs.RowPaths.{InRows, Reached, reach_by_rows};

use crate::Reach;

// The union of the rows of a set.
pub fn rows_of(rows: &[u64; 64], set: u64) -> u64
    ensures { (w : ℕ) → (bit result w ≡ true) ↔ InRows rows.now set w }
{
    let mut all = 0;
    // `all` has only elements of the set's rows, and has each of them that is not in a row still to come.
    for v in sets::elements(set) {
        all = sets::union(all, rows[v]);
    }
    all
}

// What node v reaches, by rounds, up to the first one that adds no node. A round reads the rows of the fresh nodes only: those that the
// round before has added. A node that does not work reaches nothing, in one round.
pub fn reach(rows: [u64; 64], nodes: u64, v: usize) -> Reach
    requires { v < 64 }
    ensures paths { Reached nodes rows v result.set }
    ensures rounds { result ≡ reach_by_rows nodes rows v }
{
    let mut seen = sets::both(nodes, sets::only(1, v));
    let mut fresh = sets::less(rows_of(&rows, seen), seen);
    let mut rounds = 1;
    // `fresh` is what round `rounds` adds, and `seen` the set before it. Each round before it has added a node, so there are fewer of those
    // than nodes; each turn raises `rounds`.
    while fresh != 0 {
        seen = sets::union(seen, fresh);
        fresh = sets::less(rows_of(&rows, fresh), seen);
        rounds += 1;
    }
    Reach { set: seen, rounds }
}
