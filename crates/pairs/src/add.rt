// Adding a scenario's mass to the entries of the pairs that its topology disconnects. Only those pairs are visited. The entries of the
// pairs stand in order in a lent list, from a base on.
ghost use Rattle.pairs.specs.Adding.{AddingRow, AddedRow, AddingRows, AddedRows, AddingCut, AddedCut};

use crate::places::start_of;

// Adds to the entry start + (w - skip) for each element w of a set.
fn add_row(lower: &mut [u64], start: usize, skip: usize, set: u64, mass: u64)
    requires { AddingRow start skip set mass lower.old }
    ensures { AddedRow start skip set mass lower.old lower.new }
{
    // With the mass added for the elements still to come, the entries are as with it added for the whole set.
    for w in sets::elements(set) {
        lower[start + w - skip] += mass;
    }
}

// Adds to the entries, from the base on, of the pairs of each node of a set, of n nodes, with the nodes after it of another set. Where no
// node comes after one, none comes after those that are left.
fn add_rows(lower: &mut [u64], base: usize, n: usize, set: u64, others: u64, mass: u64)
    requires { AddingRows base n set others mass lower.old }
    ensures { AddedRows base n set others mass lower.old lower.new }
{
    // With the mass added for the pairs of the nodes still to come, the entries are as with it added for the whole set.
    for v in sets::elements(set) {
        let later = sets::less(others, sets::all_below(v + 1));
        if later == 0 {
            return;
        }
        add_row(&mut *lower, start_of(n, v) + base, v + 1, later, mass);
    }
}

// Adds to the entries, from the base on, of all pairs of n nodes that the rows of neighbours do not join: one component after another, then
// the nodes that do not work. Where one component has all nodes there is nothing to add.
pub fn add_cut(lower: &mut [u64], base: usize, n: usize, rows: [u64; 64], nodes: u64, mass: u64)
    requires { AddingCut base n nodes mass rows lower.old }
    ensures { AddedCut base n nodes mass rows lower.old lower.new }
{
    let all = sets::all_below(n);
    let mut left = nodes;
    // The pairs whose first node works and is not in `left` are done, all others are untouched, and no path leads out of `left`.
    // Each turn takes out of `left` a whole part, not one element: no `for` over elements. The part has its lowest element, so `left` falls
    // as a number.
    while left != 0 {
        let part = topology::reach_by_rows(rows, nodes, sets::lowest(left)).set;
        let others = sets::less(all, part);
        if others == 0 {
            return;
        }
        add_rows(&mut *lower, base, n, part, others, mass);
        left = sets::less(left, part);
    }
    add_rows(&mut *lower, base, n, sets::less(all, nodes), all, mass);
}
