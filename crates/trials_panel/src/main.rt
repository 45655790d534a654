// The test program of walks in steps: document 02, request U4: lists of calls and every split of a walk, the quota (`quotas`, `turns`), and
// damaged walks (`states`, `looks`), of which the walk is that of the plan of `trials_panel_vectors` at cap 100 after 5 ends: count 4, E 507
// thousandths. Each expected value stands beside its vector or in the table of the plan of `trials_panel_vectors`, worked out by hand; a difference
// is printed, and `trials ended` is the last line. The stored output is that line alone.
#![tactic(auto)]

mod lists;
mod looks;
mod quotas;
mod splits;
mod states;
mod turns;

use std::io;

fn main(rt: HostRuntime) -> io::Result<()> {
    lists::lists(&rt)?;
    splits::all_splits(&rt)?;
    quotas::power_up(&rt)?;
    quotas::dry(&rt)?;
    quotas::enough(&rt)?;
    quotas::empty(&rt)?;
    quotas::smallest(&rt)?;
    turns::turns(&rt)?;
    turns::ended_between(&rt)?;
    states::right(&rt)?;
    states::counts(&rt)?;
    states::header_numbers(&rt)?;
    states::places(&rt)?;
    states::tallies(&rt)?;
    states::masses(&rt)?;
    looks::own_sum(&rt)?;
    looks::other_sums(&rt)?;
    looks::first_pair(&rt)?;
    looks::masses(&rt)?;
    looks::many_nodes(&rt)?;
    looks::most_nodes(&rt)?;
    looks::nodes_of_a_plan(&rt)?;
    looks::other_fields(&rt)?;
    println!(rt; "trials ended")
}
