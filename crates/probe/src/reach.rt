// What a node reaches, and in how many rounds, for the tests in Rust.
ghost use Rattle.std.specs.Prelude.{◌≡◌};
ghost use Rattle.host_answers.specs.Laid.{laid, values_or_zeros};
ghost use Rattle.host_reach.specs.NodeReach.{reach_number, reach_in, reach_values};

#[unsafe(no_mangle)]
pub extern "C" fn probe_reach(
    nodes: u64,
    links_count: u64,
    links: &[u8],
    failed_nodes: u64,
    failed_low: u64,
    failed_high: u64,
    v: u64,
    res: &mut [u64],
) -> u32
    ensures number { result ≡ reach_number nodes links_count links.now v }
    ensures res { res.new ≡ laid (values_or_zeros 2 result (reach_values (reach_in nodes links_count links.now
        (record { nodes = failed_nodes; low = failed_low; high = failed_high }) v))) res.old }
{
    host_reach::reach(
        nodes,
        links_count,
        links,
        failed_nodes,
        failed_low,
        failed_high,
        v,
        res,
    )
}
