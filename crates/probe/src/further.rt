// Exports of the further readings. A figure is handed out as 1 and the bits of its two floats.
ghost use Rattle.std.specs.Prelude.{◌≡◌};
ghost use Rattle.plan.specs.LentLists.{plan_of_lists, in_words};
ghost use Rattle.network.specs.Outage.{intact};
ghost use Rattle.bounds.specs.Calls.{pair_number};
ghost use Rattle.readings.specs.Figure.{figure_of};
ghost use Rattle.readings.specs.Witness.{witness_number, witness_of};
ghost use Rattle.readings.specs.Downtime.{downtime_refusal, seconds_of};
ghost use Rattle.credits.specs.Credit.{credit_number, credit_of};
ghost use Rattle.host_answers.specs.Laid.{laid, values_or_zeros};
ghost use Rattle.host_answers.specs.Answers.{header_with};
ghost use Rattle.host_readings.specs.FurtherAnswers.{figure_values, seconds_values, failing_values};
ghost use Rattle.host_readings.specs.CreditAnswers.{credits_values};

use crate::header;

#[unsafe(no_mangle)]
pub extern "C" fn probe_figure(
    nodes: u64,
    links_count: u64,
    events_count: u64,
    threshold: u64,
    cap: u64,
    links: &[u8],
    events: &[u64],
    v: u64,
    w: u64,
    bits: &mut [u64],
) -> u32
    ensures number { result ≡ pair_number (in_words (header_with nodes links_count events_count threshold cap)
        links.now events.now) v w }
    ensures bits { bits.new ≡ laid (values_or_zeros 3 result (figure_values (figure_of intact
        (plan_of_lists (header_with nodes links_count events_count threshold cap) links.now events.now) v w)))
        bits.old }
{
    let h = header(nodes, links_count, events_count, threshold, cap);
    host_readings::give_figure(readings::figure(h, links, events, v, w), bits)
}

#[unsafe(no_mangle)]
pub extern "C" fn probe_witness(
    nodes: u64,
    links_count: u64,
    events_count: u64,
    threshold: u64,
    cap: u64,
    links: &[u8],
    events: &[u64],
    v: u64,
    w: u64,
    res: &mut [u64],
) -> u32
    ensures number { result ≡ witness_number intact (in_words (header_with nodes links_count events_count threshold cap)
        links.now events.now) v w }
    ensures res { res.new ≡ laid (values_or_zeros 2 result (failing_values (witness_of intact
        (plan_of_lists (header_with nodes links_count events_count threshold cap) links.now events.now) v w)))
        res.old }
{
    let h = header(nodes, links_count, events_count, threshold, cap);
    host_readings::give_failing(readings::witness(h, links, events, v, w), res)
}

#[unsafe(no_mangle)]
pub extern "C" fn probe_downtime(lower: u64, upper: u64, res: &mut [u64]) -> u32
    ensures number { result ≡ downtime_refusal lower upper }
    ensures res { res.new ≡ laid
        (values_or_zeros 2 result (seconds_values (seconds_of lower upper))) res.old }
{
    host_readings::downtime(lower, upper, res)
}

#[unsafe(no_mangle)]
pub extern "C" fn probe_credit(
    nodes: u64,
    links_count: u64,
    events_count: u64,
    threshold: u64,
    cap: u64,
    links: &[u8],
    events: &[u64],
    v: u64,
    w: u64,
    fee: u64,
    limit_seconds: u64,
    rate: u64,
    res: &mut [u64],
) -> u32
    ensures number { result ≡ credit_number (in_words (header_with nodes links_count events_count threshold cap)
        links.now events.now) v w fee limit_seconds rate }
    ensures res { res.new ≡ laid (values_or_zeros 3 result (credits_values (credit_of intact
        (plan_of_lists (header_with nodes links_count events_count threshold cap) links.now events.now) v w
        fee limit_seconds rate))) res.old }
{
    let h = header(nodes, links_count, events_count, threshold, cap);
    host_readings::credit(h, links, events, v, w, fee, limit_seconds, rate, res)
}
