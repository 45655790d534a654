// The check of a file, the run with windows and the bounds of a pair with their answers as numbers, for the exports of crate `probe`: the
// number of the refusal, or 0, is returned, and the values are laid down in a lent list, as far as it has room.
// Assumes nothing.
#![tactic(auto)]

ghost use Rattle.std.specs.Prelude.{◌≡◌, length};
ghost use Rattle.plan.specs.File.{refusal};
ghost use Rattle.plan.specs.LentLists.{plan_of_lists, in_words};
ghost use Rattle.plan.specs.Calls.{filled};
ghost use Rattle.network.specs.Outage.{intact};
ghost use Rattle.windows.specs.Windows.{taken_out};
ghost use Rattle.bounds.specs.Bounds.{lower_list, upper_list};
ghost use Rattle.bounds.specs.Calls.{totals_of, run_at_number, bounds_of, pair_number};
ghost use Rattle.host_answers.specs.Laid.{laid, values_or_zeros};
ghost use Rattle.host_answers.specs.Answers.{totals_values, bounds_values};

use host_answers::{give_pair, give_totals};
use plan::Header;

// Checks a plan file.
pub fn check(plan: &[u8]) -> u32
    ensures { result ≡ refusal plan.now }
{
    mass::number_in(&plan::check(plan))
}

// Runs with windows at a minute, and lays down the examined count, complete and E.
pub fn run_at(
    h: Header,
    links: &[u8],
    events: &[u64],
    windows: &[u64],
    minute: u64,
    lower: &mut [u64],
    upper: &mut [u64],
    res: &mut [u64],
) -> u32
    ensures number { result ≡ run_at_number (in_words h links.now events.now)
        (length lower.old) (length upper.old) windows.now minute }
    ensures lowers { lower.new ≡ filled result
        (lower_list (taken_out windows.now minute) (plan_of_lists h links.now events.now))
        lower.old }
    ensures uppers { upper.new ≡ filled result
        (upper_list (taken_out windows.now minute) (plan_of_lists h links.now events.now))
        upper.old }
    ensures res { res.new ≡ laid
        (values_or_zeros 3 result (totals_values (totals_of (plan_of_lists h links.now events.now))))
        res.old }
{
    let answer = bounds::run_at(h, links, events, windows, minute, lower, upper);
    give_totals(answer, res)
}

// Gives the bounds of a pair, and lays down the lower and the upper one.
pub fn pair(h: Header, links: &[u8], events: &[u64], v: u64, w: u64, res: &mut [u64]) -> u32
    ensures number { result ≡ pair_number (in_words h links.now events.now) v w }
    ensures res { res.new ≡ laid
        (values_or_zeros 2 result (bounds_values (bounds_of intact (plan_of_lists h links.now events.now) v w)))
        res.old }
{
    let answer = bounds::pair(h, links, events, v, w);
    give_pair(answer, res)
}
