// Conditional figure: document 001, equation 6. It is no bound: the scenarios that were not examined are left out of it.
ghost use Rattle.std.specs.Prelude.{◌≡◌, ◌≤◌, IfOk};
ghost use Rattle.mass.specs.Refusal.{number_in};
ghost use Rattle.mass.specs.Split.{whole};
ghost use Rattle.plan.specs.LentLists.{plan_of_lists, in_words};
ghost use Rattle.network.specs.Outage.{intact};
ghost use Rattle.bounds.specs.Calls.{pair_number};
ghost use Rattle.readings.specs.Figure.{float_of, shares_of, figure_given, figure_of, floats_in, Numbers};

use crate::Shares;
use mass::{Mass, Refusal};
use plan::Header;

// F of document 01: a mass as a float. The quotient, the remainder and the product are exact; only the sum rounds.
fn float_of(m: u64) -> f64
    requires { m ≤ whole }
    ensures { result ≡ float_of m }
{
    ((m / 1_000_000_000) as f64) * 1_000_000_000.0 + ((m % 1_000_000_000) as f64)
}

// F(lower) ÷ F(E), and F(E) ÷ 10^18.
fn shares_of(lower: u64, examined: u64) -> Shares
    requires { (lower ≤ whole) × (examined ≤ whole) }
    ensures { result ≡ shares_of lower examined }
{
    let all = float_of(examined);
    Shares {
        disconnected: float_of(lower) / all,
        examined: all / 1_000_000_000_000_000_000.0,
    }
}

// No figure if E = 0, else the pair of floats.
fn figure_of(lower: u64, examined: u64) -> Option<Shares>
    requires { (lower ≤ whole) × (examined ≤ whole) }
    ensures { result ≡ figure_given examined (shares_of lower examined) }
{
    match examined {
        0 => None,
        _ => Some(shares_of(lower, examined)),
    }
}

// The conditional figure of a pair: no figure if E = 0, else F(lower) ÷ F(E) and F(E) ÷ 10^18. It is no bound.
pub fn figure(
    h: Header,
    links: &[u8],
    events: &[u64],
    v: u64,
    w: u64,
) -> Result<Option<Shares>, Refusal>
    ensures number { number_in result ≡ pair_number (in_words h links.now events.now) v w }
    ensures figure { IfOk result (λ f. f ≡ figure_of intact (plan_of_lists h links.now events.now) v w) }
    ensures numbers { IfOk result (λ f. Numbers (floats_in f)) }
{
    let bounds = bounds::pair(h, links, events, v, w)?;
    let examined = bounds.lower + (Mass::WHOLE.units - bounds.upper);
    Ok(figure_of(bounds.lower, examined))
}
