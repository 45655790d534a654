// The mass of a scenario: document 01, "Units and the splitting of mass".
// Assumes nothing.
#![tactic(auto)]

mod refusal;

ghost use Rattle.std.specs.Prelude.{◌≡◌, ◌*◌, ◌/◌, ◌≤◌, IfOk};
ghost use Rattle.mass.specs.Refusal.{number_in};
ghost use Rattle.mass.specs.Split.{certain, whole, both_parts, split_refusal, mass_test, probability_test};

pub use refusal::{Refusal, number_in};

// An event probability of 1, in units of 10^-9.
pub const CERTAIN: u64 = 1_000_000_000;

// A share of time, in units of 10^-18.
#[derive(Clone, Copy)]
pub struct Mass {
    pub units: u64,
}

// The two parts of a mass at an event.
#[derive(Clone, Copy)]
pub struct BothParts {
    pub fails: Mass,
    pub works: Mass,
}

impl Mass {
    // One whole, 10^18.
    pub const WHOLE: Mass = Mass {
        units: 1_000_000_000_000_000_000,
    };

    // The part of the mass that falls to a share of q in 10^9, rounded down: with no wider integer, by the mass's quotient and remainder.
    fn share(self, q: u64) -> Mass
        requires { (self.units ≤ whole) × (q ≤ certain) }
        ensures { result.units ≡ self.units * q / certain }
    {
        let m = self.units;
        Mass {
            units: m / CERTAIN * q + m % CERTAIN * q / CERTAIN,
        }
    }

    // The split itself, of a mass and a probability that are in range: the parts that go to "fails" and to "works" at an event of
    // probability q. The walk takes the two sides of a branch from it.
    pub fn both_parts(self, q: u64) -> BothParts
        requires { (self.units ≤ whole) × (q ≤ certain) }
        ensures { result ≡ both_parts self.units q }
    {
        BothParts {
            fails: self.share(q),
            works: self.share(CERTAIN - q),
        }
    }

    // The split of any mass at any probability: the tests, then the split itself.
    #[tactic(auto, using(crate::proofs::RefusalLaws::refuses))]
    pub fn split(self, q: u64) -> Result<BothParts, Refusal>
        ensures number { number_in result ≡ split_refusal self.units q }
        ensures parts { IfOk result (λ b. b ≡ both_parts self.units q) }
    {
        mass_test(self.units)?;
        probability_test(q)?;
        Ok(self.both_parts(q))
    }
}

// 16: the mass is above one whole.
pub fn mass_test(m: u64) -> Result<(), Refusal>
    ensures { number_in result ≡ mass_test m }
{
    Refusal::Mass.when(Mass::WHOLE.units < m)
}

// 8: the probability is above 1.
pub fn probability_test(q: u64) -> Result<(), Refusal>
    ensures { number_in result ≡ probability_test q }
{
    Refusal::Probability.when(CERTAIN < q)
}
