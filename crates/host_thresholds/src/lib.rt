// The call for several thresholds with its answer as numbers, for the export of crate `probe`: the number of the refusal, or 0, is returned,
// and the values are laid down in a lent list, as far as it has room.
// Assumes nothing.
#![tactic(auto)]

ghost use Rattle.std.specs.Prelude.{◌≡◌, length, [], ◌∷◌, ◌<◌, MatchResult};
ghost use Rattle.std.proofs.lemmas.List.Edits.{sets};
ghost use Rattle.plan.specs.Calls.{filled};
ghost use Rattle.network.specs.Outage.{intact};
ghost use Rattle.bounds.specs.Bounds.{lower_list, upper_list};
ghost use Rattle.thresholds.specs.Thresholds.{lent_at, plan_at, thresholds_number, no_answer, thresholds_answer, blocks};
ghost use Rattle.host_answers.specs.Laid.{laid};
ghost use Rattle.host_thresholds.specs.ThresholdAnswers.{places_values};

use host_answers::put;
use mass::Refusal;
use thresholds::{Answered, CommonHeader};

// Lays three numbers down from a place on.
fn give_place(list: &mut [u64], at: usize, a: u64, b: u64, c: u64)
    requires { at < 48 }
    ensures { list.new ≡ sets list.old at (a ∷ b ∷ c ∷ []) }
{
    put(list, at, a);
    put(list, at + 1, b);
    put(list, at + 2, c);
}

// The values of an answer: all are 0 where it refuses.
fn answer_in(answer: Result<Answered, Refusal>) -> Answered
    ensures { MatchResult answer (λ a. result ≡ a) (λ r. result ≡ no_answer) }
{
    match answer {
        Ok(given) => given,
        Err(_) => Answered {
            count: [0; 16],
            complete: [0; 16],
            mass: [0; 16],
        },
    }
}

// The count, complete and E of each of the 16 places.
fn give_places(answer: Answered, res: &mut [u64])
    ensures { res.new ≡ laid (places_values answer) res.old }
{
    let count = answer.count;
    let complete = answer.complete;
    let mass = answer.mass;
    // The words of the first i places are laid down, and no others.
    for i in 0..16 {
        give_place(&mut *res, 3 * i, count[i], complete[i], mass[i]);
    }
}

// Several thresholds in one walk: fills the blocks of bounds, and lays down the count, complete and E of each of the 16 places.
pub fn thresholds(
    h: CommonHeader,
    links: &[u8],
    events: &[u64],
    list: &[u64],
    lower: &mut [u64],
    upper: &mut [u64],
    res: &mut [u64],
) -> u32
    ensures number { result ≡ thresholds_number (lent_at h links.now events.now 1) list.now
        (length lower.old) (length upper.old) }
    ensures lowers { lower.new ≡ filled result
        (blocks (λ t. lower_list intact (plan_at h links.now events.now t)) list.now) lower.old }
    ensures uppers { upper.new ≡ filled result
        (blocks (λ t. upper_list intact (plan_at h links.now events.now t)) list.now) upper.old }
    ensures res { res.new ≡ laid
        (places_values (thresholds_answer result (plan_at h links.now events.now) list.now)) res.old }
{
    let answer = thresholds::thresholds(h, links, events, list, lower, upper);
    give_places(answer_in(answer), res);
    mass::number_in(&answer)
}
