// What reading into records is thin over: handing words over.
ghost use Rattle.std.specs.Prelude.{◌≡◌, ◌*◌, ◌/◌, ◌≤◌, length, take};
ghost use Rattle.mass.specs.Refusal.{number_in};
ghost use Rattle.refusals.specs.Tests.{room_test};
ghost use Rattle.plan.specs.Calls.{filled};

use mass::Refusal;

// Lays the words of the first `count` events down in a lent list: 12 where it has no room for them. A refusal changes nothing.
pub fn hand_over(count: usize, words: &[u64; 512], events: &mut [u64]) -> Result<(), Refusal>
    requires { count ≤ 128 }
    ensures number { number_in result ≡ room_test (length events.old / 4) count }
    ensures events { events.new ≡ filled (room_test (length events.old / 4) count)
        (take (4 * count) words.now) events.old }
{
    refusals::room_test(events.len() / 4, count)?;
    plan_lists::copy_first(words, events, 0, 4 * count);
    Ok(())
}
