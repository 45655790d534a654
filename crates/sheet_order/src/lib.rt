// Events put in order as they come (document 02, request U2): each is laid down before the first one whose probability is below its own.
// The order itself, by falling key over any element, is a definition (specs/Order.antt) with its laws in proofs/.
// Assumes nothing.
#![tactic(auto)]

ghost use Rattle.std.specs.Prelude.{◌≡◌, ◌+◌, ◌-◌, ◌*◌, ◌≤◌, ◌<◌, length, take, drop};
ghost use Rattle.std.proofs.lemmas.List.Edits.{sets};
ghost use Rattle.plan.specs.Lists.{events_of};
ghost use Rattle.sheet_order.specs.Order.{place_of};
ghost use Rattle.sheet_order.specs.Inserted.{probability, inserted_words};

use plan_reading::Members;

// How many of the first `count` events stand before the first one whose probability is below q.
fn insertion_place(words: &[u64], count: usize, q: u64) -> usize
    requires { 4 * count ≤ length words.now }
    ensures { (result ≡ place_of probability q (events_of count words.now)) × (result ≤ count) }
{
    // No probability of the first i events is below q.
    for i in 0..count {
        if words[4 * i] < q {
            return i;
        }
    }
    count
}

// Moves the words from `from` up to `to` four places on.
fn make_room(words: &mut [u64; 512], from: usize, to: usize)
    requires { (from ≤ to) × (to + 4 ≤ 512) }
    ensures { words.new ≡ sets words.old (from + 4) (take (to - from) (drop from words.old)) }
{
    // The words after word i are moved, and no others.
    for i in (from..to).rev() {
        words[i + 4] = words[i];
    }
}

// Lays an event down in its place among the first `count` events, and says how long the array is.
pub fn insert(words: &mut [u64; 512], count: usize, q: u64, m: Members)
    requires { count < 128 }
    ensures long { length words.old ≡ 512 }
    ensures words { words.new ≡ inserted_words words.old count q m.nodes m.low m.high }
{
    let place = insertion_place(words, count, q);
    make_room(&mut *words, 4 * place, 4 * count);
    plan_reading::put_event(&mut *words, 4 * place, q, m);
}
