// A walk as lent words: document 02, request U4. A walk is laid down in a list of words, and taken from one.
// Assumes nothing.
#![tactic(auto)]

mod parts;

ghost use Rattle.std.specs.Prelude.{◌≡◌, ◌≤◌, length, IfOk, OnOk};
ghost use Rattle.std.proofs.lemmas.List.Edits.{sets};
ghost use Rattle.mass.specs.Refusal.{number_in};
ghost use Rattle.refusals.specs.Tests.{room_test};
ghost use Rattle.plan.specs.Calls.{filled};
ghost use Rattle.walk_words.specs.WalkWords.{walk_length, walk_words, walk_of};

use mass::Refusal;
use parts::{narrow, put_words, take_words, widen};
use plan::Header;
use refusals::room_test;
use walk_state::Walk;

// How many words a walk has.
pub const WORDS: usize = 3305;

// How many words a walk has, for hosts that are not in Rattle.
pub fn walk_words() -> u64
    ensures { result ≡ walk_length }
{
    WORDS as u64
}

// Lays a walk down from the start of a list.
pub fn lay(w: Walk, state: &mut [u64])
    requires { walk_length ≤ length state.old }
    ensures state { state.new ≡ sets state.old 0 (walk_words w) }
    ensures again { walk_of state.new ≡ w }
{
    let h = w.header;
    let numbers = [
        h.nodes,
        h.links,
        h.events,
        h.threshold,
        h.cap,
        w.at as u64,
        w.reached,
        w.count,
        w.mass,
    ];
    put_words(&numbers, state, 0);
    let links = w.links;
    widen(&links, state, 9);
    let events = w.events;
    put_words(&events, state, 265);
    let stack = w.stack;
    put_words(&stack, state, 777);
    let sums = w.sums;
    put_words(&sums, state, 1289);
}

// Lays a walk down from the start of a list. Refused, with 12, where the list is too short.
pub fn pack(w: Walk, state: &mut [u64]) -> Result<(), Refusal>
    ensures number { number_in result ≡ room_test (length state.old) walk_length }
    ensures state { state.new ≡ filled (number_in result) (walk_words w) state.old }
    ensures again { OnOk result (walk_of state.new ≡ w) }
{
    room_test(state.len(), WORDS)?;
    lay(w, state);
    Ok(())
}

// The walk that the words at the start of a list stand for.
pub fn walk_of(state: &[u64]) -> Walk
    requires { walk_length ≤ length state.now }
    ensures { result ≡ walk_of state.now }
{
    let mut links = [0u8; 256];
    narrow(state, 9, &mut links);
    let mut events = [0u64; 512];
    take_words(state, 265, &mut events);
    let mut stack = [0u64; 512];
    take_words(state, 777, &mut stack);
    let mut sums = [0u64; 2016];
    take_words(state, 1289, &mut sums);
    Walk {
        header: Header {
            nodes: state[0],
            links: state[1],
            events: state[2],
            threshold: state[3],
            cap: state[4],
        },
        links,
        events,
        stack,
        sums,
        at: state[5] as usize,
        reached: state[6],
        count: state[7],
        mass: state[8],
    }
}

// Takes a walk from the start of a list. Refused, with 12, where the list is too short.
pub fn unpack(state: &[u64]) -> Result<Walk, Refusal>
    ensures number { number_in result ≡ room_test (length state.now) walk_length }
    ensures walk { IfOk result (λ w. w ≡ walk_of state.now) }
{
    room_test(state.len(), WORDS)?;
    Ok(walk_of(state))
}
