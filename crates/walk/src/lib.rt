// Scenarios and the walk over them: document 01, section "Scenarios".
// Assumes nothing.
#![tactic(auto)]

ghost use Rattle.std.specs.Prelude.{◌≡◌, [], ◌∷◌, ◌+◌, ◌^◌, ◌≤◌, ◌<◌, length};
ghost use Rattle.std.proofs.lemmas.List.Edits.{sets};
ghost use Rattle.sets.specs.Sets.{joined};
ghost use Rattle.walk.specs.Stack.{Begun, entry_at};
ghost use Rattle.walk.specs.Steps.{NextFailing};

mod ahead;

pub use ahead::{next_relevant, split_at, straight};

// A set of events in two words, events 64 to 127 in the high one.
#[derive(Clone, Copy)]
pub struct Failing {
    pub low: u64,
    pub high: u64,
}

// An entry of the stack: a pending branch, with how many events are decided, its mass and its failing events; or, where the depth is RUN, so
// many dropped ends as the mass says.
#[derive(Clone, Copy)]
pub struct StackEntry {
    pub depth: u64,
    pub mass: u64,
    pub failing: Failing,
}

// A relevant scenario that the walk comes to: its mass and its failing events.
#[derive(Clone, Copy)]
pub struct Examined {
    pub mass: u64,
    pub failing: Failing,
}

// What a step hands out: where the stack now begins, how many ends may still be reached, and the relevant scenario that was found.
#[derive(Clone, Copy)]
pub struct WalkStep {
    pub at: usize,
    pub left: u64,
    pub found: Option<Examined>,
}

// A mass on a "works" path: its units, and the same in two parts, high × 10^9 + low.
#[derive(Clone, Copy)]
pub struct Parted {
    pub units: u64,
    pub high: u64,
    pub low: u64,
}

// Where a "works" path stops: how many events are decided, and the mass.
#[derive(Clone, Copy)]
pub struct Stop {
    pub depth: u64,
    pub mass: u64,
}

// What a descent comes to: where the stack now begins, and one end, a relevant scenario or a dropped one; so many dropped ends follow it.
#[derive(Clone, Copy)]
pub struct Descent {
    pub at: usize,
    pub end: Option<Examined>,
    pub dropped: u64,
}

// The set of failing events with one event more, that comes after all of them.
pub fn with_event(failing: Failing, event: u64) -> Failing
    requires { (failing.low < 2 ^ 64) × (event < 128) × (joined failing.low failing.high < 2 ^ event) }
    ensures { joined result.low result.high ≡ joined failing.low failing.high + 2 ^ event }
{
    if event < 64 {
        return Failing {
            low: failing.low + (1 << event),
            high: failing.high,
        };
    }
    Failing {
        low: failing.low,
        high: failing.high + (1 << (event - 64)),
    }
}

impl StackEntry {
    // The root of a walk: no event decided, and one whole.
    pub const ROOT: StackEntry = StackEntry {
        depth: 0,
        mass: mass::Mass::WHOLE.units,
        failing: Failing { low: 0, high: 0 },
    };

    // The words of the stack that hold it.
    pub fn words(self) -> [u64; 4]
        ensures { result ≡ self.depth ∷ self.mass ∷ self.failing.low ∷ self.failing.high ∷ [] }
    {
        [self.depth, self.mass, self.failing.low, self.failing.high]
    }

    // The entry that four words of the stack hold.
    pub fn at(stack: &[u64], at: usize) -> StackEntry
        requires { at + 4 ≤ length stack.now }
        ensures { result ≡ entry_at at stack.now }
    {
        StackEntry {
            depth: stack[at],
            mass: stack[at + 1],
            failing: Failing {
                low: stack[at + 2],
                high: stack[at + 3],
            },
        }
    }

    // The branch with one failing event more, that at its depth.
    pub fn next_failing(self) -> StackEntry
        requires { (self.depth < 128) × (self.failing.low < 2 ^ 64) × (joined self.failing.low self.failing.high < 2 ^ self.depth) }
        ensures { NextFailing self result }
    {
        StackEntry {
            depth: self.depth + 1,
            mass: self.mass,
            failing: with_event(self.failing, self.depth),
        }
    }
}

// Lays the words of an entry down in a stack.
pub fn put(stack: &mut [u64], at: usize, words: &[u64])
    requires { at + length words.now ≤ length stack.old }
    ensures { stack.new ≡ sets stack.old at words.now }
{
    // The first i words are laid down, and no others.
    for i in 0..words.len() {
        stack[at + i] = words[i];
    }
}

// Begins a walk at the root, with no event decided and one whole: the only branch on the stack. Returns where the stack begins.
pub fn begin(stack: &mut [u64; 512]) -> usize
    ensures { Begun result stack.old stack.new }
{
    put(stack, 508, &StackEntry::ROOT.words());
    508
}
