// One step of the walk: the next relevant scenario.
ghost use Rattle.std.specs.Prelude.{◌≡◌, ◌+◌, ◌*◌, ◌^◌, ◌≤◌, ◌<◌, SomeIff, length, get_or, drop, ◌++◌};
ghost use Rattle.mass.specs.Split.{certain, whole, both_parts, working};
ghost use Rattle.sets.specs.Sets.{joined};
ghost use Rattle.plan.specs.Lists.{events_of};
ghost use Rattle.plan.specs.Held.{Falling};
ghost use Rattle.walk.specs.Pending.{branch_ends};
ghost use Rattle.walk.specs.Stack.{branch_of, SoundBranch, to_come, pending_mass, Stack};
ghost use Rattle.walk.specs.Steps.{StepTaken, TwoParts, Stopped, Pushed, Delayed, Descended};

use crate::{Descent, Examined, Failing, Parted, StackEntry, Stop, WalkStep, put};

// The first word of an entry that is a number of dropped ends, and no branch.
const RUN: u64 = 129;

// What the event at a depth leaves of a mass where it fails and where it works: the split of the mass type.
pub fn split_at(events: &[u64; 512], depth: u64, mass: u64) -> mass::BothParts
    requires { (depth < 128) × (mass ≤ whole) × (get_or events.now (depth * 4) 0 ≤ certain) }
    ensures { result ≡ both_parts mass (get_or events.now (depth * 4) 0) }
{
    let q = events[depth as usize * 4];
    let all = mass::Mass { units: mass };
    all.both_parts(q)
}

// A mass in two parts.
fn parted(mass: u64) -> Parted
    requires { mass ≤ whole }
    ensures { TwoParts mass result }
{
    Parted {
        units: mass,
        high: mass / mass::CERTAIN,
        low: mass % mass::CERTAIN,
    }
}

// What the event at a depth leaves of a mass where it works: the same as `split_at`. Each part is gone on with by itself, so that no division
// waits for another; the low part may grow to 16 × 10^9 before it is carried over.
#[tactic(auto, using(crate::proofs::Parts::kept, crate::proofs::Parts::carried))]
fn works_on(events: &[u64; 512], depth: u64, m: Parted) -> Parted
    requires { (depth < 128) × TwoParts m.units m × (get_or events.now (depth * 4) 0 ≤ certain) }
    ensures { TwoParts (working m.units (get_or events.now (depth * 4) 0)) result }
{
    let rest = mass::CERTAIN - events[depth as usize * 4];
    let first = m.high * rest;
    let second = m.low * rest / mass::CERTAIN;
    let high = first / mass::CERTAIN;
    let low = first % mass::CERTAIN + second;
    if low < 16_000_000_000 {
        return Parted {
            units: first + second,
            high,
            low,
        };
    }
    Parted {
        units: first + second,
        high: high + low / mass::CERTAIN,
        low: low % mass::CERTAIN,
    }
}

// Goes down the "works" path of a branch, to its end or to where its mass falls below the threshold.
pub fn straight(count: u64, threshold: u64, events: &[u64; 512], depth: u64, mass: u64) -> Stop
    requires { (count ≤ 128) × (depth ≤ count) × (mass ≤ whole) × Falling certain (events_of count events.now) }
    ensures { Stopped count threshold events.now depth mass result }
{
    // A path that stops at once needs no parts.
    if mass < threshold {
        return Stop { depth, mass };
    }
    let mut m = parted(mass);
    // From depth d and mass m the "works" path stops where it stops from the start, and m is in two parts.
    for d in depth..count {
        if m.units < threshold {
            return Stop {
                depth: d,
                mass: m.units,
            };
        }
        m = works_on(events, d, m);
    }
    Stop {
        depth: count,
        mass: m.units,
    }
}

// Lays a branch down with one failing event more, that at its depth.
fn push(stack: &mut [u64; 512], at: usize, branch: StackEntry)
    requires { (branch.depth < 128) × (branch.failing.low < 2 ^ 64)
        × (joined branch.failing.low branch.failing.high < 2 ^ branch.depth) × (at + 4 ≤ 512) }
    ensures { Pushed branch at stack.old stack.new }
{
    put(stack, at, &branch.next_failing().words());
}

// The end of a descent that stops at a mass: dropped where the mass is below the threshold.
fn end_at(threshold: u64, mass: u64, failing: Failing) -> Option<Examined>
    ensures { SomeIff result (threshold ≤ mass) (record { mass = mass; failing = failing }) }
{
    (mass >= threshold).then_some(Examined { mass, failing })
}

// Goes down from a branch to its first end, leaving each "fails" side pending. From where a "fails" side falls below the threshold it
// leaves none, since no later one on the "works" path has more mass: each is one dropped end.
fn go_down(
    count: u64,
    threshold: u64,
    events: &[u64; 512],
    stack: &mut [u64; 512],
    at: usize,
    branch: StackEntry,
) -> Descent
    requires count_bound { (count ≤ 128) × Falling certain (events_of count events.now) }
    requires sound_branch { SoundBranch count branch.depth branch.mass branch.failing.low branch.failing.high (length (drop at stack.old))
        × Stack count at stack.old }
    ensures { Descended count threshold events.now
        (branch_ends threshold (events_of count events.now)
        (branch_of branch.depth branch.mass branch.failing.low branch.failing.high)
        ++ to_come count threshold events.now at stack.old)
        (branch.mass + pending_mass (drop at stack.old)) stack.new result }
{
    let mut top = at;
    let mut m = branch.mass;
    let failing = branch.failing;
    // The ends of the branch at depth d with mass m, then those of the entries from `top` on, are the ends to come at the start.
    for d in branch.depth..count {
        if m < threshold {
            return Descent {
                at: top,
                end: None,
                dropped: 0,
            };
        }
        let parts = split_at(events, d, m);
        let f = parts.fails.units;
        let w = parts.works.units;
        if f < threshold {
            let stop = straight(count, threshold, events, d + 1, w);
            return Descent {
                at: top,
                end: end_at(threshold, stop.mass, failing),
                dropped: stop.depth - d,
            };
        }
        top -= 4;
        push(
            &mut *stack,
            top,
            StackEntry {
                depth: d,
                mass: f,
                failing,
            },
        );
        m = w;
    }
    Descent {
        at: top,
        end: end_at(threshold, m, failing),
        dropped: 0,
    }
}

// Takes the next entry off the stack and goes to its first end.
fn descend(
    count: u64,
    threshold: u64,
    events: &[u64; 512],
    stack: &mut [u64; 512],
    at: usize,
) -> Descent
    requires { (count ≤ 128) × Falling certain (events_of count events.now) × (at < 512) × Stack count at stack.old }
    ensures { Descended count threshold events.now
        (to_come count threshold events.now at stack.old) (pending_mass (drop at stack.old))
        stack.new result }
{
    let entry = StackEntry::at(&*stack, at);
    if entry.depth > 128 {
        return Descent {
            at: at + 4,
            end: None,
            dropped: entry.mass - 1,
        };
    }
    go_down(count, threshold, events, stack, at + 4, entry)
}

// Lays so many dropped ends down before those to come. Returns where the stack begins.
#[tactic(auto, using(crate::proofs::Descents::delays))]
fn delay(stack: &mut [u64; 512], at: usize, run: u64) -> usize
    requires { (at ≤ 512) × (0 < run → 4 ≤ at) }
    ensures { Delayed run at stack.old stack.new result }
{
    if run == 0 {
        return at;
    }
    let entry = StackEntry {
        depth: RUN,
        mass: run,
        failing: Failing { low: 0, high: 0 },
    };
    put(stack, at - 4, &entry.words());
    at - 4
}

// The next relevant scenario among the ends that may still be reached: passes over dropped ends, counting each. Those of a descent's
// dropped ends that may not be reached are laid down again.
#[tactic(auto, using(crate::proofs::Stepping::none_found))]
pub fn next_relevant(
    count: u64,
    threshold: u64,
    events: &[u64; 512],
    stack: &mut [u64; 512],
    at: usize,
    allowed: u64,
) -> WalkStep
    requires { (count ≤ 128) × Falling certain (events_of count events.now) × Stack count at stack.old }
    ensures { StepTaken count threshold events.now at stack.old allowed stack.new result }
{
    let mut top = at;
    let mut left = allowed;
    // So far `allowed` - `left` dropped ends were passed, and the ends to come from `top` on follow them. A turn that does not return
    // passes one end or more, so fewer are to come.
    while top < 512 && left > 0 {
        let r = descend(count, threshold, events, &mut *stack, top);
        if r.end.is_some() {
            return WalkStep {
                at: delay(stack, r.at, r.dropped),
                left: left - 1,
                found: r.end,
            };
        }
        let passed = r.dropped.saturating_add(1).min(left);
        top = delay(&mut *stack, r.at, r.dropped - (passed - 1));
        left -= passed;
    }
    WalkStep {
        at: top,
        left,
        found: None,
    }
}
