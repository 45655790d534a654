// The walk for several thresholds at once: document 02, request U8. A branch is pending as long as the lowest threshold that is under way
// meets it; the mass before its last event tells which thresholds come to it.
// Assumes nothing.
#![tactic(auto)]

ghost use Rattle.std.specs.Prelude.{◌≡◌, [], ◌∷◌, ◌+◌, ◌^◌, ◌≤◌, ◌<◌, length, drop};
ghost use Rattle.std.proofs.lemmas.List.Edits.{sets};
ghost use Rattle.mass.specs.Split.{certain, whole};
ghost use Rattle.sets.specs.Sets.{joined};
ghost use Rattle.plan.specs.Lists.{events_of};
ghost use Rattle.plan.specs.Held.{Falling};
ghost use Rattle.thresholds_walk.specs.Stack.{SoundShared, SharedStack};
ghost use Rattle.thresholds_walk.specs.Paths.{shared_walk, SharedPushed, Halted, SoundPath, PathTaken, path_ends, own_then_dropped};

use walk::StackEntry;

// A pending branch, as it stands in five words of the stack, and the mass before its last event.
#[derive(Clone, Copy)]
pub struct SharedEntry {
    pub branch: StackEntry,
    pub parent: u64,
}

// Where the way down a "works" path leaves no more "fails" sides pending: where the stack then begins, how many events are decided, and the
// mass.
#[derive(Clone, Copy)]
pub struct Halt {
    pub at: usize,
    pub depth: u64,
    pub mass: u64,
}

// A "works" path: where the stack then begins, the mass before the branch's last event, how many events are decided and which mass is left
// where no "fails" side is left pending any more, the failing events, and where the path stops in the walk with the lowest threshold: how
// many events are decided, and the mass.
#[derive(Clone, Copy)]
pub struct WorksPath {
    pub at: usize,
    pub parent: u64,
    pub depth: u64,
    pub mass: u64,
    pub low: u64,
    pub high: u64,
    pub stop: u64,
    pub last: u64,
}

impl SharedEntry {
    // The words of the stack that hold it.
    fn words(self) -> [u64; 5]
        ensures { result ≡ self.branch.depth ∷ self.branch.mass ∷ self.branch.failing.low ∷ self.branch.failing.high ∷ self.parent ∷ [] }
    {
        let [depth, mass, low, high] = self.branch.words();
        [depth, mass, low, high, self.parent]
    }
}

// Begins a walk at the root: it is the only branch on the stack, and every threshold comes to it. Returns where the stack begins.
pub fn begin(stack: &mut [u64; 640]) -> usize
    ensures { (result ≡ 635) × (stack.new ≡ sets stack.old 635 (0 ∷ whole ∷ 0 ∷ 0 ∷ whole ∷ [])) }
{
    let whole = mass::Mass::WHOLE.units;
    let root = SharedEntry {
        branch: StackEntry::ROOT,
        parent: whole,
    };
    walk::put(stack, 635, &root.words());
    635
}

// Lays a branch down with one failing event more, that at its depth.
fn push(stack: &mut [u64; 640], at: usize, entry: SharedEntry)
    requires { (entry.branch.depth < 128) × (entry.branch.failing.low < 2 ^ 64)
        × (joined entry.branch.failing.low entry.branch.failing.high < 2 ^ entry.branch.depth) × (at + 5 ≤ 640) }
    ensures { SharedPushed entry at stack.old stack.new }
{
    let pushed = SharedEntry {
        branch: entry.branch.next_failing(),
        parent: entry.parent,
    };
    walk::put(stack, at, &pushed.words());
}

// Goes down from a branch, leaving each "fails" side pending, to where a "fails" side falls below the lowest threshold: no later one on the
// "works" path has more mass.
fn go_down(
    count: u64,
    lowest: u64,
    events: &[u64; 512],
    stack: &mut [u64; 640],
    at: usize,
    entry: SharedEntry,
) -> Halt
    requires count_bound { (count ≤ 128) × Falling certain (events_of count events.now) }
    requires sound_shared { SoundShared count entry (length (drop at stack.old)) × SharedStack count at stack.old }
    ensures { Halted (shared_walk count lowest events.now) at entry stack.old stack.new result }
{
    let mut top = at;
    let mut m = entry.branch.mass;
    // For each threshold that is not below the lowest: the ends of the branch at depth d with mass m, then those of the entries from `top`
    // on, are the ends to come at the start.
    for d in entry.branch.depth..count {
        if m < lowest {
            return Halt {
                at: top,
                depth: d,
                mass: m,
            };
        }
        let parts = walk::split_at(events, d, m);
        let f = parts.fails.units;
        if f < lowest {
            return Halt {
                at: top,
                depth: d,
                mass: m,
            };
        }
        top -= 5;
        let fails = StackEntry {
            depth: d,
            mass: f,
            failing: entry.branch.failing,
        };
        push(
            &mut *stack,
            top,
            SharedEntry {
                branch: fails,
                parent: m,
            },
        );
        m = parts.works.units;
    }
    Halt {
        at: top,
        depth: count,
        mass: m,
    }
}

// Takes the next branch off the stack and goes to the end of its "works" path.
pub fn next_path(
    count: u64,
    lowest: u64,
    events: &[u64; 512],
    stack: &mut [u64; 640],
    at: usize,
) -> WorksPath
    requires { (count ≤ 128) × Falling certain (events_of count events.now) × (at < 640) × SharedStack count at stack.old }
    ensures { PathTaken (shared_walk count lowest events.now) at stack.old stack.new result }
{
    let branch = StackEntry::at(&*stack, at);
    let parent = stack[at + 4];
    let halt = go_down(
        count,
        lowest,
        events,
        stack,
        at + 5,
        SharedEntry { branch, parent },
    );
    let end = walk::straight(count, lowest, events, halt.depth, halt.mass);
    WorksPath {
        at: halt.at,
        parent,
        depth: halt.depth,
        mass: halt.mass,
        low: branch.failing.low,
        high: branch.failing.high,
        stop: end.depth,
        last: end.mass,
    }
}

// How many ends a path has in the walk with a threshold that is not below the lowest: none where the walk does not come to it; one where
// it is dropped before the "fails" sides are; else its own and one for each event that it decides from there on.
pub fn ends_of(count: u64, lowest: u64, threshold: u64, events: &[u64; 512], path: WorksPath) -> u64
    requires { (count ≤ 128) × Falling certain (events_of count events.now) × (lowest ≤ threshold)
        × SoundPath (shared_walk count lowest events.now) path }
    ensures { (path_ends count threshold events.now path ≡ own_then_dropped count threshold path result)
        × (result ≡ 0 → path.last < threshold) }
{
    if path.parent < threshold {
        return 0;
    }
    if path.mass < threshold {
        return 1;
    }
    if threshold <= path.last {
        return path.stop - path.depth + 1;
    }
    let end = walk::straight(count, threshold, events, path.depth, path.mass);
    end.depth - path.depth + 1
}
