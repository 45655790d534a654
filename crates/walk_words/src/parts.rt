// Parts of a list of words: laying them down, and taking them, from a position on.
// Assumes nothing.
ghost use Rattle.std.specs.Prelude.{◌≡◌, map, ℕ, ◌+◌, ◌≤◌, ◌%◌, length, take, drop};
ghost use Rattle.std.proofs.lemmas.List.Edits.{sets};

// Lays bytes down from a position on, one to a word.
pub fn widen(from: &[u8], to: &mut [u64], at: usize)
    requires { at + length from.now ≤ length to.old }
    ensures { to.new ≡ sets to.old at from.now }
{
    // The first i bytes are laid down, and no others.
    for (i, byte) in from.iter().enumerate() {
        to[at + i] = u64::from(*byte);
    }
}

// Takes as many bytes as there is room for, from a position on: the lowest eight bits of each word.
pub fn narrow(from: &[u64], at: usize, to: &mut [u8])
    requires { at + length to.old ≤ length from.now }
    ensures { to.new ≡ map (λ (x : ℕ). x % 256) (take (length to.old) (drop at from.now)) }
{
    // The first i bytes are taken, and no others.
    for i in 0..to.len() {
        to[i] = (from[at + i] % 256) as u8;
    }
}

// Lays words down from a position on.
pub fn put_words(from: &[u64], to: &mut [u64], at: usize)
    requires { at + length from.now ≤ length to.old }
    ensures { to.new ≡ sets to.old at from.now }
{
    to[at..at + from.len()].copy_from_slice(from);
}

// Takes as many words as there is room for, from a position on.
pub fn take_words(from: &[u64], at: usize, to: &mut [u64])
    requires { at + length to.old ≤ length from.now }
    ensures { to.new ≡ take (length to.old) (drop at from.now) }
{
    to.copy_from_slice(&from[at..at + to.len()]);
}
