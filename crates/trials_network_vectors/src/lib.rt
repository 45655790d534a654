// What the test programs of networks share: links in an array as in a plan, two bytes each, what has failed, whether a plan may have
// such links, and holding what the nodes of a network reach to what it should be.
// Differences are printed on standard output; where that fails, the error is returned.
#![tactic(auto)]

mod reach;

ghost use Rattle.std.specs.Prelude.{◌≡◌, true, cond, leb, length, replicate};
ghost use Rattle.std.proofs.lemmas.List.Edits.{sets};
ghost use Rattle.plan.specs.Held.{LinksHeld};

use network::Failed;
use plan::Header;
pub use reach::parts;

// An array that starts with these links; zeros where there are more bytes than it holds.
pub fn links(bytes: &[u8]) -> [u8; 256]
    ensures { result ≡ cond (leb (length bytes.now) 256) (sets (replicate 256 0) 0 bytes.now) (replicate 256 0) }
{
    let mut all = [0u8; 256];
    if bytes.len() <= 256 {
        plan_lists::copy_first(bytes, &mut all, 0, bytes.len());
    }
    all
}

// What has failed: a set of nodes, and a set of links in two words.
pub fn failed(nodes: u64, low: u64, high: u64) -> Failed
    ensures { result ≡ record { nodes = nodes; low = low; high = high } }
{
    Failed { nodes, low, high }
}

// Whether no test of a plan refuses the counts and the links.
pub fn held(n: usize, links: &[u8; 256], count: usize) -> bool
    ensures { result ≡ true → LinksHeld n links.now count }
{
    let words = [0u64; 512];
    let h = Header {
        nodes: n as u64,
        links: count as u64,
        events: 0,
        threshold: 1,
        cap: 1,
    };
    plan_lists::lists_refusal(h, links, &words).is_ok()
}
