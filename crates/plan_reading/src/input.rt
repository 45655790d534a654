// A plan file read into arrays of its own: what the host's calls and the listing begin with.
ghost use Rattle.std.specs.Prelude.{◌≡◌, length, IfOk};
ghost use Rattle.mass.specs.Refusal.{number_in};
ghost use Rattle.plan.specs.Lists.{link_bytes, event_words};
ghost use Rattle.plan.specs.File.{refusal, plan_of};
ghost use Rattle.plan.specs.Calls.{filled, header_of};
ghost use Rattle.plan_reading.specs.Loaded.{Loaded};

use crate::reader::read_core;
use mass::Refusal;
use plan::Header;

// Reads a plan file into the arrays. Refused with 1 to 11 only: the arrays have room for every plan. A refusal changes nothing.
pub fn read_input(
    s: &[u8],
    links: &mut [u8; 256],
    words: &mut [u64; 512],
) -> Result<Header, Refusal>
    requires { (length links.old ≡ 256) × (length words.old ≡ 512) }
    ensures number { number_in result ≡ refusal s.now }
    ensures header { IfOk result (λ h. h ≡ header_of s.now) }
    ensures links { links.new ≡ filled (refusal s.now) (link_bytes (plan_of s.now).links) links.old }
    ensures words { words.new ≡ filled (refusal s.now) (event_words (plan_of s.now).events) words.old }
    ensures loaded { refusal s.now ≡ 0 → Loaded s.now links.new words.new }
{
    read_core(s, 256, 128, links, words)
}
