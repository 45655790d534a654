// The members of an event, read by steps of the reader. No reader stands in this function.
ghost use Rattle.std.specs.Prelude.{◌≡◌, ◌+◌, ◌*◌, length, drop};
ghost use Rattle.std.proofs.lemmas.List.Edits.{sets};
ghost use Rattle.mass.specs.Refusal.{number_in};
ghost use Rattle.plan.specs.File.{members_refusal};
ghost use Rattle.record_reading.specs.Steps.{ranks_given};

use crate::read_member;
use mass::Refusal;

// Reads `count` members by steps of the reader from a position on: each, 1 then 10. The ranks of those that are given, up to the first that
// is refused, are laid down from the start. A refusal leaves them, and the position after them. Ranks rise and are below 512, so there is
// room for all. For the test program: no call of the instrument uses it.
#[tactic(auto, using(crate::proofs::StepLaws::member_refused))]
pub fn read_members(
    s: &[u8],
    at: &mut usize,
    count: u64,
    nodes: u64,
    links: u64,
    out: &mut [u64; 512],
) -> Result<(), Refusal>
    ensures number { number_in result ≡ members_refusal nodes links 0 count (drop at.old s.now) }
    ensures position { at.new ≡ at.old + 2 * length (ranks_given nodes links 0 count (drop at.old s.now)) }
    ensures out { out.new ≡ sets out.old 0 (ranks_given nodes links 0 count (drop at.old s.now)) }
{
    let mut least = 0;
    // The members that are left, from `at` on, of rank `least` or more, are refused as all members are. With the ranks of those that are
    // given laid down from i on, the array is as with all. i is at most `least`.
    for i in 0..count as usize {
        let start = *at;
        read_member(s, &mut *at, nodes, links, least)?;
        let rank = plan::rank_at(s, start);
        out[i] = rank;
        least = rank + 1;
    }
    Ok(())
}
