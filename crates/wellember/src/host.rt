// The two exported functions, and what they are made of. A refusal changes no byte of the lent buffer.
ghost use Rattle.std.specs.Prelude.{◌≡◌, ◌≤◌, length, IfOk, OnOk};
ghost use Rattle.std.proofs.lemmas.List.Edits.{sets};
ghost use Rattle.mass.specs.Refusal.{number_in};
ghost use Rattle.plan.specs.File.{refusal, plan_of};
ghost use Rattle.plan.specs.Calls.{filled};
ghost use Rattle.network.specs.Outage.{intact};
ghost use Rattle.walk.specs.Walk.{count};
ghost use Rattle.bounds.specs.Bounds.{lower_of, upper_of, Encloses};
ghost use Rattle.bounds.specs.Calls.{bounds_of};
ghost use Rattle.wellember.specs.Host.{host_refusal, sixteen, lower_in, upper_in};

use bounds::PairBounds;
use mass::Refusal;

// The bounds of one pair of a plan file, where the buffer has `room` bytes: the tests of the file, then 12, then 13.
#[tactic(auto, using(mass::proofs::RefusalLaws::refuses), unfolding(crate::specs::Host::host_refusal))]
fn pair_of(s: &[u8], room: usize, v: u64, w: u64) -> Result<PairBounds, Refusal>
    ensures number { number_in result ≡ host_refusal s.now room v w }
    ensures bounds { IfOk result (λ b. b ≡ bounds_of intact (plan_of s.now) v w) }
    ensures demand3 { IfOk result (λ b.
        Encloses intact (plan_of s.now) v w b.lower b.upper (count (plan_of s.now))) }
    ensures there { OnOk result (16 ≤ room) }
{
    let mut links = [0u8; 256];
    let mut words = [0u64; 512];
    let h = plan_reading::read_input(s, &mut links, &mut words)?;
    refusals::room_test(room, 16)?;
    pairs::pair_test(h.nodes, v, w)?;
    Ok(bounds::pair_in(h, &links, &words, v as usize, w as usize))
}

// Lays down the two bounds in the first 16 bytes, the lower one first.
fn put_bounds(out: &mut [u8], found: PairBounds)
    requires { 16 ≤ length out.old }
    ensures { out.new ≡ sets out.old 0 (sixteen found.lower found.upper) }
{
    plan_writing::put_number(out, 0, 8, found.lower);
    plan_writing::put_number(out, 8, 8, found.upper);
}

// The bounds of one pair of a plan file, laid down in the first 16 bytes of the buffer. A refusal changes no byte of it.
fn give_pair(s: &[u8], v: u64, w: u64, out: &mut [u8]) -> Result<(), Refusal>
    ensures number { number_in result ≡ host_refusal s.now (length out.old) v w }
    ensures bytes { out.new ≡ filled (host_refusal s.now (length out.old) v w)
        (sixteen (lower_of intact (plan_of s.now) v w) (upper_of intact (plan_of s.now) v w)) out.old }
    ensures demand3 { OnOk result
        (Encloses intact (plan_of s.now) v w (lower_in out.new) (upper_in out.new) (count (plan_of s.now))) }
{
    let found = pair_of(s, out.len(), v, w)?;
    put_bounds(out, found);
    Ok(())
}

// The number with which a plan file is refused, or 0.
#[unsafe(no_mangle)]
pub extern "C" fn wellember_check(plan: &[u8]) -> u32
    ensures { result ≡ refusal plan.now }
{
    mass::number_in(&plan::check(plan))
}

// The bounds of the pair (v, w) of a plan file into the first 16 bytes of `out`: the number of the refusal, or 0.
#[unsafe(no_mangle)]
pub extern "C" fn wellember_pair(plan: &[u8], v: u32, w: u32, out: &mut [u8]) -> u32
    ensures number { result ≡ host_refusal plan.now (length out.old) v w }
    ensures bytes { out.new ≡ filled
        (host_refusal plan.now (length out.old) v w)
        (sixteen (lower_of intact (plan_of plan.now) v w) (upper_of intact (plan_of plan.now) v w)) out.old }
    ensures demand3 { host_refusal plan.now (length out.old) v w ≡ 0
        → Encloses intact (plan_of plan.now) v w (lower_in out.new) (upper_in out.new)
        (count (plan_of plan.now)) }
{
    mass::number_in(&give_pair(plan, v as u64, w as u64, out))
}
