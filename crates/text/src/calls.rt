// The listing of a plan file.
ghost use Rattle.std.specs.Prelude.{◌≡◌, ◌≤◌, length, IfOk};
ghost use Rattle.std.proofs.lemmas.List.Edits.{sets};
ghost use Rattle.mass.specs.Refusal.{number_in};
ghost use Rattle.refusals.specs.Tests.{room_test};
ghost use Rattle.plan.specs.LentLists.{plan_refusal, plan_of_lists};
ghost use Rattle.plan.specs.Calls.{filled};
ghost use Rattle.network.specs.Outage.{intact};
ghost use Rattle.text.specs.Listing.{plan_text, listing};

use crate::fields::put_refused;
use crate::rows::put_plan_text;
use mass::Refusal;
use plan::Header;

// The listing of a plan that stands in arrays and is accepted.
fn put_accepted(out: &mut [u8], h: Header, links: &[u8; 256], words: &[u64; 512]) -> usize
    requires words_value { plan_refusal (plan_of_lists h links.now words.now) ≡ 0 }
    requires words_in_bounds { length (plan_text intact (plan_of_lists h links.now words.now)) ≤ length out.old }
    ensures { (out.new ≡ sets out.old 0 (plan_text intact (plan_of_lists h links.now words.now)))
        × (result ≡ length (plan_text intact (plan_of_lists h links.now words.now))) }
{
    let mut sums = [0u64; 2016];
    let totals = bounds::walk_all(h, links, words, network::Failed::NONE, &mut sums);
    put_plan_text(out, h, totals, &sums)
}

// The listing of a plan file, where there is room for it.
fn put_listing(s: &[u8], out: &mut [u8]) -> usize
    requires { length (listing intact s.now) ≤ length out.old }
    ensures { (out.new ≡ sets out.old 0 (listing intact s.now)) × (result ≡ length (listing intact s.now)) }
{
    let mut links = [0u8; 256];
    let mut words = [0u64; 512];
    match plan_reading::read_input(s, &mut links, &mut words) {
        Err(refusal) => put_refused(out, u32::from(refusal)),
        Ok(h) => put_accepted(out, h, &links, &words),
    }
}

// Lays down the listing of a plan file, and answers how many bytes it has; 12, and nothing is changed, where the buffer is too short. The
// text is made in an array that has room for every listing.
pub fn listing_text(plan: &[u8], out: &mut [u8]) -> Result<usize, Refusal>
    ensures number { number_in result ≡ room_test (length out.old) (length (listing intact plan.now)) }
    ensures size { IfOk result (λ n. n ≡ length (listing intact plan.now)) }
    ensures bytes { out.new ≡ filled
        (room_test (length out.old) (length (listing intact plan.now)))
        (listing intact plan.now) out.old }
    ensures within { IfOk result (λ n. n ≤ length out.new) }
{
    let mut text = [0u8; 92789];
    let size = put_listing(plan, &mut text);
    refusals::room_test(out.len(), size)?;
    plan_lists::copy_first(&text, out, 0, size);
    Ok(size)
}
