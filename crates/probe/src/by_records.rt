// The calls that go by way of records, on plan files, for the tests in Rust.
ghost use Rattle.std.specs.Prelude.{◌≡◌, length};
ghost use Rattle.plan.specs.File.{plan_of};
ghost use Rattle.plan.specs.Calls.{filled};
ghost use Rattle.network.specs.Outage.{intact};
ghost use Rattle.bounds.specs.Bounds.{lower_list, upper_list};
ghost use Rattle.bounds.specs.Calls.{totals_of};
ghost use Rattle.record_runs.specs.Copying.{copy_number};
ghost use Rattle.record_runs.specs.Running.{file_number};
ghost use Rattle.host_answers.specs.Laid.{laid, values_or_zeros};
ghost use Rattle.host_answers.specs.Answers.{size_values, totals_values};

#[unsafe(no_mangle)]
pub extern "C" fn probe_run_plan(
    plan: &[u8],
    lower: &mut [u64],
    upper: &mut [u64],
    res: &mut [u64],
) -> u32
    ensures number { result ≡ file_number plan.now (length lower.old) (length upper.old) }
    ensures lowers { lower.new ≡ filled result (lower_list intact (plan_of plan.now)) lower.old }
    ensures uppers { upper.new ≡ filled result (upper_list intact (plan_of plan.now)) upper.old }
    ensures res { res.new ≡ laid
        (values_or_zeros 3 result (totals_values (totals_of (plan_of plan.now)))) res.old }
{
    host_answers::give_totals(record_runs::run_plan(plan, lower, upper), res)
}

#[unsafe(no_mangle)]
pub extern "C" fn probe_copy_plan(plan: &[u8], out: &mut [u8], size: &mut [u64]) -> u32
    ensures number { result ≡ copy_number plan.now (length out.old) }
    ensures out { out.new ≡ filled result plan.now out.old }
    ensures size { size.new ≡ laid (values_or_zeros 1 result (size_values (length plan.now))) size.old }
{
    host_answers::give_size(record_runs::copy_plan(plan, out), size)
}
