//! The calls that inputs and sinks in memory are set to fail.
ghost use Rattle.std.specs.Prelude.{◌≡◌, ◌↔◌, IsTrue};
ghost use Rattle.std.specs.Bool.{OnTrue, OnFalse};
ghost use Rattle.outside.specs.Counts.{next_call, raised, FailsNext};

/// Counts a call. If it is one of those that are to fail, it counts a fault too and returns true.
pub(crate) fn fails(calls: &mut u64, faults: &mut u64, failing: &[u64]) -> bool
    ensures exact { IsTrue result ↔ FailsNext failing.now calls.old }
    ensures call { calls.new ≡ next_call calls.old }
    ensures fault { OnTrue result (faults.new ≡ raised faults.old) }
    ensures none { OnFalse result (faults.new ≡ faults.old) }
{
    *calls = calls.saturating_add(1);
    let failed = failing.contains(calls);
    if failed {
        *faults = faults.saturating_add(1);
    }
    failed
}
