// The limits of timing checks, set in a circuit that is open.
ghost use Rattle.std.specs.Prelude.{ℕ, ◌≡◌, ◌<◌, ◌^◌, [], All, IsTrue, length, slice_index_or};
ghost use Rattle.sg_circuit.specs.Signals.{takes_lates};
ghost use Rattle.sg_circuit.specs.declared.checks.CheckTiming.{CheckTiming as TimingSeen};
ghost use Rattle.annotation_setting.specs.Limits.{with_all_limits, with_limits_at, AreSmallAt};

use circuit_open::OpenCircuit;
use sg_circuit::CheckKind;

fn has_two(kind: CheckKind) -> bool
    ensures { result ≡ takes_lates kind }
{
    matches!(kind, CheckKind::Setuphold | CheckKind::Recrem)
}

fn are_same(one: &[i64; 2], other: &[i64; 2]) -> bool
    ensures same { IsTrue result → one.now ≡ other.now }
    ensures two { length one.now ≡ 2 }
{
    one[0] == other[0] && one[1] == other[1]
}

fn set_check(opened: &mut OpenCircuit, check: u32, limits: &[i64; 2])
    requires check { check < length opened.old.circuit.check_timings }
    requires small { AreSmallAt opened.old.circuit check limits.now }
    ensures { opened.new ≡ record { circuit = with_limits_at check limits.now opened.old.circuit; room = opened.old.room } }
{
    let two = has_two(opened.parts().check_timings[check as usize].kind);
    opened.set_limit(check, 0, limits[0]);
    if two {
        opened.set_limit(check, 1, limits[1]);
    }
}

// The limits of a check, if they are others than it has.
fn set_others(opened: &mut OpenCircuit, check: u32, limits: &[i64; 2])
    requires check { check < length opened.old.circuit.check_timings }
    requires small { AreSmallAt opened.old.circuit check limits.now }
    ensures set { opened.new ≡ record { circuit = with_limits_at check limits.now opened.old.circuit; room = opened.old.room } }
    ensures two { (d : TimingSeen) → length (slice_index_or opened.old.circuit.check_timings check d).limits ≡ 2 }
{
    if are_same(&opened.parts().check_timings[check as usize].limits, limits) {
        return;
    }
    set_check(opened, check, limits);
}

/// Sets the limits of all timing checks.
pub fn set_limits(opened: &mut OpenCircuit, limits: &[[i64; 2]])
    requires few { length opened.old.circuit.check_timings < 2 ^ 31 }
    requires each_check { length limits.now ≡ length opened.old.circuit.check_timings }
    requires small { (check : ℕ) → check < length limits.now → AreSmallAt opened.old.circuit check (slice_index_or limits.now check []) }
    ensures set { opened.new.circuit ≡ with_all_limits limits.now opened.old.circuit }
    ensures two { All (λ t. length t.limits ≡ 2) opened.old.circuit.check_timings }
{
    for (check, new) in limits.iter().enumerate() {
        set_others(opened, check as u32, new);
    }
}
