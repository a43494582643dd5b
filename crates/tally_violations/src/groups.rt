// Violations by instance and check.
ghost use Rattle.std.specs.Prelude.{◌≡◌, ◌≤◌, OnOk, length};
ghost use Rattle.std.specs.List.{prefix_len};
ghost use Rattle.std.specs.Int.{int_max};
ghost use Rattle.tally_violations.specs.Figures.{worst};
ghost use Rattle.tally_violations.specs.Groups.{IsInOrder, is_same};

use crate::violations::Violation;
use sg_text::NoMemory;

/// Orders violations by their instances, and then by their checks; those of one instance and one check stand as before.
pub fn order(violations: &mut Vec<Violation<'_>>) -> Result<(), NoMemory>
    ensures { OnOk result (IsInOrder violations.old.items violations.new.items) }
{
    violations.sort_by_key(|violation| (violation.instance, violation.check))?;
    Ok(())
}

fn is_same(one: &Violation<'_>, other: &Violation<'_>) -> bool
    ensures { result ≡ is_same one.now other.now }
{
    one.instance == other.instance && one.check == other.check
}

/// How many violations at the front are of one group with another.
pub fn same_len(one: &Violation<'_>, others: &[Violation<'_>]) -> usize
    ensures size { result ≡ prefix_len (λ v. is_same one.now v) others.now }
    ensures within { result ≤ length others.now }
{
    others
        .iter()
        .take_while(|other| is_same(one, other))
        .count()
}

/// The most by which a limit was missed: by the first or by the others.
pub fn worst(first: &Violation<'_>, others: &[Violation<'_>]) -> i64
    ensures { result ≡ worst first.now.short others.now }
{
    let mut worst = first.short;
    for violation in others {
        worst = worst.max(violation.short);
    }
    worst
}
