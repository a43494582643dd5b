// The checker, which sees one snapshot after another.
ghost use Rattle.std.specs.Prelude.{◌≡◌, ◌<◌, ◌^◌, [], All, IfOk, OnOk, List, length, map, take};
ghost use Rattle.sg_model.specs.Machine.{Snapshot};
ghost use Rattle.time_checks.specs.Adjusted.{adjusted_checks};
ghost use Rattle.time_checks.specs.AdjustedSeen.{adjusted_seen, all_seen};
ghost use Rattle.time_checks.specs.Within.{IsCheckWithin};
ghost use Rattle.time_checks.specs.Checking.{Sees, Stands, check_at};
ghost use Rattle.time_checks.specs.Events.{latest_since};
ghost use Rattle.time_checks.specs.Violations.{earlier_at};
ghost use Rattle.time_checks.specs.Seen.{violation_seen};

use crate::Violation;
use crate::adjusted::{AdjustedCheck, adjusted_checks};
use crate::latest::Latest;
use crate::recent::{Recent, recalled};
use crate::seeing::{follow, see_changes};
use crate::touching::index_of;
use crate::watches::{Watch, watches_of};
use fan_round::WorkList;
use sg_circuit::{Circuit, FanOut, NetId};
use sg_logic::Value;
use sg_text::NoMemory;
use std::alloc::Global;
use std::marker::Model;

/// The timing checks of a circuit, as far as they have seen snapshots. It keeps the nets of the last snapshot, and of each
/// check's events two or three times.
#[derive(Drop)]
pub struct Checker<'a> {
    checks: Vec<AdjustedCheck<'a>>,
    // what was known of each check's events before it saw anything
    earlier: &'a [Latest],
    // what of its nets each check looks at
    watches: Vec<Watch>,
    // the checks with a terminal on each net
    index: FanOut,
    work: WorkList,
    last: Vec<Value>,
    latest: Vec<Recent>,
    // whether there was a snapshot
    seen: bool,
}

impl<'a> Model for Checker<'a> {
    ghost use Rattle.std.specs.Coded.{codes, coded_ℕ};
    ghost use Rattle.std.specs.Prelude.{◌≡◌, length, map};
    ghost use Rattle.cond_expr.specs.Codes.{coded_cond};
    ghost use Rattle.time_checks.specs.AdjustedSeen.{all_seen};
    ghost use Rattle.time_checks.specs.Checking.{IsReady, Kept};
    ghost use Rattle.time_checks.specs.Watching.{watch_by};

    ghost Value = { Kept };

    ghost coded = { Prim.hlevel (codes, coded_cond coded_ℕ) };

    ghost view = { λ c. record { checks = all_seen c.checks.items; earlier = c.earlier.now; seen = c.seen; last = c.last.items; latest = c.latest.items } };

    ghost invariant = { λ c. IsReady (all_seen c.checks.items) (length c.last.items) c.index c.work c.latest.items × (c.watches.items ≡ map (λ k. watch_by k) (all_seen c.checks.items)) };
}

impl<'a> Checker<'a> {
    // A checker of these checks that has seen nothing, in a circuit of so many nets, where this is known of each check's
    // events before.
    fn of_checks(
        alloc: Global,
        nets: u32,
        checks: Vec<AdjustedCheck<'a>>,
        earlier: &'a [Latest],
    ) -> Result<Checker<'a>, NoMemory>
        requires within { All (λ c. IsCheckWithin (adjusted_seen c) nets) checks.items }
        requires few { length checks.items < 2 ^ 31 }
        ensures checks { IfOk result (λ checker. checker.checks ≡ all_seen checks.entry.items) }
        ensures earlier { IfOk result (λ checker. checker.earlier ≡ earlier.now) }
        ensures nets { IfOk result (λ checker. length checker.last ≡ nets) }
        ensures empty { IfOk result (λ checker. Stands checker []) }
        ensures alone { IfOk result (λ checker. (snapshots : List Snapshot) → Stands checker snapshots → snapshots ≡ []) }
    {
        let watches = watches_of(alloc, &checks)?;
        let index = index_of(alloc, nets, &checks)?;
        let work = WorkList::new(alloc, checks.len() as u32)?;
        let last = vec![in alloc; Value::X; nets as usize]?;
        let latest = recalled(alloc, checks.len(), earlier)?;
        Ok(Checker {
            checks,
            earlier,
            watches,
            index,
            work,
            last,
            latest,
            seen: false,
        })
    }

    /// A checker of a circuit's checks that has seen nothing. Takes memory in proportion to its nets and checks.
    pub fn new(alloc: Global, circuit: &'a Circuit) -> Result<Checker<'a>, NoMemory>
        ensures checks { IfOk result (λ checker. checker.checks ≡ adjusted_checks circuit.now) }
        ensures earlier { IfOk result (λ checker. checker.earlier ≡ []) }
        ensures nets { IfOk result (λ checker. length checker.last ≡ length circuit.now.nets) }
        ensures empty { IfOk result (λ checker. Stands checker []) }
        ensures alone { IfOk result (λ checker. (snapshots : List Snapshot) → Stands checker snapshots → snapshots ≡ []) }
    {
        let nets = circuit.parts().nets.len() as u32;
        let checks = adjusted_checks(alloc, circuit)?;
        Checker::of_checks(alloc, nets, checks, &[])
    }

    /// A checker of a circuit's checks that has seen nothing, where these are the latest events of each check before. At
    /// later times it answers as one that saw them.
    pub fn resume(
        alloc: Global,
        circuit: &'a Circuit,
        latest: &'a [Latest],
    ) -> Result<Checker<'a>, NoMemory>
        requires one_each { length latest.now ≡ length circuit.now.checks }
        ensures checks { IfOk result (λ checker. checker.checks ≡ adjusted_checks circuit.now) }
        ensures earlier { IfOk result (λ checker. checker.earlier ≡ latest.now) }
        ensures nets { IfOk result (λ checker. length checker.last ≡ length circuit.now.nets) }
        ensures empty { IfOk result (λ checker. Stands checker []) }
        ensures alone { IfOk result (λ checker. (snapshots : List Snapshot) → Stands checker snapshots → snapshots ≡ []) }
    {
        let nets = circuit.parts().nets.len() as u32;
        let checks = adjusted_checks(alloc, circuit)?;
        Checker::of_checks(alloc, nets, checks, latest)
    }

    /// The latest events of a check.
    pub fn latest(&self, check: u32) -> Latest
        requires { check < length self.now.checks }
        ensures { (snapshots : List Snapshot) → Stands self.now snapshots → result ≡ latest_since (earlier_at self.now.earlier check) (check_at self.now.checks check) snapshots }
    {
        let recent = self.latest[check as usize];
        Latest {
            refer: recent.refer,
            datum: recent.datum,
        }
    }

    /// Sees a snapshot, and adds the violations that belong to it: in the order of the checks, and for each in the order of its
    /// parts. The changed nets are those whose value may differ from the last snapshot; at the first one any will do.
    ///
    /// After `NoMemory` no list of snapshots is known that it stands for.
    pub fn see(
        &mut self,
        now: u64,
        changed: &[NetId],
        values: &[Value],
        violations: &mut Vec<Violation>,
    ) -> Result<(), NoMemory>
        requires as_many { length values.now ≡ length self.old.last }
        requires nets { All (λ net. net < length values.now) changed.now }
        ensures checks { self.new.checks ≡ self.old.checks }
        ensures earlier { self.new.earlier ≡ self.old.earlier }
        ensures nets { length self.new.last ≡ length self.old.last }
        ensures seen { OnOk result (Sees self.old self.new now changed.now values.now (map (λ v. violation_seen v) violations.old.items) (map (λ v. violation_seen v) violations.new.items)) }
        ensures kept { take (length violations.old.items) violations.new.items ≡ violations.old.items }
    {
        if !self.seen {
            self.last.copy_from_slice(values);
            self.seen = true;
            return Ok(());
        }
        see_changes(
            &self.checks,
            &self.watches,
            &self.index,
            &mut self.work,
            changed,
            &self.last,
            values,
            now,
            &mut self.latest,
            violations,
        )?;
        follow(&mut self.last, values, changed);
        Ok(())
    }
}
