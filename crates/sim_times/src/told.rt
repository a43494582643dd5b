// What was told last of the nets, and which of them may differ from it.
ghost use Rattle.std.specs.Prelude.{◌≡◌, ℕ, ◌++◌, ◌^◌, ◌<◌, All, [], ◌∷◌, IfOk, OnErr, OnOk, length, map, true};
ghost use Rattle.fan_round.specs.Nets.{differs, AreChanged};
ghost use Rattle.sim_times.specs.Runs.{last_after};
ghost use Rattle.sim_times.specs.Told.{IsTold, changes_in};
ghost use Rattle.sim_times.specs.Watching.{AreDifferences, net_change};
ghost use Rattle.fan_round.specs.Work.{AreMarked, mark_at};

use fan_round::{WorkList, clear_work, mark_all};
use sg_logic::Value;
use sg_text::NoMemory;
use std::alloc::Global;
use time_checks::Change;

/// The values of all nets as they were told last, and the nets that were touched since then.
#[derive(Drop)]
pub struct Told {
    pub values: Vec<Value>,
    pub touched: WorkList,
}

impl Told {
    /// These values were told, and no net was touched.
    pub fn new(alloc: Global, values: &[Value]) -> Result<Told, NoMemory>
        requires { length values.now < 2 ^ 32 }
        ensures told { IfOk result (λ told. IsTold told values.now) }
        ensures values { IfOk result (λ told. told.values.items ≡ values.now) }
    {
        Ok(Told {
            values: Vec::from_slice(alloc, values)?,
            touched: WorkList::new(alloc, values.len() as u32)?,
        })
    }
}

/// The nets that a round changed are touched.
pub fn touch(told: &mut Told, changed: &[u32], before: &[Value], values: &[Value])
    requires told { IsTold told.old before.now }
    requires changed { AreChanged before.now values.now changed.now }
    ensures told { IsTold told.new values.now }
    ensures values { told.new.values.items ≡ told.old.values.items }
{
    let _ = before;
    let _ = values;
    mark_all(changed, &mut told.touched.marks, &mut told.touched.list);
}

// A net is noted, if its value differs from what was told.
fn note(
    told: &[Value],
    values: &[Value],
    net: u32,
    changes: &mut Vec<Change>,
) -> Result<(), NoMemory>
    requires net { net < length values.now }
    requires as_many { length told.now ≡ length values.now }
    ensures { OnOk result (map net_change changes.new.items ≡ map net_change changes.old.items ++ changes_in told.now values.now (net ∷ [])) }
{
    let from = told[net as usize];
    let to = values[net as usize];
    if from != to {
        changes.push(Change { net, from, to })?;
    }
    Ok(())
}

// The touched nets whose values differ from what was told are noted.
fn note_all(
    told: &[Value],
    values: &[Value],
    touched: &[u32],
    changes: &mut Vec<Change>,
) -> Result<(), NoMemory>
    requires nets { All (λ net. net < length values.now) touched.now }
    requires as_many { length told.now ≡ length values.now }
    requires empty { changes.old.items ≡ [] }
    ensures { OnOk result (map net_change changes.new.items ≡ changes_in told.now values.now touched.now) }
{
    for net in touched {
        note(told, values, *net, changes)?;
    }
    Ok(())
}

// What was told of these nets is their values as they are.
fn settle_told(told: &mut [Value], values: &[Value], touched: &[u32], marks: &[bool])
    requires nets { All (λ net. net < length values.now) touched.now }
    requires as_many { length told.old ≡ length values.now }
    requires marked { AreMarked marks.now touched.now }
    requires others { (net : ℕ) → differs told.old values.now net ≡ true → mark_at marks.now net ≡ true }
    ensures { told.new ≡ values.now }
{
    let _ = marks;
    for net in touched {
        told[*net as usize] = values[*net as usize];
    }
}

/// The nets whose values differ from what was told, which from then on is told.
///
/// After `NoMemory` the same is told as before.
pub fn tell_changes(
    told: &mut Told,
    values: &[Value],
    changes: &mut Vec<Change>,
) -> Result<(), NoMemory>
    requires { IsTold told.old values.now }
    ensures changes { OnOk result (AreDifferences told.old.values.items values.now (map net_change changes.new.items)) }
    ensures within { OnOk result (All (λ c. c.net < length values.now) changes.new.items) }
    ensures told { OnOk result (IsTold told.new values.now) }
    ensures values { OnOk result (told.new.values.items ≡ values.now) }
    ensures same { OnErr result (told.new.values.items ≡ told.old.values.items) }
{
    changes.clear();
    note_all(&told.values, values, &told.touched.list, changes)?;
    settle_told(
        &mut told.values,
        values,
        &told.touched.list,
        &told.touched.marks,
    );
    clear_work(&mut told.touched.marks, &mut told.touched.list);
    Ok(())
}

/// At the end of a time its changes are told, and if there is any it is the last that changed.
///
/// After `NoMemory` what was told and the last time are as before.
pub fn tell_time_changes(
    told: &mut Told,
    values: &[Value],
    changes: &mut Vec<Change>,
    last: &mut u64,
    now: u64,
) -> Result<(), NoMemory>
    requires { IsTold told.old values.now }
    ensures changes { OnOk result (AreDifferences told.old.values.items values.now (map net_change changes.new.items)) }
    ensures within { OnOk result (All (λ c. c.net < length values.now) changes.new.items) }
    ensures told { OnOk result (IsTold told.new values.now) }
    ensures values { OnOk result (told.new.values.items ≡ values.now) }
    ensures last { OnOk result (last.new ≡ last_after now changes.new.items last.old) }
    ensures same { OnErr result (told.new.values.items ≡ told.old.values.items) }
    ensures same_last { OnErr result (last.new ≡ last.old) }
{
    tell_changes(told, values, changes)?;
    if !changes.is_empty() {
        *last = now;
    }
    Ok(())
}
