// What the stimulus does at a time.
ghost use Rattle.std.specs.Prelude.{◌≡◌, ◌≢◌, ℕ, ◌<◌, ◌≤◌, [], IfNone, IfSome, OnOk, drop, length, map};
ghost use Rattle.sg_stimulus.specs.Applied.{StepsRise};
ghost use Rattle.sg_stimulus.specs.Seen.{set_seen, stimulus_seen};
ghost use Rattle.sg_stimulus.specs.Stimulus.{sets_at};
ghost use Rattle.sim_times.specs.Steps.{SetNothing, SetsFirst, Splits};

use sg_stimulus::{Set, StimStep, Stimulus};
use sg_text::NoMemory;

// How many steps come before a time.
fn steps_before(stimulus: &Stimulus, time: u64) -> usize
    requires { StepsRise (stimulus_seen stimulus.now).steps }
    ensures { Splits stimulus.now.steps.items time result }
{
    stimulus.steps.partition_point(|s| s.time < time)
}

/// What the stimulus sets at a time.
pub fn sets_of<'a>(stimulus: &'a Stimulus, now: u64) -> &'a [Set]
    requires { StepsRise (stimulus_seen stimulus.now).steps }
    ensures { map (λ c. set_seen c) result.now ≡ sets_at (stimulus_seen stimulus.now).steps now }
{
    match stimulus.steps.get(steps_before(stimulus, now)) {
        Some(step) if step.time == now => &step.sets,
        _ => &[],
    }
}

// The steps behind so many.
fn steps_behind(steps: &[StimStep], count: usize) -> &[StimStep]
    requires { count ≤ length steps.now }
    ensures { result.now ≡ drop count steps.now }
{
    &steps[count..]
}

// The time of the first step that sets anything.
fn first_setting(steps: &[StimStep]) -> Option<u64>
    ensures some { IfSome result (λ time. SetsFirst steps.now time) }
    ensures none { IfNone result (SetNothing steps.now) }
{
    for step in steps {
        if !step.sets.is_empty() {
            return Some(step.time);
        }
    }
    None
}

/// The least time after now at which anything is set, or else the latest that is asked for.
pub fn next_step(stimulus: &Stimulus, now: u64, latest: u64) -> u64
    requires rising { StepsRise (stimulus_seen stimulus.now).steps }
    requires now { now < latest }
    ensures later { now < result }
    ensures within { result ≤ latest }
    ensures quiet { (t : ℕ) → now < t → t < result → sets_at (stimulus_seen stimulus.now).steps t ≡ [] }
    ensures set { result < latest → sets_at (stimulus_seen stimulus.now).steps result ≢ [] }
{
    let from = steps_before(stimulus, now + 1);
    let rest = steps_behind(&stimulus.steps, from);
    match first_setting(rest) {
        Some(time) => time.min(latest),
        None => latest,
    }
}

/// These and no others are handed in.
pub fn hand_in(handed: &mut Vec<Set>, sets: &[Set]) -> Result<(), NoMemory>
    ensures { OnOk result (handed.new.items ≡ sets.now) }
{
    handed.clear();
    handed.extend_from_slice(sets)?;
    Ok(())
}
