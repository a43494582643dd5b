// A later block, from the nets that changed.
ghost use Rattle.std.specs.Prelude.{◌≡◌, ◌++◌, [], ◌+◌, ◌*◌, ◌<◌, ◌≤◌, ◌^◌, All, IfOk, OnOk, if◌then◌else◌, length, map, nat_lt};
ghost use Rattle.std.specs.List.{filter};
ghost use Rattle.sg_circuit.specs.FanOut.{readers_at, IsFanOut};
ghost use Rattle.fan_round.specs.Work.{with_marks, with_readers, AreReaders};
ghost use Rattle.sim_times.specs.Watching.{net_change};
ghost use Rattle.wave_out.specs.Changes.{text_if, work_text, IsBlock};
ghost use Rattle.wave_out.specs.Lines.{lines_of};
ghost use Rattle.wave_out.specs.Listing.{HasListed};
ghost use Rattle.wave_out.specs.Marks.{bools, listed, seen, trues, AreClear, AreMarks, IsDone};
ghost use Rattle.wave_out.specs.Ready.{AreLines};

use crate::blocks::push_time;
use crate::lines::{Line, push_line};
use crate::marks::{Marks, take_bit};
use cond_expr::Nets;
use sg_circuit::{FanOut, NetId};
use std::alloc::AllocError;
use time_checks::Change;

fn mark_all(marks: &mut Marks, variables: &[u32])
    requires within { All (λ k. k < 64 * length marks.old.words.items) variables.now }
    requires marks { AreMarks marks.old }
    ensures marks { AreMarks marks.new }
    ensures seen { seen marks.new.words.items ≡ with_marks variables.now (seen marks.old.words.items) }
    ensures words { length marks.new.words.items ≡ length marks.old.words.items }
{
    for k in variables {
        marks.mark(*k);
    }
}

// Marks the variables that have a net, if it is one of so many.
fn mark_net(marks: &mut Marks, index: &FanOut, count: u32, net: NetId)
    requires count { count ≡ length index.now }
    requires within { AreReaders index.now (64 * length marks.old.words.items) }
    requires marks { AreMarks marks.old }
    ensures marks { AreMarks marks.new }
    ensures seen { seen marks.new.words.items ≡ (if nat_lt net count then with_marks (readers_at index.now net) (seen marks.old.words.items) else seen marks.old.words.items) }
    ensures words { length marks.new.words.items ≡ length marks.old.words.items }
{
    if net < count {
        mark_all(marks, index.of(net));
    }
}

// Marks the variables that have one of the nets that changed, of so many nets.
fn mark_changed(marks: &mut Marks, index: &FanOut, count: u32, changed: &[Change])
    requires count { count ≡ length index.now }
    requires within { AreReaders index.now (64 * length marks.old.words.items) }
    requires marks { AreMarks marks.old }
    ensures marks { AreMarks marks.new }
    ensures seen { seen marks.new.words.items ≡ with_readers index.now (filter (λ n. nat_lt n count) (map (λ c. c.net) changed.now)) (seen marks.old.words.items) }
    ensures words { length marks.new.words.items ≡ length marks.old.words.items }
{
    for change in changed {
        mark_net(marks, index, count, change.net);
    }
}

// Adds the lines of the variables that a word marks, which are numbered from the first on.
fn push_word<N: Nets>(
    text: &mut Vec<u8>,
    first: u32,
    word: u64,
    lines: &[Line],
    variables: &FanOut,
    nets: &N,
) -> Result<(), AllocError>
    requires lines { AreLines variables.now lines.now }
    requires variables { All (λ bits. All (λ n. n < length (N.values nets.now)) bits) variables.now }
    requires few { length variables.now < 2 ^ 32 }
    requires within { All (λ k. k < length variables.now) (trues first (bools 64 word)) }
    ensures { OnOk result (text.new.items ≡ text.old.items ++ lines_of variables.now (trues first (bools 64 word)) (N.values nets.now)) }
{
    let mut left = word;
    while left != 0 {
        let (bit, rest) = take_bit(left);
        push_line(text, first + bit, lines, variables, nets)?;
        left = rest;
    }
    Ok(())
}

// Adds the lines of the variables of a group that are marked, and takes their marks.
fn push_group<N: Nets>(
    text: &mut Vec<u8>,
    group: usize,
    marks: &mut Marks,
    lines: &[Line],
    variables: &FanOut,
    nets: &N,
) -> Result<(), AllocError>
    requires lines { AreLines variables.now lines.now }
    requires variables { All (λ bits. All (λ n. n < length (N.values nets.now)) bits) variables.now }
    requires few { length variables.now < 2 ^ 32 }
    requires group { group < length marks.old.groups.items }
    requires marks { AreMarks marks.old }
    requires done { IsDone group marks.old }
    requires within { All (λ k. k < length variables.now) (listed marks.old) }
    ensures listed { OnOk result (HasListed variables.now (N.values nets.now) (group + 1) marks.old marks.new text.old.items text.new.items) }
    ensures marks { AreMarks marks.new }
    ensures words { length marks.new.words.items ≡ length marks.old.words.items }
    ensures groups { length marks.new.groups.items ≡ length marks.old.groups.items }
{
    while marks.groups[group] != 0 {
        let (first, word) = marks.take_word(group);
        push_word(text, first, word, lines, variables, nets)?;
    }
    Ok(())
}

// Adds the lines of the variables that are marked, in their order, and takes their marks.
fn push_marked<N: Nets>(
    text: &mut Vec<u8>,
    marks: &mut Marks,
    lines: &[Line],
    variables: &FanOut,
    nets: &N,
) -> Result<(), AllocError>
    requires lines { AreLines variables.now lines.now }
    requires variables { All (λ bits. All (λ n. n < length (N.values nets.now)) bits) variables.now }
    requires few { length variables.now < 2 ^ 32 }
    requires marks { AreMarks marks.old }
    requires within { All (λ k. k < length variables.now) (listed marks.old) }
    ensures text { OnOk result (text.new.items ≡ text.old.items ++ lines_of variables.now (listed marks.old) (N.values nets.now)) }
    ensures done { OnOk result (IsDone (length marks.new.groups.items) marks.new) }
    ensures marks { AreMarks marks.new }
    ensures words { length marks.new.words.items ≡ length marks.old.words.items }
{
    for group in 0..marks.groups.len() {
        push_group(text, group, marks, lines, variables, nets)?;
    }
    Ok(())
}

// Adds the block of the variables that are marked, and tells whether there are any.
fn push_block<N: Nets>(
    text: &mut Vec<u8>,
    time: u64,
    marks: &mut Marks,
    lines: &[Line],
    variables: &FanOut,
    nets: &N,
) -> Result<bool, AllocError>
    requires empty { text.old.items ≡ [] }
    requires lines { AreLines variables.now lines.now }
    requires variables { All (λ bits. All (λ n. n < length (N.values nets.now)) bits) variables.now }
    requires few { length variables.now < 2 ^ 32 }
    requires marks { AreMarks marks.old }
    requires within { All (λ k. k < length variables.now) (listed marks.old) }
    ensures block { IfOk result (λ some. text_if some text.new.items ≡ work_text time variables.now (N.values nets.now) (listed marks.old)) }
    ensures done { OnOk result (IsDone (length marks.new.groups.items) marks.new) }
    ensures marks { AreMarks marks.new }
    ensures words { length marks.new.words.items ≡ length marks.old.words.items }
{
    push_time(text, time)?;
    let before = text.len();
    push_marked(text, marks, lines, variables, nets)?;
    Ok(before < text.len())
}

/// Adds the block of a later time to nothing, and tells whether some variable changed; where none did, the text is no block.
/// The variables have these lines and bits, and the index has those of each of so many nets. Its cost is in proportion to
/// the changes, and to the groups of 4096 variables.
pub fn push_changes<N: Nets>(
    text: &mut Vec<u8>,
    time: u64,
    lines: &[Line],
    variables: &FanOut,
    count: u32,
    index: &FanOut,
    marks: &mut Marks,
    changed: &[Change],
    nets: &N,
) -> Result<bool, AllocError>
    requires empty { text.old.items ≡ [] }
    requires lines { AreLines variables.now lines.now }
    requires variables { All (λ bits. All (λ n. n < count) bits) variables.now }
    requires few { length variables.now < 2 ^ 32 }
    requires index { IsFanOut variables.now index.now }
    requires count { count ≡ length index.now }
    requires values { count ≤ length (N.values nets.now) }
    requires clear { AreClear (length variables.now) marks.old }
    ensures block { IfOk result (λ some. IsBlock time variables.now (map net_change changed.now) (N.values nets.now) (text_if some text.new.items)) }
    ensures clear { AreClear (length variables.now) marks.new }
{
    mark_changed(marks, index, count, changed);
    match push_block(text, time, marks, lines, variables, nets) {
        Ok(some) => Ok(some),
        Err(error) => {
            // some marks are left where a line found no memory
            marks.clear();
            Err(error)
        }
    }
}
