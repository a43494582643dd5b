// The elements that have a changed input.
ghost use Rattle.std.specs.Prelude.{◌≡◌, ◌<◌, ◌≤◌, All, IfOk, false, [], length, nat_lt, replicate, slice_set, true};
ghost use Rattle.std.specs.Vec.{vec_capacity};
ghost use Rattle.fan_round.specs.Lists.{IsListOf};
ghost use Rattle.fan_round.specs.States.{IsIdle};
ghost use Rattle.fan_round.specs.Work.{with_marks, with_readers, AreMarked, AreReaders, IsWorkOf};

use crate::lists::add;
use sg_circuit::FanOut;
use sg_text::NoMemory;
use std::alloc::Global;

/// Which elements are listed, and the list.
#[derive(Drop)]
pub struct WorkList {
    pub marks: Vec<bool>,
    pub list: Vec<u32>,
}

impl WorkList {
    /// A list of none of so many elements, with room for all.
    pub fn new(alloc: Global, elements: u32) -> Result<WorkList, NoMemory>
        ensures { IfOk result (λ work. IsIdle work elements) }
    {
        Ok(WorkList {
            marks: vec![in alloc; false; elements as usize]?,
            list: Vec::with_capacity(alloc, elements as usize)?,
        })
    }
}

// An element is marked, and listed where it wasn't yet.
fn mark(element: u32, marks: &mut [bool], work: &mut Vec<u32>)
    requires element { element < length marks.old }
    requires room { length marks.old ≤ vec_capacity work.old }
    requires marked { AreMarked marks.old work.old.items }
    ensures marks { marks.new ≡ slice_set marks.old element true }
    ensures marked { AreMarked marks.new work.new.items }
    ensures capacity { vec_capacity work.old ≤ vec_capacity work.new }
{
    if marks[element as usize] {
        return;
    }
    marks[element as usize] = true;
    add(work, element);
}

/// These are marked, and listed where they were not yet.
pub fn mark_all(readers: &[u32], marks: &mut [bool], work: &mut Vec<u32>)
    requires readers { All (λ e. e < length marks.old) readers.now }
    requires room { length marks.old ≤ vec_capacity work.old }
    requires marked { AreMarked marks.old work.old.items }
    ensures marks { marks.new ≡ with_marks readers.now marks.old }
    ensures marked { AreMarked marks.new work.new.items }
    ensures capacity { vec_capacity work.old ≤ vec_capacity work.new }
{
    for element in readers {
        mark(*element, marks, work);
    }
}

// The elements that read one of these nets are marked and listed.
fn mark_readers(changed: &[u32], fan: &FanOut, marks: &mut [bool], work: &mut Vec<u32>)
    requires nets { All (λ net. net < length fan.now) changed.now }
    requires readers { AreReaders fan.now (length marks.old) }
    requires room { length marks.old ≤ vec_capacity work.old }
    requires marked { AreMarked marks.old work.old.items }
    ensures marks { marks.new ≡ with_readers fan.now changed.now marks.old }
    ensures marked { AreMarked marks.new work.new.items }
    ensures capacity { vec_capacity work.old ≤ vec_capacity work.new }
{
    for net in changed {
        mark_all(fan.of(*net), marks, work);
    }
}

/// The elements with an input that changed are listed, each once, where none was listed before.
pub fn list_work(changed: &[u32], fan: &FanOut, marks: &mut [bool], work: &mut Vec<u32>)
    requires nets { All (λ net. net < length fan.now) changed.now }
    requires readers { AreReaders fan.now (length marks.old) }
    requires room { length marks.old ≤ vec_capacity work.old }
    requires clear { marks.old ≡ replicate (length marks.old) false }
    requires empty { work.old.items ≡ [] }
    ensures work { IsWorkOf fan.now changed.now (length marks.old) work.new.items }
    ensures marked { AreMarked marks.new work.new.items }
    ensures most { length work.new.items ≤ length marks.old }
    ensures capacity { vec_capacity work.old ≤ vec_capacity work.new }
{
    mark_readers(changed, fan, marks, work);
}

/// All of so many elements are listed, where none was listed before.
pub fn list_every(work: &mut Vec<u32>, count: u32)
    requires room { count ≤ vec_capacity work.old }
    requires empty { work.old.items ≡ [] }
    ensures work { IsListOf (λ e. nat_lt e count) work.new.items }
    ensures count { length work.new.items ≡ count }
    ensures capacity { vec_capacity work.old ≤ vec_capacity work.new }
{
    for element in 0..count {
        add(work, element);
    }
}

/// No element is marked any more, and none is listed.
pub fn clear_work(marks: &mut [bool], work: &mut Vec<u32>)
    requires { AreMarked marks.old work.old.items }
    ensures marks { marks.new ≡ replicate (length marks.old) false }
    ensures work { work.new.items ≡ [] }
    ensures capacity { vec_capacity work.old ≤ vec_capacity work.new }
{
    for element in work.iter() {
        marks[*element as usize] = false;
    }
    work.clear();
}
