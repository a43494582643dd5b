// What a writer keeps of the variables of its circuit, and what it adds for a call.
ghost use Rattle.std.specs.Prelude.{◌≡◌, ◌==◌, ◌≤◌, [], IfOk, Some, None, if◌then◌else◌, length, map};
ghost use Rattle.sim_times.specs.Watching.{net_change};
ghost use Rattle.wave_out.specs.Changes.{text_if, IsBlock, IsText};
ghost use Rattle.wave_out.specs.Lines.{first_text};
ghost use Rattle.wave_out.specs.Scopes.{visits, variables_of};
ghost use Rattle.wave_out.specs.Shown.{IsShown};
ghost use Rattle.wave_out.specs.Vcd.{time_line};

use crate::blocks::{push_first, push_time};
use crate::changes::push_changes;
use crate::lines::{Line, ready_lines};
use crate::marks::Marks;
use crate::scopes::Visit;
use crate::variables::{bits_of, index_of};
use cond_expr::Nets;
use sg_circuit::{Circuit, FanOut};
use sg_text::NoMemory;
use std::alloc::{AllocError, Global};
use time_checks::Change;

/// The variables in the order of the header.
#[derive(Drop)]
pub struct Shown {
    /// How many there are.
    pub count: u32,
    /// The nets of each one's bits.
    pub variables: FanOut,
    /// The line of each one.
    pub lines: Vec<Line>,
    /// The variables that have each net.
    pub index: FanOut,
    /// The variables that changed in a call, while it is served.
    pub marks: Marks,
}

/// The variables of a circuit whose scopes are visited so.
///
/// `NoMemory` where there is no memory for it, or where there are 2^31 variables or 2^32 bits.
pub fn shown_of(alloc: Global, circuit: &Circuit, order: &[Visit]) -> Result<Shown, NoMemory>
    requires { order.now ≡ visits circuit.now }
    ensures { IfOk result (λ s. IsShown circuit.now s) }
{
    let (count, variables) = bits_of(alloc, circuit, order)?;
    if count >= 1 << 31 {
        return Err(NoMemory);
    }
    let lines = ready_lines(alloc, count, &variables)?;
    let index = index_of(alloc, circuit.parts().nets.len() as u32, count, &variables)?;
    let marks = Marks::new(alloc, count)?;
    Ok(Shown {
        count,
        variables,
        lines,
        index,
        marks,
    })
}

// The line of the end, unless that time was written.
fn push_last(text: &mut Vec<u8>, last: u64, time: u64) -> Result<bool, AllocError>
    requires { text.old.items ≡ [] }
    ensures { IfOk result (λ some. text_if some text.new.items ≡ (if last == time then None else Some (time_line time))) }
{
    if last == time {
        return Ok(false);
    }
    push_time(text, time)?;
    Ok(true)
}

// The block of a later time.
fn push_changed<N: Nets>(
    text: &mut Vec<u8>,
    circuit: &Circuit,
    shown: &mut Shown,
    time: u64,
    changed: &[Change],
    nets: &N,
) -> Result<bool, AllocError>
    requires empty { text.old.items ≡ [] }
    requires shown { IsShown circuit.now shown.old }
    requires values { length circuit.now.nets ≤ length (N.values nets.now) }
    ensures text { IfOk result (λ some. IsBlock time (map (λ x. x.bits) (variables_of circuit.now)) (map net_change changed.now) (N.values nets.now) (text_if some text.new.items)) }
    ensures shown { IsShown circuit.now shown.new }
{
    let count = circuit.parts().nets.len() as u32;
    push_changes(
        text,
        time,
        &shown.lines,
        &shown.variables,
        count,
        &shown.index,
        &mut shown.marks,
        changed,
        nets,
    )
}

// What a call adds after a time that was written.
fn push_later<N: Nets>(
    text: &mut Vec<u8>,
    circuit: &Circuit,
    shown: &mut Shown,
    last: u64,
    time: u64,
    changed: &[Change],
    nets: &N,
) -> Result<bool, AllocError>
    requires empty { text.old.items ≡ [] }
    requires shown { IsShown circuit.now shown.old }
    requires values { length circuit.now.nets ≤ length (N.values nets.now) }
    ensures text { IfOk result (λ some. IsText (Some last) time (map (λ x. x.bits) (variables_of circuit.now)) (map net_change changed.now) (N.values nets.now) (text_if some text.new.items)) }
    ensures shown { IsShown circuit.now shown.new }
{
    if changed.is_empty() {
        return push_last(text, last, time);
    }
    push_changed(text, circuit, shown, time, changed, nets)
}

// The block of the first time.
fn push_all<N: Nets>(
    text: &mut Vec<u8>,
    circuit: &Circuit,
    shown: &Shown,
    time: u64,
    nets: &N,
) -> Result<bool, AllocError>
    requires empty { text.old.items ≡ [] }
    requires shown { IsShown circuit.now shown.now }
    requires values { length circuit.now.nets ≤ length (N.values nets.now) }
    ensures { IfOk result (λ some. text_if some text.new.items ≡ Some (first_text time (map (λ x. x.bits) (variables_of circuit.now)) (N.values nets.now))) }
{
    push_first(
        text,
        time,
        shown.count,
        &shown.lines,
        &shown.variables,
        nets,
    )?;
    Ok(true)
}

/// Makes what a call adds after the time that was written last, if any, and tells whether it adds something.
pub fn make_text<N: Nets>(
    text: &mut Vec<u8>,
    circuit: &Circuit,
    shown: &mut Shown,
    last: Option<u64>,
    time: u64,
    changed: &[Change],
    nets: &N,
) -> Result<bool, AllocError>
    requires shown { IsShown circuit.now shown.old }
    requires values { length circuit.now.nets ≤ length (N.values nets.now) }
    ensures text { IfOk result (λ some. IsText last time (map (λ x. x.bits) (variables_of circuit.now)) (map net_change changed.now) (N.values nets.now) (text_if some text.new.items)) }
    ensures shown { IsShown circuit.now shown.new }
{
    text.clear();
    match last {
        Some(last) => push_later(text, circuit, shown, last, time, changed, nets),
        None => push_all(text, circuit, shown, time, nets),
    }
}
