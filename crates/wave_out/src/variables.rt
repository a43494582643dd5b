// The variables of a dump, in the order of its header, and those that have each net.
ghost use Rattle.std.specs.Prelude.{◌≡◌, ◌++◌, ◌<◌, ◌≤◌, ◌^◌, ℕ, List, [], All, IfOk, OnOk, length, map, replicate};
ghost use Rattle.sg_circuit.specs.FanOut.{IsFanOut};
ghost use Rattle.sg_circuit.specs.Pins.{pins_from};
ghost use Rattle.sg_circuit.specs.Seen.{circuit_seen};
ghost use Rattle.wave_out.specs.Scopes.{variables_at, variables_of, visits};
ghost use Rattle.wave_out.specs.Walk.{bit_pins, HasBits, IsVisit};

use crate::scopes::Visit;
use sg_circuit::{Circuit, FanOut, NetId, Parts, Pin, Variable, add_pins};
use sg_text::NoMemory;
use std::alloc::Global;

// The nets of the k-th variable's bits stand under its number.
fn push_bits(pins: &mut Vec<Pin>, k: u32, bits: &[NetId]) -> Result<(), NoMemory>
    ensures { OnOk result (pins.new.items ≡ pins.old.items ++ bit_pins k bits.now) }
{
    for net in bits {
        pins.push(Pin {
            net: k,
            element: *net,
        })?;
    }
    Ok(())
}

// The pins of variables, where k stand before; and how many do then.
fn push_variables(pins: &mut Vec<Pin>, k: u32, variables: &[Variable]) -> Result<u32, NoMemory>
    ensures { IfOk result (λ next. (bits : List (List ℕ)) → HasBits bits k pins.old.items → HasBits (bits ++ map (λ v. v.bits.items) variables.now) next pins.new.items) }
{
    let mut next = k;
    for variable in variables {
        push_bits(pins, next, &variable.bits)?;
        next = next.checked_add(1).ok_or(NoMemory)?;
    }
    Ok(next)
}

// The pins of a visit's variables, where k stand before; and how many do then.
fn push_entered(pins: &mut Vec<Pin>, parts: &Parts, k: u32, visit: Visit) -> Result<u32, NoMemory>
    requires { IsVisit (length parts.now.scopes.items) visit }
    ensures { IfOk result (λ next. (bits : List (List ℕ)) → HasBits bits k pins.old.items → HasBits (bits ++ map (λ x. x.bits) (variables_at (circuit_seen parts.now) visit)) next pins.new.items) }
{
    match visit {
        Visit::Enters(scope) => push_variables(pins, k, &parts.scopes[scope as usize].variables),
        Visit::Leaves => Ok(k),
    }
}

/// How many variables a circuit has whose scopes are visited so, and the nets of each one's bits, in one table: a run reads
/// them at each time.
///
/// `NoMemory` where there is no memory for it, or where there are 2^32 variables or bits.
pub fn bits_of(alloc: Global, circuit: &Circuit, order: &[Visit]) -> Result<(u32, FanOut), NoMemory>
    requires { order.now ≡ visits circuit.now }
    ensures count { IfOk result (λ made. made.0 ≡ length made.1) }
    ensures bits { IfOk result (λ made. made.1 ≡ map (λ x. x.bits) (variables_of circuit.now)) }
{
    let parts = circuit.parts();
    let mut pins = Vec::new(alloc);
    let mut count: u32 = 0;
    for visit in order {
        count = push_entered(&mut pins, parts, count, *visit)?;
    }
    let bits = FanOut::of_pins(alloc, count, &pins)?;
    Ok((count, bits))
}

// The pins of the variables, by their numbers.
fn push_pins(
    pins: &mut Vec<Pin>,
    seen: &mut [u32],
    count: u32,
    variables: &FanOut,
) -> Result<(), NoMemory>
    requires nets { All (λ bits. All (λ n. n < length seen.old) bits) variables.now }
    requires count { count ≡ length variables.now }
    requires few { count < 2 ^ 31 }
    requires none { pins.old.items ≡ [] }
    requires fresh { seen.old ≡ replicate (length seen.old) 0 }
    ensures { OnOk result (pins.new.items ≡ pins_from 0 variables.now) }
{
    for k in 0..count {
        add_pins(pins, seen, k, variables.of(k))?;
    }
    Ok(())
}

/// Of so many variables those that have each of so many nets. It takes time and memory in proportion to the nets and the
/// bits.
pub fn index_of(
    alloc: Global,
    nets: u32,
    count: u32,
    variables: &FanOut,
) -> Result<FanOut, NoMemory>
    requires nets { All (λ bits. All (λ n. n < nets) bits) variables.now }
    requires count { count ≡ length variables.now }
    requires few { count < 2 ^ 31 }
    ensures variables { IfOk result (λ index. IsFanOut variables.now index) }
    ensures nets { IfOk result (λ index. length index ≡ nets) }
{
    let mut seen = vec![in alloc; 0; nets as usize]?;
    let mut pins = Vec::new(alloc);
    push_pins(&mut pins, &mut seen, count, variables)?;
    FanOut::of_pins(alloc, nets, &pins)
}
