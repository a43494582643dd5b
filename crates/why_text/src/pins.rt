// Instances and their pins.
ghost use Rattle.std.specs.Prelude.{◌≡◌, ◌≤◌, ◌<◌, ◌^◌, ◌++◌, ◌==◌, ◌-ℤ◌, ◌+◌, All, IfOk, OnOk, Some, codes, is_some, length, map, nat_abs, position, [], IfSome};
ghost use Rattle.sg_circuit.specs.Circuit.{element_at, scope_at};
ghost use Rattle.sg_circuit.specs.Closed.{width_of};
ghost use Rattle.sg_circuit.specs.Seen.{variable_seen};
ghost use Rattle.written_model.specs.Names.{bit_at, index_at as index_in};
ghost use Rattle.run_report.specs.Report.{net_text};
ghost use Rattle.why_text.specs.Pins.{instance_text, name_or, named_in, pin_text, way_text};

use run_report::{push_bit, push_net, push_path};
use sg_circuit::{Circuit, NetId, Range, Variable};
use std::alloc::{AllocError, Global};

// The index of the bit at a position from the left.
fn index_at(range: Range, position: usize) -> i64
    requires within { position ≤ nat_abs (range.left -ℤ range.right) }
    requires fits { position < 2 ^ 63 }
    ensures { result ≡ index_in range position }
{
    if range.right <= range.left {
        range.left - position as i64
    } else {
        range.left + position as i64
    }
}

// A bit of a variable.
fn push_variable_bit(
    text: &mut Vec<u8>,
    variable: &Variable,
    position: usize,
) -> Result<(), AllocError>
    requires width { length variable.now.bits.items ≡ width_of variable.now.range }
    requires within { position < length variable.now.bits.items }
    ensures { OnOk result (text.new.items ≡ text.old.items ++ name_or (Some (bit_at (variable_seen variable.now) position)) []) }
{
    text.extend_from_slice(variable.name.bytes())?;
    match variable.range {
        Some(range) => push_bit(text, Some(index_at(range, position))),
        None => Ok(()),
    }
}

fn position_of(bits: &[NetId], net: NetId) -> Option<usize>
    ensures place { result ≡ position (λ n. n == net) bits.now }
    ensures within { IfSome result (λ place. place < length bits.now) }
{
    bits.iter().position(|bit| *bit == net)
}

// Adds how the first of some variables that has a net names it; whether one has it.
fn push_named(text: &mut Vec<u8>, variables: &[Variable], net: NetId) -> Result<bool, AllocError>
    requires widths { All (λ v. length v.bits.items ≡ width_of v.range) variables.now }
    ensures found { IfOk result (λ found. found ≡ is_some (named_in (map (λ v. variable_seen v) variables.now) net)) }
    ensures text { OnOk result (text.new.items ≡ text.old.items ++ name_or (named_in (map (λ v. variable_seen v) variables.now) net) []) }
{
    for variable in variables {
        if let Some(position) = position_of(&variable.bits, net) {
            push_variable_bit(text, variable, position)?;
            return Ok(true);
        }
    }
    Ok(false)
}

// The variables of a scope; none, where there is no such scope.
fn variables_of(circuit: &Circuit, scope: u32) -> &[Variable]
    ensures seen { map (λ v. variable_seen v) result.now ≡ (scope_at circuit.now scope).variables }
    ensures widths { All (λ v. length v.bits.items ≡ width_of v.range) result.now }
{
    match circuit.parts().scopes.get(scope as usize) {
        Some(scope) => &scope.variables,
        None => &[],
    }
}

fn module_of(circuit: &Circuit, scope: u32) -> &[u8]
    ensures { result.now ≡ (scope_at circuit.now scope).module_name }
{
    match circuit.parts().scopes.get(scope as usize) {
        Some(scope) => scope.module.bytes(),
        None => b"",
    }
}

/// Adds the path of an instance, and its module.
pub fn push_instance(
    alloc: Global,
    text: &mut Vec<u8>,
    circuit: &Circuit,
    scope: u32,
) -> Result<(), AllocError>
    ensures { OnOk result (text.new.items ≡ text.old.items ++ instance_text circuit.now scope) }
{
    push_path(alloc, text, circuit, scope)?;
    text.extend_from_slice(b" (")?;
    text.extend_from_slice(module_of(circuit, scope))?;
    text.push(b')')?;
    Ok(())
}

/// The scope and the output of an element.
pub fn place_of(circuit: &Circuit, element: u32) -> (u32, NetId)
    ensures scope { result.0 ≡ (element_at circuit.now element).scope }
    ensures output { result.1 ≡ (element_at circuit.now element).output }
{
    match circuit.parts().elements.get(element as usize) {
        Some(element) => (element.scope, element.output),
        None => (0, 0),
    }
}

// Adds the pin of an element of a scope, with an output, through which a change of a net came.
fn push_pin(
    alloc: Global,
    text: &mut Vec<u8>,
    circuit: &Circuit,
    scope: u32,
    output: NetId,
    net: NetId,
) -> Result<(), AllocError>
    ensures { OnOk result (text.new.items ≡ text.old.items ++ name_or (named_in (scope_at circuit.now scope).variables net) (name_or (named_in (scope_at circuit.now scope).variables output) (net_text circuit.now net))) }
{
    let variables = variables_of(circuit, scope);
    if push_named(text, variables, net)? {
        return Ok(());
    }
    if push_named(text, variables, output)? {
        return Ok(());
    }
    push_net(alloc, text, circuit, net)
}

/// Adds the instance of an element, and the pin through which a change of a net came.
pub fn push_way(
    alloc: Global,
    text: &mut Vec<u8>,
    circuit: &Circuit,
    element: u32,
    net: NetId,
) -> Result<(), AllocError>
    ensures { OnOk result (text.new.items ≡ text.old.items ++ way_text circuit.now (element_at circuit.now element) net) }
{
    let (scope, output) = place_of(circuit, element);
    push_instance(alloc, text, circuit, scope)?;
    text.push(b' ')?;
    push_pin(alloc, text, circuit, scope, output, net)
}
