// The report of bounds.
ghost use Rattle.std.specs.Prelude.{◌≡◌, ◌++◌, IfOk, OnOk, decimal, flat_map, map, slice_index_or};
ghost use Rattle.std.specs.List.{filter};
ghost use Rattle.sg_circuit.specs.Circuit.{scope_at};
ghost use Rattle.sg_circuit.specs.Seen.{variable_seen};
ghost use Rattle.wave_out.specs.Texts.{line};
ghost use Rattle.settle_report.specs.Texts.{bound_line, bounds_text, greatest, is_output};

use itoa::Buffer;
use run_report::push_net;
use sg_circuit::{Circuit, NetId, Port, Variable};
use std::alloc::{AllocError, Global};

// A bound, and the end of its line.
fn push_number(text: &mut Vec<u8>, number: u128) -> Result<(), AllocError>
    ensures { OnOk result (text.new.items ≡ text.old.items ++ line (decimal number)) }
{
    let mut buffer = Buffer::new();
    text.extend_from_slice(buffer.format(number).as_bytes())?;
    text.push(b'\n')?;
    Ok(())
}

fn bound_of(bounds: &[u128], net: NetId) -> u128
    ensures { result ≡ slice_index_or bounds.now net 0 }
{
    match bounds.get(net as usize) {
        Some(bound) => *bound,
        None => 0,
    }
}

fn push_bound(
    alloc: Global,
    text: &mut Vec<u8>,
    circuit: &Circuit,
    bounds: &[u128],
    net: NetId,
) -> Result<(), AllocError>
    ensures { OnOk result (text.new.items ≡ text.old.items ++ bound_line circuit.now bounds.now net) }
{
    text.extend_from_slice(b"settle ")?;
    push_net(alloc, text, circuit, net)?;
    text.push(b' ')?;
    push_number(text, bound_of(bounds, net))
}

fn push_bits(
    alloc: Global,
    text: &mut Vec<u8>,
    circuit: &Circuit,
    bounds: &[u128],
    bits: &[NetId],
) -> Result<(), AllocError>
    ensures { OnOk result (text.new.items ≡ text.old.items ++ flat_map (bound_line circuit.now bounds.now) bits.now) }
{
    for net in bits {
        push_bound(alloc, text, circuit, bounds, *net)?;
    }
    Ok(())
}

fn is_output(variable: &Variable) -> bool
    ensures { result ≡ is_output variable.now.port }
{
    match variable.port {
        Port::Output => true,
        _ => false,
    }
}

// The bits of the output ports among some variables.
fn push_outputs(
    alloc: Global,
    text: &mut Vec<u8>,
    circuit: &Circuit,
    bounds: &[u128],
    variables: &[Variable],
) -> Result<(), AllocError>
    ensures { OnOk result (text.new.items ≡ text.old.items ++ flat_map (λ v. flat_map (bound_line circuit.now bounds.now) v.bits.items) (filter (λ v. is_output v.port) variables.now)) }
{
    for variable in variables {
        if is_output(variable) {
            push_bits(alloc, text, circuit, bounds, &variable.bits)?;
        }
    }
    Ok(())
}

fn top_variables(circuit: &Circuit) -> &[Variable]
    ensures { map (λ v. variable_seen v) result.now ≡ (scope_at circuit.now 0).variables }
{
    match circuit.parts().scopes.first() {
        Some(top) => &top.variables,
        None => &[],
    }
}

fn greatest(bounds: &[u128]) -> u128
    ensures { result ≡ greatest bounds.now }
{
    let mut most = 0;
    for bound in bounds {
        most = (*bound).max(most);
    }
    most
}

/// A line for each bit of the top's output ports, in the order of the ports and from the left, with the bound of its net in ticks; and
/// the greatest bound of all nets. Takes memory.
pub fn bounds_text(alloc: Global, circuit: &Circuit, bounds: &[u128]) -> Result<Vec<u8>, AllocError>
    ensures { IfOk result (λ text. text.items ≡ bounds_text circuit.now bounds.now) }
{
    let mut text = Vec::new(alloc);
    push_outputs(alloc, &mut text, circuit, bounds, top_variables(circuit))?;
    text.extend_from_slice(b"bound ")?;
    push_number(&mut text, greatest(bounds))?;
    Ok(text)
}
