// Scopes and nets by their paths.
ghost use Rattle.std.specs.Prelude.{◌≡◌, ◌++◌, IfOk, OnOk};
ghost use Rattle.sg_circuit.specs.Circuit.{scope_at};
ghost use Rattle.sg_circuit.specs.Closed.{IsClosed};
ghost use Rattle.run_report.specs.Above.{scopes_above};
ghost use Rattle.run_report.specs.Report.{net_text, path_of};

use crate::bits::push_bit;
use sg_circuit::{Circuit, NetId};
use std::alloc::{AllocError, Global};

// The scope that has the instance, if one has.
fn parent_of(circuit: &Circuit, scope: u32) -> Option<u32>
    ensures parent { result ≡ (scope_at circuit.now scope).parent }
    ensures closed { IsClosed circuit.now }
{
    circuit.parts().scopes.get(scope as usize)?.parent
}

fn name_of(circuit: &Circuit, scope: u32) -> &[u8]
    ensures { result.now ≡ (scope_at circuit.now scope).name }
{
    match circuit.parts().scopes.get(scope as usize) {
        Some(scope) => scope.name.bytes(),
        None => b"",
    }
}

// The scopes that a scope stands in, the nearest first.
fn scopes_above(alloc: Global, circuit: &Circuit, scope: u32) -> Result<Vec<u32>, AllocError>
    ensures made { IfOk result (λ above. above.items ≡ scopes_above circuit.now scope) }
    ensures closed { IsClosed circuit.now }
{
    let mut above = Vec::new(alloc);
    let mut next = parent_of(circuit, scope);
    while let Some(outer) = next {
        above.push(outer)?;
        next = parent_of(circuit, outer);
    }
    Ok(above)
}

/// Adds the path of a scope: the instance names from the top's on, joined by dots (IEEE 1364-2005, 12.5).
pub fn push_path(
    alloc: Global,
    text: &mut Vec<u8>,
    circuit: &Circuit,
    scope: u32,
) -> Result<(), AllocError>
    ensures { OnOk result (text.new.items ≡ text.old.items ++ path_of circuit.now scope) }
{
    let mut above = scopes_above(alloc, circuit, scope)?;
    while let Some(outer) = above.pop() {
        text.extend_from_slice(name_of(circuit, outer))?;
        text.push(b'.')?;
    }
    text.extend_from_slice(name_of(circuit, scope))
}

/// Adds a net by its path.
pub fn push_net(
    alloc: Global,
    text: &mut Vec<u8>,
    circuit: &Circuit,
    net: NetId,
) -> Result<(), AllocError>
    ensures { OnOk result (text.new.items ≡ text.old.items ++ net_text circuit.now net) }
{
    let Some(item) = circuit.parts().nets.get(net as usize) else {
        push_path(alloc, text, circuit, 0)?;
        text.push(b'.')?;
        return Ok(());
    };
    push_path(alloc, text, circuit, item.scope)?;
    text.push(b'.')?;
    text.extend_from_slice(item.name.bytes())?;
    push_bit(text, item.bit)
}
