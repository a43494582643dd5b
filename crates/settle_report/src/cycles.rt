// The report of a cycle.
ghost use Rattle.std.specs.Prelude.{◌≡◌, ◌++◌, All, IfOk, OnOk, codes, decimal, flat_map, length};
ghost use Rattle.settle_bound.specs.Chains.{IsCycle};
ghost use Rattle.settle_bound.specs.Hops.{IsHop, net_driven};
ghost use Rattle.run_report.specs.Report.{named_net};
ghost use Rattle.wave_out.specs.Texts.{line};
ghost use Rattle.settle_report.specs.Texts.{cycle_text, through_line};

use itoa::Buffer;
use run_report::push_net;
use settle_bound::{Hop, driven};
use sg_circuit::{Circuit, NetId};
use std::alloc::{AllocError, Global};

fn push_named(
    alloc: Global,
    text: &mut Vec<u8>,
    circuit: &Circuit,
    net: Option<NetId>,
) -> Result<(), AllocError>
    ensures { OnOk result (text.new.items ≡ text.old.items ++ named_net circuit.now net) }
{
    match net {
        Some(net) => push_net(alloc, text, circuit, net),
        None => Ok(()),
    }
}

fn push_through(
    alloc: Global,
    text: &mut Vec<u8>,
    circuit: &Circuit,
    hop: Hop,
) -> Result<(), AllocError>
    requires { IsHop circuit.now hop }
    ensures { OnOk result (text.new.items ≡ text.old.items ++ through_line circuit.now hop) }
{
    text.extend_from_slice(b"through ")?;
    push_named(alloc, text, circuit, driven(circuit.parts(), hop))?;
    text.push(b'\n')?;
    Ok(())
}

fn push_hops(
    alloc: Global,
    text: &mut Vec<u8>,
    circuit: &Circuit,
    hops: &[Hop],
) -> Result<(), AllocError>
    requires { All (IsHop circuit.now) hops.now }
    ensures { OnOk result (text.new.items ≡ text.old.items ++ flat_map (through_line circuit.now) hops.now) }
{
    for hop in hops {
        push_through(alloc, text, circuit, *hop)?;
    }
    Ok(())
}

/// How many hops a cycle has, and a line for the net that each of them drives. Takes memory.
pub fn cycle_text(alloc: Global, circuit: &Circuit, hops: &[Hop]) -> Result<Vec<u8>, AllocError>
    requires { IsCycle circuit.now hops.now }
    ensures { IfOk result (λ text. text.items ≡ cycle_text circuit.now hops.now) }
{
    let mut buffer = Buffer::new();
    let mut text = Vec::new(alloc);
    text.extend_from_slice(b"cycle ")?;
    text.extend_from_slice(buffer.format(hops.len()).as_bytes())?;
    text.push(b'\n')?;
    push_hops(alloc, &mut text, circuit, hops)?;
    Ok(text)
}
