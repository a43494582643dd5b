// The netlist: a cell that is an inverter, and a chain of them.
ghost use Rattle.std.specs.Prelude.{◌≡◌, ◌++◌, ◌≤◌, codes, decimal, IfOk, OnOk};
ghost use Rattle.gen_case.specs.Case.{inverter_line, net_of, netlist_head, netlist_of};

use crate::numbers::push_number;
use sg_text::NoMemory;
use std::alloc::{AllocError, Global};

const HEAD: &str = "`timescale 1ns/1ps
`celldefine
module INV (Y, A);
output Y; input A;
not (Y, A);
specify (A => Y) = 1; endspecify
endmodule
`endcelldefine
module chain (a, y);
input a; output y;
";

#[tactic(auto, unfolding(crate::specs::Case::netlist_head))]
fn begin_netlist(alloc: Global) -> Result<Vec<u8>, AllocError>
    ensures { IfOk result (λ text. text.items ≡ netlist_head) }
{
    Vec::from_slice(alloc, HEAD.as_bytes())
}

fn push_inner_net(text: &mut Vec<u8>, stage: u32) -> Result<(), AllocError>
    ensures { OnOk result (text.new.items ≡ text.old.items ++ (codes "n" ++ decimal stage)) }
{
    text.push(b'n')?;
    push_number(text, stage as u64)
}

// Adds the net behind a stage, or before the first.
fn push_net(text: &mut Vec<u8>, stages: u32, stage: u32) -> Result<(), AllocError>
    ensures { OnOk result (text.new.items ≡ text.old.items ++ net_of stages stage) }
{
    if stage == 0 {
        text.extend_from_slice(b"a")
    } else if stage == stages {
        text.extend_from_slice(b"y")
    } else {
        push_inner_net(text, stage)
    }
}

fn push_inverter(text: &mut Vec<u8>, stages: u32, stage: u32) -> Result<(), AllocError>
    requires { 1 ≤ stage }
    ensures { OnOk result (text.new.items ≡ text.old.items ++ inverter_line stages stage) }
{
    text.extend_from_slice(b"INV u")?;
    push_number(text, stage as u64)?;
    text.extend_from_slice(b" (.Y(")?;
    push_net(text, stages, stage)?;
    text.extend_from_slice(b"), .A(")?;
    push_net(text, stages, stage - 1)?;
    text.extend_from_slice(b"));\n")?;
    Ok(())
}

/// The netlist of so many stages.
pub fn netlist_of(alloc: Global, stages: u32) -> Result<Vec<u8>, NoMemory>
    ensures { IfOk result (λ text. text.items ≡ netlist_of stages) }
{
    let mut text = begin_netlist(alloc)?;
    for stage in 1..=stages {
        push_inverter(&mut text, stages, stage)?;
    }
    text.extend_from_slice(b"endmodule\n")?;
    Ok(text)
}
