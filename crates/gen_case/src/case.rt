// The generated case, with its three files.
ghost use Rattle.std.specs.Prelude.{◌≡◌, IfOk};
ghost use Rattle.gen_case.specs.Case.{netlist_of, sdf_of, stimulus_of};

use crate::netlist::netlist_of;
use crate::sdf::sdf_of;
use crate::stimulus::stimulus_of;
use sg_text::NoMemory;
use std::alloc::Global;

/// The files of a generated case.
#[derive(Debug, Drop)]
pub struct GeneratedCase {
    pub netlist: Vec<u8>,
    pub sdf: Vec<u8>,
    pub stimulus: Vec<u8>,
}

/// The case of so many stages. It takes time and memory in proportion to them.
pub fn gen_case(alloc: Global, stages: u32) -> Result<GeneratedCase, NoMemory>
    ensures netlist { IfOk result (λ case. case.netlist.items ≡ netlist_of stages) }
    ensures sdf { IfOk result (λ case. case.sdf.items ≡ sdf_of stages) }
    ensures stimulus { IfOk result (λ case. case.stimulus.items ≡ stimulus_of stages) }
{
    let netlist = netlist_of(alloc, stages)?;
    let sdf = sdf_of(alloc, stages)?;
    let stimulus = stimulus_of(alloc, stages)?;
    Ok(GeneratedCase {
        netlist,
        sdf,
        stimulus,
    })
}
