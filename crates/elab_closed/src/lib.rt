//! Laws of elaboration: the circuit of a netlist without faults fits together, and what its specify blocks name are nets.
#![tactic(auto)]

ghost use Rattle.elab_closed.specs.Laws.{CircuitIsClosed};
ghost use Rattle.elab_closed.specs.NamedNets.{ChecksHaveNets, PathsHaveNets};

/// The circuit of a netlist without faults is a circuit: its parts fit together.
pub fn circuit_is_closed()
    ensures { CircuitIsClosed }
{}

/// Where a netlist has no fault, each bit that a specify path of an instance names is a net.
pub fn paths_have_nets()
    ensures { PathsHaveNets }
{}

/// Where a netlist has no fault, each bit that a timing check of an instance names is a net, and so is what its delayed copies read
/// and drive (IEEE 1364-2005, 15.8).
pub fn checks_have_nets()
    ensures { ChecksHaveNets }
{}
