//! What the modules of a netlist declare, as lists in text order: ports, nets and regs.
#![tactic(auto)]

mod nets;
mod ports;

pub use nets::{NetDeclaration, net_declarations};
pub use ports::{port_declarations, port_list, ports_of_head};
