// A circuit of nothing.
use sg_circuit::{Circuit, Parts};
use sg_time::Unit;
use std::alloc::Global;

/// It stands in for a circuit that is taken out of its place. Takes no memory.
pub fn blank(alloc: Global) -> Circuit {
    Circuit::close(Parts {
        tick: Unit { power: 0 },
        nets: Vec::new(alloc),
        elements: Vec::new(alloc),
        gate_delays: Vec::new(alloc),
        leg_timings: Vec::new(alloc),
        paths: Vec::new(alloc),
        conditions: Vec::new(alloc),
        udps: Vec::new(alloc),
        checks: Vec::new(alloc),
        check_timings: Vec::new(alloc),
        check_conditions: Vec::new(alloc),
        scopes: Vec::new(alloc),
        zeroed: Vec::new(alloc),
    })
}
