// The ports of a module, found in its table.
ghost use Rattle.std.specs.Prelude.{◌≡◌, [], ◌≤◌, IfSome};
ghost use Rattle.vl_tree.specs.Tree.{Module};
ghost use Rattle.sg_circuit.specs.Closed as closed;
ghost use Rattle.elab_model.specs.Homes as def;
ghost use Rattle.elab_model.specs.NameFaults.{declaration_faults};
ghost use Rattle.elab_model.specs.Names.{variables};
ghost use Rattle.elab_modules.specs.Telling as telling;
ghost use Rattle.elab_modules.specs.Connecting.{IsPortRow};

use elab_variables::{Row, Table};
use sg_circuit::{Port, Range};

fn is_port(port: Port) -> bool
    ensures { result ≡ telling.is_port port }
{
    match port {
        Port::Input => true,
        Port::Output => true,
        Port::Inner => false,
    }
}

/// Whether a port is an output.
pub fn is_output(port: Port) -> bool
    ensures { result ≡ def.is_output port }
{
    match port {
        Port::Input => false,
        Port::Output => true,
        Port::Inner => false,
    }
}

/// How many bits a variable has.
pub fn width_of(range: Option<Range>) -> usize
    requires { closed.width_of range ≤ 65536 }
    ensures { result ≡ closed.width_of range }
{
    match range {
        None => 1,
        Some(range) => range.left.abs_diff(range.right) as usize + 1,
    }
}

/// The port of a name, if there is one, of the module whose table it is.
pub fn port_row(table: &Table, name: &[u8]) -> Option<Row>
    ensures told { (m : Module) → table.now ≡ variables m → declaration_faults m ≡ [] → IsPortRow m name.now result }
    ensures wide { IfSome result (λ r. closed.width_of r.range ≤ 65536) }
{
    let place = table.find(name)?;
    let row = table.row(place);
    if !is_port(row.port) {
        return None;
    }
    Some(row)
}
