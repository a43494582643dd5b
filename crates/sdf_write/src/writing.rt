// The text of a circuit.
ghost use Rattle.std.specs.Prelude.{◌≡◌, IfErr, IfOk, OnOk};
ghost use Rattle.sg_circuit.specs.Closed.{IsClosed};
ghost use Rattle.written_giving.specs.AnnotatedBack.{IsGivenBack, IsSettled};
ghost use Rattle.written_model.specs.Faults.{FaultStands, IsFaultless};
ghost use Rattle.written_model.specs.Text.{text};
ghost use Rattle.written_model.specs.Tree.{tree};
ghost use Rattle.written_names.specs.Netlists.{IsOfNetlist};
ghost use Rattle.written_reading.specs.Named.{IsTick};
ghost use Rattle.written_reading.specs.ReadBack.{IsReadAs};

use sg_circuit::Circuit;
use std::alloc::Global;
use written_entries::groups_of;
use written_faults::refuse;
use written_model::WriteError;
use written_text::written;

fn text_of(alloc: Global, circuit: &Circuit) -> Result<Vec<u8>, WriteError>
    ensures written { IfOk result (λ made. made.items ≡ text circuit.now) }
    ensures faultless { OnOk result (IsFaultless circuit.now) }
    ensures fault { IfErr result (FaultStands circuit.now) }
    ensures closed { IsClosed circuit.now }
    ensures tick { IsTick circuit.now.tick }
{
    let parts = circuit.parts();
    let groups = groups_of(alloc, parts)?;
    refuse(alloc, parts, &groups)?;
    written(alloc, parts, &groups)
}

/// The delays and limits of a circuit as an SDF file (IEEE 1497-2001), an entry a line. An error tells a scope in which the circuit can't
/// be written so that a reader gives it back. Takes time and memory in proportion to the circuit and the text.
pub fn sdf_text(alloc: Global, circuit: &Circuit) -> Result<Vec<u8>, WriteError>
    // The text is this one, and then no fault stands.
    ensures written { IfOk result (λ made. made.items ≡ text circuit.now) }
    ensures faultless { OnOk result (IsFaultless circuit.now) }
    // A fault that is told stands in its scope.
    ensures fault { IfErr result (FaultStands circuit.now) }
    // Of a netlist's circuit, whatever delays and limits it has, the text is read as its tree.
    ensures read_back { IsOfNetlist circuit.now → IfOk result (λ made. IsReadAs (tree circuit.now) made.items) }
    // And where its limits are settled, annotation with the tree gives them and its delays back, whatever stands in their place.
    ensures given_back { IsOfNetlist circuit.now → IsSettled circuit.now → OnOk result (IsGivenBack circuit.now) }
{
    text_of(alloc, circuit)
}
