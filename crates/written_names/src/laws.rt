// The law of circuits of netlists.
ghost use Rattle.std.specs.Prelude.{ℕ, List, Option};
ghost use Rattle.sg_circuit.specs.Circuit.{Circuit};
ghost use Rattle.sg_delay.specs.declared.corners.Corner.{Corner};
ghost use Rattle.sdf_tree.specs.Meant.{Sdf};
ghost use Rattle.annotation_model.specs.Annotated.{annotated};
ghost use Rattle.late_limits.specs.Adjusted.{IsAdjustedFrom};
ghost use Rattle.vcd_laws.specs.Reading.{IsRead};
ghost use Rattle.written_giving.specs.AnnotatedBack.{IsSettled};
ghost use Rattle.written_names.specs.Netlists.{IsOfNetlist};
ghost use Rattle.written_reading.specs.Named.{IsNamed};

/// The names of a netlist's circuit lead back, whatever its delays and limits. As it is read it is settled, and so it is as an SDF file
/// leaves it.
pub fn netlists_lead_back()
    ensures named { (c : Circuit) → IsOfNetlist c → IsNamed c }
    ensures settled { (texts : List (List ℕ)) (top : Option (List ℕ)) (corner : Corner) (c : Circuit) → IsRead texts top corner c → IsSettled c }
    ensures annotated { (from made : Circuit) (sdf : Sdf) (corner : Corner) → IsSettled from → IsAdjustedFrom (annotated from sdf corner) made → IsSettled made }
{}
