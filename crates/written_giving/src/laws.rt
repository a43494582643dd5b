// The law of annotation with the tree of a circuit.
ghost use Rattle.sg_circuit.specs.Circuit.{Circuit};
ghost use Rattle.sg_circuit.specs.Closed.{IsClosed};
ghost use Rattle.written_model.specs.Faults.{IsFaultless};
ghost use Rattle.written_reading.specs.Named.{IsNamed};
ghost use Rattle.written_giving.specs.AnnotatedBack.{IsGivenBack, IsSettled};

/// The tree of a circuit gives it its delays and limits back, whatever stands in their place.
pub fn tree_gives_back()
    ensures { (c : Circuit) → IsClosed c → IsNamed c → IsSettled c → IsFaultless c → IsGivenBack c }
{}
