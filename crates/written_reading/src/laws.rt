// The law of written files that are read.
ghost use Rattle.sg_circuit.specs.Circuit.{Circuit};
ghost use Rattle.sg_circuit.specs.Closed.{IsClosed};
ghost use Rattle.written_model.specs.Faults.{IsFaultless};
ghost use Rattle.written_model.specs.Text.{text};
ghost use Rattle.written_model.specs.Tree.{tree};
ghost use Rattle.written_reading.specs.Named.{IsNamed, IsTick};
ghost use Rattle.written_reading.specs.ReadBack.{IsReadAs};

/// Of a circuit whose names lead back, a text without a fault is read as its tree.
pub fn text_is_read_back()
    ensures { (c : Circuit) → IsClosed c → IsTick c.tick → IsNamed c → IsFaultless c → IsReadAs (tree c) (text c) }
{}
