// What holds of the two edges.
ghost use Rattle.sg_logic.specs.Edges.{DirectionsOfEdges};

/// `POSEDGE` has each change to a higher level and no other, `NEGEDGE` each to a lower one, where x and z stand between
/// 0 and 1 (IEEE 1364-2005, 9.7.2).
pub fn directions_of_edges()
    ensures { DirectionsOfEdges }
{}
