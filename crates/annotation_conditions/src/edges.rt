// Edges.
ghost use Rattle.std.specs.Prelude.{◌≡◌};
ghost use Rattle.annotation_model.specs.Same as def;

use sg_logic::{Edge, NEGEDGE, POSEDGE};

// The edge that a word of a file is, if netlists have it.
fn edge_of(word: sdf_tree::Edge) -> Option<Edge>
    ensures { result ≡ def.edge_of word }
{
    match word {
        sdf_tree::Edge::Posedge => Some(POSEDGE),
        sdf_tree::Edge::Negedge => Some(NEGEDGE),
        _ => None,
    }
}

fn is_edge(wanted: Option<Edge>, edge: Option<Edge>) -> bool
    ensures { result ≡ def.is_edge wanted edge }
{
    match (wanted, edge) {
        (Some(wanted), Some(edge)) => wanted == edge,
        _ => false,
    }
}

/// Whether an edge of a path or of a terminal is the one that an entry asks for, if it asks for one; edges are the same where their
/// changes are (IEEE 1364-2005, 15.4).
pub fn fits_edge(wanted: Option<sdf_tree::Edge>, edge: Option<Edge>) -> bool
    ensures { result ≡ def.fits_edge wanted edge }
{
    match wanted {
        Some(word) => is_edge(edge_of(word), edge),
        None => true,
    }
}
