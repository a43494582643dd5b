// What is to be annotated.
use annotation_places::Places;
use sdf_tree::Sdf;
use sg_delay::Corner;

/// The places of a circuit, how many signals each of its scopes has with delayed copies, the file whose entries are applied to the places,
/// and the corner whose values are taken.
#[derive(Clone, Copy)]
pub struct Task<'t, 'p, 's> {
    pub places: &'t Places<'p>,
    pub signals: &'t [u32],
    pub sdf: &'t Sdf<'s>,
    pub corner: Corner,
}
