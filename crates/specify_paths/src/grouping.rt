// Paths by the output bits to which they lead.
ghost use Rattle.std.specs.Prelude.{◌≡◌, ◌++◌, ◌∷◌, [], List, OnOk, IfOk, map};
ghost use Rattle.specify_paths.specs.declared.pairs.PathTo as ghost_to;
ghost use Rattle.specify_paths.specs.Words.{IsPlaced, blank_output, first_to_each, grouped, output_kept, outputs_in, set_at, style_at};

use crate::pairs::{ModulePath, PathTo};
use crate::styles::Styles;
use indexmap::IndexSet;
use sg_delay::PulseStyle;
use sg_text::{NoMemory, Place};
use std::alloc::Global;

/// An output bit to which paths lead, a place in the row of bits of the module's table, with the place of its first specify path, its style, and its paths in text order.
#[derive(Debug, Drop)]
pub struct PathOutput {
    pub output: usize,
    pub place: Place,
    pub style: PulseStyle,
    pub paths: Vec<ModulePath>,
}

// A new output, as yet without a path.
fn add_output(styles: &Styles, path: PathTo, outputs: &mut Vec<PathOutput>) -> Result<(), NoMemory>
    ensures { OnOk result (map output_kept outputs.new.items ≡ map output_kept outputs.old.items ++ blank_output (style_at styles.now) path ∷ []) }
{
    let paths = Vec::new(*outputs.allocator());
    outputs.push(PathOutput {
        output: path.output,
        place: path.place,
        style: styles.of(path.output),
        paths,
    })?;
    Ok(())
}

// The place of the output to which a path leads; a new one is added.
fn place_of_output(
    places: &mut IndexSet<usize>,
    styles: &Styles,
    path: PathTo,
    outputs: &mut Vec<PathOutput>,
) -> Result<usize, NoMemory>
    ensures { IfOk result (λ at. (ps : List ghost_to.PathTo) → places.old.keys ≡ outputs_in (first_to_each [] ps) → map output_kept outputs.old.items ≡ grouped (style_at styles.now) ps
        → IsPlaced (style_at styles.now) ps path at places.new.keys (map output_kept outputs.new.items)) }
{
    let (at, is_new) = places.insert_full(path.output)?;
    if !is_new {
        return Ok(at);
    }
    add_output(styles, path, outputs)?;
    Ok(at)
}

// The output at a place takes one more path.
fn push_path(outputs: &mut Vec<PathOutput>, at: usize, path: ModulePath) -> Result<(), NoMemory>
    ensures { OnOk result (map output_kept outputs.new.items ≡ set_at at path (map output_kept outputs.old.items)) }
{
    if let Some(output) = outputs.get_mut(at) {
        output.paths.push(path)?;
    }
    Ok(())
}

fn add_path(
    places: &mut IndexSet<usize>,
    styles: &Styles,
    path: PathTo,
    outputs: &mut Vec<PathOutput>,
) -> Result<(), NoMemory>
    ensures { (ps : List ghost_to.PathTo) → places.old.keys ≡ outputs_in (first_to_each [] ps) → map output_kept outputs.old.items ≡ grouped (style_at styles.now) ps
        → OnOk result ((places.new.keys ≡ outputs_in (first_to_each [] (ps ++ path ∷ []))) × (map output_kept outputs.new.items ≡ grouped (style_at styles.now) (ps ++ path ∷ []))) }
{
    let at = place_of_output(places, styles, path, outputs)?;
    push_path(outputs, at, path.path)?;
    Ok(())
}

/// The output bits in the order of the first path to each. Takes memory in proportion to the paths.
pub fn group(alloc: Global, styles: &Styles, paths: &[PathTo]) -> Result<Vec<PathOutput>, NoMemory>
    ensures { IfOk result (λ outputs. map output_kept outputs.items ≡ grouped (style_at styles.now) paths.now) }
{
    let mut places: IndexSet<usize> = IndexSet::new(alloc);
    let mut outputs = Vec::new(alloc);
    for path in paths {
        add_path(&mut places, styles, *path, &mut outputs)?;
    }
    Ok(outputs)
}
