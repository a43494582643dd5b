// The paths of specify paths, each from one bit to one bit.
ghost use Rattle.std.specs.Prelude.{◌≡◌, ◌++◌, ◌<◌, ℕ, List, OnOk, length, map};
ghost use Rattle.elab_laws.specs.Handing.{all_bits};
ghost use Rattle.vl_tree.specs.declared.paths.Arrow.TheVariants as arrow;
ghost use Rattle.elab_model.specs.Terms as def;
ghost use Rattle.specify_values.specs.Seen.{limits_seen};
ghost use Rattle.elab_ends.specs.Seen.{AreInRow, bit_seen, bits_seen};
ghost use Rattle.specify_paths.specs.Seen.{ArePathsInRow, Said, path_to_seen, path_said, said_at};

use crate::ends::Ends;
use elab_variables::Table;
use sg_delay::Widths;
use sg_text::{NoMemory, Place};
use specify_values::PulseLimits;
use vl_tree::{Arrow, SpecifyPath};

/// A path of a module: its input, a place in the row of bits of the module's table; its specify path, by its number; and the limits of its pulses, where a text gives them.
#[derive(Clone, Copy, Debug, PartialEq)]
pub struct ModulePath {
    pub input: usize,
    pub statement: usize,
    pub limits: Option<Widths>,
}

/// A path and the output bit to which it leads, a place in the same row, with where its specify path stands.
#[derive(Clone, Copy, Debug, PartialEq)]
pub struct PathTo {
    pub output: usize,
    pub place: Place,
    pub path: ModulePath,
}

/// What the paths of one specify path have in common: its number and its place.
#[derive(Clone, Copy)]
pub struct Origin {
    pub statement: usize,
    pub place: Place,
}

fn path_between(
    table: &Table,
    limits: &PulseLimits,
    origin: Origin,
    input: usize,
    output: usize,
) -> PathTo
    requires input { input < length (all_bits table.now) }
    requires output { output < length (all_bits table.now) }
    ensures path { (said : List Said) → path_to_seen table.now said result ≡ path_said (said_at said origin.statement) origin.place (limits_seen limits.now) (bit_seen table.now input, bit_seen table.now output) }
    ensures input { result.path.input ≡ input }
    ensures output { result.output ≡ output }
    ensures statement { result.path.statement ≡ origin.statement }
{
    let from = table.name(table.bit(input).0);
    let to = table.name(table.bit(output).0);
    PathTo {
        output,
        place: origin.place,
        path: ModulePath {
            input,
            statement: origin.statement,
            limits: limits.between(from, to),
        },
    }
}

// Bit by bit.
fn add_parallel(
    table: &Table,
    limits: &PulseLimits,
    origin: Origin,
    ends: &Ends,
    list: &mut Vec<PathTo>,
) -> Result<(), NoMemory>
    requires inputs { AreInRow table.now ends.now.inputs.items }
    requires outputs { AreInRow table.now ends.now.outputs.items }
    ensures paths { (said : List Said) → OnOk result (map (path_to_seen table.now said) list.new.items ≡ map (path_to_seen table.now said) list.old.items
        ++ map (path_said (said_at said origin.statement) origin.place (limits_seen limits.now)) (def.pairs arrow.Parallel (bits_seen table.now ends.now.inputs.items) (bits_seen table.now ends.now.outputs.items))) }
    ensures row { (statements : ℕ) → origin.statement < statements → ArePathsInRow table.now statements list.old.items → ArePathsInRow table.now statements list.new.items }
{
    let count = ends.inputs.len().min(ends.outputs.len());
    for at in 0..count {
        list.push(path_between(table, limits, origin, ends.inputs[at], ends.outputs[at]))?;
    }
    Ok(())
}

// From one bit to each.
fn add_from(
    table: &Table,
    limits: &PulseLimits,
    origin: Origin,
    input: usize,
    outputs: &[usize],
    list: &mut Vec<PathTo>,
) -> Result<(), NoMemory>
    requires input { input < length (all_bits table.now) }
    requires outputs { AreInRow table.now outputs.now }
    ensures paths { (said : List Said) → OnOk result (map (path_to_seen table.now said) list.new.items ≡ map (path_to_seen table.now said) list.old.items
        ++ map (path_said (said_at said origin.statement) origin.place (limits_seen limits.now)) (map (λ o. (bit_seen table.now input, o)) (bits_seen table.now outputs.now))) }
    ensures row { (statements : ℕ) → origin.statement < statements → ArePathsInRow table.now statements list.old.items → ArePathsInRow table.now statements list.new.items }
{
    for output in outputs {
        list.push(path_between(table, limits, origin, input, *output))?;
    }
    Ok(())
}

// From each bit to each.
fn add_full(
    table: &Table,
    limits: &PulseLimits,
    origin: Origin,
    ends: &Ends,
    list: &mut Vec<PathTo>,
) -> Result<(), NoMemory>
    requires inputs { AreInRow table.now ends.now.inputs.items }
    requires outputs { AreInRow table.now ends.now.outputs.items }
    ensures paths { (said : List Said) → OnOk result (map (path_to_seen table.now said) list.new.items ≡ map (path_to_seen table.now said) list.old.items
        ++ map (path_said (said_at said origin.statement) origin.place (limits_seen limits.now)) (def.pairs arrow.Full (bits_seen table.now ends.now.inputs.items) (bits_seen table.now ends.now.outputs.items))) }
    ensures row { (statements : ℕ) → origin.statement < statements → ArePathsInRow table.now statements list.old.items → ArePathsInRow table.now statements list.new.items }
{
    for input in &ends.inputs {
        add_from(table, limits, origin, *input, &ends.outputs, list)?;
    }
    Ok(())
}

/// Adds the paths of a specify path with this number, in text order (IEEE 1364-2005, 14.2.5). Takes memory in proportion to them.
pub fn add_paths(
    table: &Table,
    limits: &PulseLimits,
    statement: usize,
    path: &SpecifyPath,
    ends: &Ends,
    list: &mut Vec<PathTo>,
) -> Result<(), NoMemory>
    requires inputs { AreInRow table.now ends.now.inputs.items }
    requires outputs { AreInRow table.now ends.now.outputs.items }
    ensures paths { (said : List Said) → OnOk result (map (path_to_seen table.now said) list.new.items ≡ map (path_to_seen table.now said) list.old.items
        ++ map (path_said (said_at said statement) path.now.place (limits_seen limits.now)) (def.pairs path.now.arrow (bits_seen table.now ends.now.inputs.items) (bits_seen table.now ends.now.outputs.items))) }
    ensures row { (statements : ℕ) → statement < statements → ArePathsInRow table.now statements list.old.items → ArePathsInRow table.now statements list.new.items }
{
    let origin = Origin {
        statement,
        place: path.place,
    };
    match path.arrow {
        Arrow::Parallel => add_parallel(table, limits, origin, ends, list),
        Arrow::Full => add_full(table, limits, origin, ends, list),
    }
}
