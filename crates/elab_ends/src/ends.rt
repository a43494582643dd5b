// The output bits to which specify paths lead.
ghost use Rattle.std.specs.Prelude.{◌≡◌, ◌<◌, IfOk, OnOk, List, filter, length, map};
ghost use Rattle.vl_tree.specs.Seen.{view_path};
ghost use Rattle.vl_tree.specs.Tree.{Module};
ghost use Rattle.elab_model.specs.Ends as def;
ghost use Rattle.elab_model.specs.Homes as homes;
ghost use Rattle.elab_model.specs.Members as model;
ghost use Rattle.elab_model.specs.Names.{variables};
ghost use Rattle.elab_model.specs.Terms.{NetBit};
ghost use Rattle.elab_laws.specs.Handing.{all_bits};
ghost use Rattle.elab_variables.specs.Seen.{view_member};
ghost use Rattle.elab_bits.specs.Seen.{bit_at};
ghost use Rattle.elab_ends.specs.Ends.{AreEnds};
ghost use Rattle.elab_ends.specs.Seen.{bits_seen, AreInRow};
ghost use Rattle.elab_ends.specs.Words as words;
ghost use Rattle.elab_ends.specs.Words.{HasSeen, HasAdded, LeadsTo, is_of_output};

use crate::terms::terms_bits;
use elab_variables::{Member, Table};
use sg_circuit::Port;
use sg_text::NoMemory;
use std::alloc::Global;
use vl_tree::{Arrow, SpecifyPath};

/// The output bits to which a module's specify paths lead, each once, in text order (IEEE 1364-2005, 14.2).
#[derive(Debug, Drop)]
pub struct PathEnds {
    /// Their places in the module's row of bits.
    pub bits: Vec<usize>,
    /// Where those that each member is the first to lead to begin among them; one entry more than there are members.
    pub starts: Vec<usize>,
}

// Whether a bit of the row is one of an output port.
fn is_of_output(table: &Table, place: usize) -> bool
    requires { place < length (all_bits table.now) }
    ensures { result ≡ homes.is_output (bit_at table.now place).0.port }
{
    let (variable, _) = table.bit(place);
    table.row(variable).port == Port::Output
}

fn lead_count(arrow: Arrow, inputs: &[usize], outputs: &[usize]) -> usize
    ensures { result ≡ words.lead_count arrow inputs.now outputs.now }
{
    match (arrow, inputs) {
        (Arrow::Parallel, _) => inputs.len(),
        (Arrow::Full, []) => 0,
        (Arrow::Full, [..]) => outputs.len(),
    }
}

// The bits to which a path leads, as places in the row, in order of the first lead.
fn destinations(alloc: Global, table: &Table, path: &SpecifyPath) -> Result<Vec<usize>, NoMemory>
    ensures row { IfOk result (λ places. AreInRow table.now places.items) }
    ensures bits { IfOk result (λ places. LeadsTo table.now (view_path path.now) (bits_seen table.now places.items)) }
{
    let inputs = terms_bits(alloc, table, &path.sources)?;
    let mut outputs = terms_bits(alloc, table, &path.destination.terms)?;
    outputs.truncate(lead_count(path.arrow, &inputs, &outputs));
    Ok(outputs)
}

// Adds those that are of outputs and weren't seen before.
fn add_new(
    table: &Table,
    places: &[usize],
    seen: &mut [bool],
    bits: &mut Vec<usize>,
) -> Result<(), NoMemory>
    requires room { length seen.old ≡ length (all_bits table.now) }
    requires row { AreInRow table.now places.now }
    ensures row { AreInRow table.now bits.old.items → AreInRow table.now bits.new.items }
    ensures room { length seen.new ≡ length (all_bits table.now) }
    ensures added { OnOk result ((m : Module) (before : List NetBit) → table.now ≡ variables m → HasSeen m seen.old before
        → HasAdded m (filter (is_of_output m) (bits_seen table.now places.now)) before seen.new bits.old.items bits.new.items) }
{
    for place in places {
        if !seen[*place] && is_of_output(table, *place) {
            seen[*place] = true;
            bits.push(*place)?;
        }
    }
    Ok(())
}

// Adds those to which a member is the first to lead.
fn add_ends(
    alloc: Global,
    table: &Table,
    member: &Member,
    seen: &mut [bool],
    bits: &mut Vec<usize>,
) -> Result<(), NoMemory>
    requires room { length seen.old ≡ length (all_bits table.now) }
    ensures row { AreInRow table.now bits.old.items → AreInRow table.now bits.new.items }
    ensures room { length seen.new ≡ length (all_bits table.now) }
    ensures added { OnOk result ((m : Module) (before : List NetBit) → table.now ≡ variables m → HasSeen m seen.old before
        → HasAdded m (def.ends m (view_member member.now)) before seen.new bits.old.items bits.new.items) }
{
    let Member::Path(path) = member else {
        return Ok(());
    };
    let places = destinations(alloc, table, path)?;
    add_new(table, &places, seen, bits)
}

/// The ends of a module's paths, of its table and its members. Takes memory and work in proportion to the bits.
pub fn path_ends(alloc: Global, table: &Table, members: &[Member]) -> Result<PathEnds, NoMemory>
    ensures { IfOk result (λ ends. (m : Module) → table.now ≡ variables m → map view_member members.now ≡ model.members m → AreEnds m ends) }
{
    let mut seen = vec![in alloc; false; table.bits()]?;
    let mut bits = Vec::new(alloc);
    let mut starts = Vec::new(alloc);
    for member in members {
        starts.push(bits.len())?;
        add_ends(alloc, table, member, &mut seen, &mut bits)?;
    }
    starts.push(bits.len())?;
    Ok(PathEnds { bits, starts })
}
