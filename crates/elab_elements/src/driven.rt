// What is driven inside at the bits of an instance.
ghost use Rattle.std.specs.Prelude.{◌≡◌, ◌<◌, ℕ, All, IfOk, OnOk, length, map, nat_eq};
ghost use Rattle.indexmap.specs.IndexMap.{get};
ghost use Rattle.elab_laws.specs.NumberLaws.{driven_number};
ghost use Rattle.elab_elements.specs.Words.{ends_in, inner_of};

use indexmap::IndexMap;
use sg_circuit::NetId;
use sg_text::NoMemory;
use std::alloc::Global;

// By the net of an output bit with paths, the inner net of the first that has it.
fn inner_nets(
    alloc: Global,
    row: &[NetId],
    bits: &[usize],
    ends: &[NetId],
) -> Result<IndexMap<NetId, NetId>, NoMemory>
    requires row { All (λ i. i < length row.now) bits.now }
    requires count { length bits.now ≡ length ends.now }
    ensures { IfOk result (λ nets. (net : ℕ) → get nat_eq nets net ≡ inner_of (ends_in row.now bits.now ends.now) net) }
{
    let mut nets = IndexMap::new(alloc);
    for (at, bit) in bits.iter().enumerate() {
        let net = row[*bit];
        if !nets.contains_key(&net) {
            nets.insert(net, ends[at])?;
        }
    }
    Ok(nets)
}

/// Makes of an instance's row the row of what is driven inside: at each bit the inner net of the first of these bits that has the same net, or else the bit's own net. `ends` are
/// the inner nets of the bits. Takes memory in proportion to the row.
pub fn drive(
    alloc: Global,
    row: &[NetId],
    bits: &[usize],
    ends: &[NetId],
    driven: &mut Vec<NetId>,
) -> Result<(), NoMemory>
    requires row { All (λ i. i < length row.now) bits.now }
    requires count { length bits.now ≡ length ends.now }
    ensures { OnOk result (driven.new.items ≡ map (driven_number (ends_in row.now bits.now ends.now)) row.now) }
{
    let nets = inner_nets(alloc, row, bits, ends)?;
    driven.clear();
    for net in row {
        driven.push(nets.get(net).copied().unwrap_or(*net))?;
    }
    Ok(())
}
