// The input bits of a leaf that are bound to no net of its parent, as places of its row of bits.
ghost use Rattle.std.specs.Prelude.{◌≡◌, ◌<◌, ◌++◌, All, OnOk, length, map};
ghost use Rattle.std.specs.List.{filter, range_with_len};
ghost use Rattle.elab_laws.specs.Handing.{all_bits};
ghost use Rattle.elab_nets.specs.Inputs.{bound_at, is_free_at, is_input_at};

use elab_bits::Bit;
use elab_ports::PortConstant;
use elab_variables::Table;
use sg_circuit::Port;
use sg_text::NoMemory;

/// What the bit at a place is bound to.
pub fn bound_at(bits: &[Option<Bit>], place: usize) -> Option<Bit>
    ensures { result ≡ bound_at bits.now place }
{
    bits.get(place).copied().unwrap_or(None)
}

fn is_input_at(table: &Table, place: usize) -> bool
    requires { place < length (all_bits table.now) }
    ensures { result ≡ is_input_at table.now place }
{
    let (variable, _) = table.bit(place);
    matches!(table.row(variable).port, Port::Input)
}

fn is_free_at(table: &Table, bits: &[Option<Bit>], place: usize) -> bool
    requires { place < length (all_bits table.now) }
    ensures { result ≡ is_free_at table.now bits.now place }
{
    is_input_at(table, place) && bound_at(bits, place).is_none()
}

/// Adds the inputs that nothing is bound to.
pub fn add_free(
    table: &Table,
    bits: &[Option<Bit>],
    places: &mut Vec<usize>,
) -> Result<(), NoMemory>
    ensures { OnOk result (places.new.items ≡ places.old.items ++ filter (is_free_at table.now bits.now) (range_with_len 0 (length (all_bits table.now)))) }
{
    for place in 0..table.bits() {
        if is_free_at(table, bits, place) {
            places.push(place)?;
        }
    }
    Ok(())
}

/// Adds the inputs among the bits that are bound to constants.
pub fn add_constants(
    table: &Table,
    constants: &[PortConstant],
    places: &mut Vec<usize>,
) -> Result<(), NoMemory>
    requires { All (λ c. c.bit < length (all_bits table.now)) constants.now }
    ensures { OnOk result (places.new.items ≡ places.old.items ++ filter (is_input_at table.now) (map (λ c. c.bit) constants.now)) }
{
    for constant in constants {
        if is_input_at(table, constant.bit) {
            places.push(constant.bit)?;
        }
    }
    Ok(())
}
