// Bits that are added one after another.
ghost use Rattle.std.specs.Prelude.{◌≡◌, ◌+◌, ◌-◌, ◌^◌, ◌<◌, ◌≤◌, ◌++◌, All, List, OnOk, length, map, reverse};
ghost use Rattle.std.specs.List.{range_with_len};
ghost use Rattle.vl_token.specs.Constants.{sized_bits};
ghost use Rattle.elab_model.specs.Names.{Variable};
ghost use Rattle.elab_model.specs.Bits.{positions_between};
ghost use Rattle.elab_variables.specs.Handing.{all_bits};
ghost use Rattle.elab_bits.specs.Seen.{IsInRow};
ghost use Rattle.elab_bits.specs.Words.{net_from};
ghost use Rattle.elab_bits.specs.declared.bits.Bit.TheVariants as bit;

use crate::Bit;
use crate::spans::Span;
use sg_logic::Value;
use sg_text::{NoMemory, Place};
use vl_token::Constant;

// The bits of a variable from one position to before another.
fn add_forth(start: usize, first: usize, end: usize, bits: &mut Vec<Bit>) -> Result<(), NoMemory>
    requires { start + end < 2 ^ 64 }
    ensures bits { OnOk result (bits.new.items ≡ bits.old.items ++ map (net_from start) (range_with_len first (end - first))) }
    ensures row { (vs : List Variable) → start + end ≤ length (all_bits vs) → All (IsInRow vs) bits.old.items → All (IsInRow vs) bits.new.items }
{
    for position in first..end {
        bits.push(Bit::Net(start + position))?;
    }
    Ok(())
}

// The same, from the last.
fn add_back(start: usize, first: usize, end: usize, bits: &mut Vec<Bit>) -> Result<(), NoMemory>
    requires { start + end < 2 ^ 64 }
    ensures bits { OnOk result (bits.new.items ≡ bits.old.items ++ map (net_from start) (reverse (range_with_len first (end - first)))) }
    ensures row { (vs : List Variable) → start + end ≤ length (all_bits vs) → All (IsInRow vs) bits.old.items → All (IsInRow vs) bits.new.items }
{
    let mut rest = end;
    while first < rest {
        rest -= 1;
        bits.push(Bit::Net(start + rest))?;
    }
    Ok(())
}

/// All bits of a variable.
pub fn add_all(span: Span, bits: &mut Vec<Bit>) -> Result<(), NoMemory>
    requires { span.start + span.width < 2 ^ 64 }
    ensures bits { OnOk result (bits.new.items ≡ bits.old.items ++ map (net_from span.start) (range_with_len 0 span.width)) }
    ensures row { (vs : List Variable) → span.start + span.width ≤ length (all_bits vs) → All (IsInRow vs) bits.old.items → All (IsInRow vs) bits.new.items }
{
    add_forth(span.start, 0, span.width, bits)
}

/// The bits of a variable from one position to another, in either direction.
pub fn add_part(span: Span, left: usize, right: usize, bits: &mut Vec<Bit>) -> Result<(), NoMemory>
    requires fits { span.start + span.width < 2 ^ 64 }
    requires left { left < span.width }
    requires right { right < span.width }
    ensures bits { OnOk result (bits.new.items ≡ bits.old.items ++ map (net_from span.start) (positions_between left right)) }
    ensures row { (vs : List Variable) → span.start + span.width ≤ length (all_bits vs) → All (IsInRow vs) bits.old.items → All (IsInRow vs) bits.new.items }
{
    if left <= right {
        return add_forth(span.start, left, right + 1, bits);
    }
    add_back(span.start, right, left + 1, bits)
}

// Values of a constant.
fn add_values(place: Place, values: &[Value], bits: &mut Vec<Bit>) -> Result<(), NoMemory>
    ensures bits { OnOk result (bits.new.items ≡ bits.old.items ++ map (bit.Constant place) values.now) }
    ensures row { (vs : List Variable) → All (IsInRow vs) bits.old.items → All (IsInRow vs) bits.new.items }
{
    for value in values {
        bits.push(Bit::Constant {
            place,
            value: *value,
        })?;
    }
    Ok(())
}

/// The bits of a constant.
pub fn add_constant(
    place: Place,
    constant: Constant<'_>,
    bits: &mut Vec<Bit>,
) -> Result<(), NoMemory>
    ensures bits { OnOk result (bits.new.items ≡ bits.old.items ++ map (bit.Constant place) (sized_bits constant.entry.width constant.entry.base constant.entry.digits.now)) }
    ensures row { (vs : List Variable) → All (IsInRow vs) bits.old.items → All (IsInRow vs) bits.new.items }
{
    let values = constant.bits(*bits.allocator())?;
    add_values(place, &values, bits)
}
