// The positions of the indices of a vector.
ghost use Rattle.std.specs.Prelude.{◌≡◌, ◌<◌, ◌≤◌};
ghost use Rattle.sg_circuit.specs.Closed.{width_of};
ghost use Rattle.elab_model.specs.Bits as def;
ghost use Rattle.elab_bits.specs.Words.{ends};

use sg_circuit::Range;
use vl_tree::Select;

fn is_within(range: Range, index: i64) -> bool
    ensures { result ≡ def.is_within range index }
{
    (range.left <= index && index <= range.right) || (range.right <= index && index <= range.left)
}

/// The position of an index from the left; one out of range has none, nor has a scalar any (IEEE 1364-2005, 4.3.1).
pub fn position_at(range: Option<Range>, index: i64) -> Option<usize>
    ensures { result ≡ def.position_at range index }
{
    let range = range?;
    if !is_within(range, index) {
        return None;
    }
    Some(index.abs_diff(range.left) as usize)
}

/// The index at a position of a variable, from the left; a scalar has none (IEEE 1364-2005, 4.3.1).
pub fn index_at(range: Option<Range>, position: usize) -> Option<i64>
    requires within { position < width_of range }
    requires wide { width_of range ≤ 65536 }
    ensures { result ≡ def.index_at range position }
{
    let range = range?;
    let step = position as i64;
    if range.left <= range.right {
        return Some(range.left + step);
    }
    Some(range.left - step)
}

/// The positions of the left and the right bit that are meant, where both are in range.
pub fn ends(range: Option<Range>, select: Select) -> Option<(usize, usize)>
    ensures { result ≡ ends range select }
{
    match select {
        Select::Bit(index) => {
            let position = position_at(range, index)?;
            Some((position, position))
        }
        Select::Part { left, right } => {
            Some((position_at(range, left)?, position_at(range, right)?))
        }
    }
}
