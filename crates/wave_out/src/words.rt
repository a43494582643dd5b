// Words of the dump: names, numbers, codes and ticks.
ghost use Rattle.std.specs.Prelude.{◌≡◌, ◌++◌, ◌∷◌, ◌&&◌, ◌<◌, not, decimal, OnOk};
ghost use Rattle.std.specs.Fmt.{signed_decimal};
ghost use Rattle.sg_text.specs.Names.{is_simple};
ghost use Rattle.sg_text.specs.Words.{is_reserved_word};
ghost use Rattle.wave_out.specs.Texts.{written_name};
ghost use Rattle.wave_out.specs.Vcd.{code, number_of, unit_of, text_below, tick_text, range_text};

use itoa::Buffer;
use sg_circuit::Range;
use sg_text::{is_reserved, is_simple_name};
use sg_time::Unit;
use std::alloc::AllocError;

// Whether a name is written as it is.
fn is_plain(name: &[u8]) -> bool
    ensures { result ≡ (is_simple name.now && not (is_reserved_word name.now)) }
{
    is_simple_name(name) && !is_reserved(name)
}

fn push_escaped(text: &mut Vec<u8>, name: &[u8]) -> Result<(), AllocError>
    ensures { OnOk result (text.new.items ≡ text.old.items ++ 92 ∷ name.now) }
{
    text.push(b'\\')?;
    text.extend_from_slice(name)?;
    Ok(())
}

/// Adds a name, with a backslash where it isn't a plain one.
pub fn push_name(text: &mut Vec<u8>, name: &[u8]) -> Result<(), AllocError>
    ensures { OnOk result (text.new.items ≡ text.old.items ++ written_name name.now) }
{
    if is_plain(name) {
        text.extend_from_slice(name)
    } else {
        push_escaped(text, name)
    }
}

/// Adds the identifier code of the k-th variable.
#[tactic(auto, using(crate::proofs::CodeLaws::code_small, crate::proofs::CodeLaws::code_large))]
pub fn push_code(text: &mut Vec<u8>, k: usize) -> Result<(), AllocError>
    ensures { OnOk result (text.new.items ≡ text.old.items ++ code k) }
{
    let mut rest = k;
    loop {
        text.push(33 + (rest % 94) as u8)?;
        if rest < 94 {
            return Ok(());
        }
        rest = rest / 94 - 1;
    }
}

/// Adds a number.
pub fn push_number(text: &mut Vec<u8>, number: u64) -> Result<(), AllocError>
    ensures { OnOk result (text.new.items ≡ text.old.items ++ decimal number) }
{
    let mut buffer = Buffer::new();
    text.extend_from_slice(buffer.format(number).as_bytes())
}

/// Adds a number with its sign.
pub fn push_signed(text: &mut Vec<u8>, number: i64) -> Result<(), AllocError>
    ensures { OnOk result (text.new.items ≡ text.old.items ++ signed_decimal number) }
{
    let mut buffer = Buffer::new();
    text.extend_from_slice(buffer.format(number).as_bytes())
}

fn number_word(n: usize) -> &'static str
    ensures { result.now ≡ number_of n }
{
    match n {
        0 => "100",
        1 => "10",
        _ => "1",
    }
}

fn unit_word(n: usize) -> &'static str
    ensures { result.now ≡ unit_of n }
{
    match n {
        0 => "s",
        1 => "ms",
        2 => "us",
        3 => "ns",
        4 => "ps",
        _ => "fs",
    }
}

fn push_below(text: &mut Vec<u8>, below: usize) -> Result<(), AllocError>
    ensures { OnOk result (text.new.items ≡ text.old.items ++ text_below below) }
{
    text.extend_from_slice(number_word(below % 3).as_bytes())?;
    text.push(b' ')?;
    text.extend_from_slice(unit_word(below / 3).as_bytes())?;
    Ok(())
}

/// Adds a tick.
pub fn push_tick(text: &mut Vec<u8>, tick: Unit) -> Result<(), AllocError>
    ensures { OnOk result (text.new.items ≡ text.old.items ++ tick_text tick.power) }
{
    push_below(text, (2 - tick.power) as usize)
}

fn push_indices(text: &mut Vec<u8>, range: Range) -> Result<(), AllocError>
    ensures { OnOk result (text.new.items ≡ text.old.items ++ range_text (Some range)) }
{
    text.extend_from_slice(b" [")?;
    push_signed(text, range.left)?;
    text.push(b':')?;
    push_signed(text, range.right)?;
    text.push(b']')?;
    Ok(())
}

/// Adds the range of a variable that has one.
pub fn push_range(text: &mut Vec<u8>, range: Option<Range>) -> Result<(), AllocError>
    ensures { OnOk result (text.new.items ≡ text.old.items ++ range_text range) }
{
    match range {
        Some(range) => push_indices(text, range),
        None => Ok(()),
    }
}
