// Words of the text: names, indexes, numbers and the unit.
ghost use Rattle.std.specs.Prelude.{◌≡◌, ◌++◌, decimal, flat_map, OnOk, Some};
ghost use Rattle.std.specs.Fmt.{signed_decimal};
ghost use Rattle.written_model.specs.Names.{escaped, first_escaped, index_text, name_text};
ghost use Rattle.written_model.specs.Text.{count_text, text_below, tick_text, unit_text, value_text};

use itoa::Buffer;
use sg_text::is_name_byte;
use sg_time::Unit;
use std::alloc::AllocError;

fn push_escaped(text: &mut Vec<u8>, byte: u8) -> Result<(), AllocError>
    ensures { OnOk result (text.new.items ≡ text.old.items ++ escaped byte) }
{
    if !is_name_byte(byte) {
        text.push(b'\\')?;
    }
    text.push(byte)?;
    Ok(())
}

fn push_first(text: &mut Vec<u8>, byte: u8) -> Result<(), AllocError>
    ensures { OnOk result (text.new.items ≡ text.old.items ++ first_escaped byte) }
{
    if !byte.is_ascii_digit() {
        return push_escaped(text, byte);
    }
    text.push(b'\\')?;
    text.push(byte)?;
    Ok(())
}

fn push_bytes(text: &mut Vec<u8>, bytes: &[u8]) -> Result<(), AllocError>
    ensures { OnOk result (text.new.items ≡ text.old.items ++ flat_map escaped bytes.now) }
{
    for byte in bytes {
        push_escaped(text, *byte)?;
    }
    Ok(())
}

/// Adds a name, with a backslash before each byte that needs one.
pub fn push_name(text: &mut Vec<u8>, name: &[u8]) -> Result<(), AllocError>
    ensures { OnOk result (text.new.items ≡ text.old.items ++ name_text name.now) }
{
    match name {
        [] => Ok(()),
        [first, rest @ ..] => {
            push_first(text, *first)?;
            push_bytes(text, rest)
        }
    }
}

/// Adds a number.
pub fn push_number(text: &mut Vec<u8>, number: u64) -> Result<(), AllocError>
    ensures { OnOk result (text.new.items ≡ text.old.items ++ decimal number) }
{
    let mut buffer = Buffer::new();
    text.extend_from_slice(buffer.format(number).as_bytes())
}

/// Adds a number with its sign.
pub fn push_signed(text: &mut Vec<u8>, number: i64) -> Result<(), AllocError>
    ensures { OnOk result (text.new.items ≡ text.old.items ++ signed_decimal number) }
{
    let mut buffer = Buffer::new();
    text.extend_from_slice(buffer.format(number).as_bytes())
}

/// Adds a bit select.
pub fn push_index(text: &mut Vec<u8>, index: i64) -> Result<(), AllocError>
    ensures { OnOk result (text.new.items ≡ text.old.items ++ index_text (Some index)) }
{
    text.push(b'[')?;
    push_signed(text, index)?;
    text.push(b']')?;
    Ok(())
}

/// Adds a number as a value.
pub fn push_value(text: &mut Vec<u8>, number: u64) -> Result<(), AllocError>
    ensures { OnOk result (text.new.items ≡ text.old.items ++ value_text (decimal number)) }
{
    text.push(b'(')?;
    push_number(text, number)?;
    text.push(b')')?;
    Ok(())
}

/// Adds a number with its sign as a value.
pub fn push_signed_value(text: &mut Vec<u8>, number: i64) -> Result<(), AllocError>
    ensures { OnOk result (text.new.items ≡ text.old.items ++ value_text (signed_decimal number)) }
{
    text.push(b'(')?;
    push_signed(text, number)?;
    text.push(b')')?;
    Ok(())
}

fn count_word(n: usize) -> &'static str
    ensures { result.now ≡ count_text n }
{
    match n {
        0 => "100",
        1 => "10",
        _ => "1",
    }
}

fn unit_word(n: usize) -> &'static str
    ensures { result.now ≡ unit_text n }
{
    match n {
        0 => "s",
        1 => "ms",
        2 => "us",
        3 => "ns",
        4 => "ps",
        _ => "fs",
    }
}

fn push_below(text: &mut Vec<u8>, below: usize) -> Result<(), AllocError>
    ensures { OnOk result (text.new.items ≡ text.old.items ++ text_below below) }
{
    text.extend_from_slice(count_word(below % 3).as_bytes())?;
    text.extend_from_slice(unit_word(below / 3).as_bytes())
}

/// Adds a tick.
pub fn push_tick(text: &mut Vec<u8>, tick: Unit) -> Result<(), AllocError>
    ensures { OnOk result (text.new.items ≡ text.old.items ++ tick_text tick.power) }
{
    push_below(text, (2 - tick.power) as usize)
}
