// The words of the lines, each behind a blank.
ghost use Rattle.std.specs.Prelude.{◌≡◌, ◌++◌, OnOk};
ghost use Rattle.std.specs.Fmt.{signed_decimal};
ghost use Rattle.wave_out.specs.Vcd.{value_letter};
ghost use Rattle.sim_save.specs.Lines.{event_word, letter, number, word};

use itoa::Buffer;
use sg_logic::Value;
use std::alloc::AllocError;

/// Adds a number.
pub fn push_number(text: &mut Vec<u8>, n: u64) -> Result<(), AllocError>
    ensures { OnOk result (text.new.items ≡ text.old.items ++ number n) }
{
    let mut buffer = Buffer::new();
    text.push(b' ')?;
    text.extend_from_slice(buffer.format(n).as_bytes())?;
    Ok(())
}

/// Adds a power of ten.
pub fn push_power(text: &mut Vec<u8>, power: i8) -> Result<(), AllocError>
    ensures { OnOk result (text.new.items ≡ text.old.items ++ word (signed_decimal power)) }
{
    let mut buffer = Buffer::new();
    text.push(b' ')?;
    text.extend_from_slice(buffer.format(power).as_bytes())?;
    Ok(())
}

fn letter_of(value: Value) -> u8
    ensures { result ≡ value_letter value }
{
    match value {
        Value::Zero => b'0',
        Value::One => b'1',
        Value::X => b'x',
        Value::Z => b'z',
    }
}

/// Adds the letter of a value.
pub fn push_letter(text: &mut Vec<u8>, value: Value) -> Result<(), AllocError>
    ensures { OnOk result (text.new.items ≡ text.old.items ++ letter value) }
{
    text.push(b' ')?;
    text.push(letter_of(value))?;
    Ok(())
}

/// Adds the time of a check's latest event, or `-`.
pub fn push_event(text: &mut Vec<u8>, event: Option<u64>) -> Result<(), AllocError>
    ensures { OnOk result (text.new.items ≡ text.old.items ++ event_word event) }
{
    match event {
        Some(time) => push_number(text, time),
        None => text.extend_from_slice(b" -"),
    }
}
