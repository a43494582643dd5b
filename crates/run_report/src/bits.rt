// The index of a bit.
ghost use Rattle.std.specs.Prelude.{◌≡◌, ◌++◌, Some, OnOk};
ghost use Rattle.run_report.specs.Texts.{bit_text};

use std::alloc::AllocError;
use wave_out::push_signed;

fn push_index(text: &mut Vec<u8>, bit: i64) -> Result<(), AllocError>
    ensures { OnOk result (text.new.items ≡ text.old.items ++ bit_text (Some bit)) }
{
    text.push(b'[')?;
    push_signed(text, bit)?;
    text.push(b']')?;
    Ok(())
}

/// Adds the index of a bit, if there is one.
pub fn push_bit(text: &mut Vec<u8>, bit: Option<i64>) -> Result<(), AllocError>
    ensures { OnOk result (text.new.items ≡ text.old.items ++ bit_text bit) }
{
    match bit {
        Some(bit) => push_index(text, bit),
        None => Ok(()),
    }
}
