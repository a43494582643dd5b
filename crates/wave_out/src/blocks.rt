// The blocks of a dump: a time, and values of variables.
ghost use Rattle.std.specs.Prelude.{◌≡◌, ◌++◌, ◌<◌, All, OnOk, length};
ghost use Rattle.wave_out.specs.Lines.{bits_line, first_text};
ghost use Rattle.wave_out.specs.Ready.{AreLines};
ghost use Rattle.wave_out.specs.Texts.{by_number};
ghost use Rattle.wave_out.specs.Vcd.{time_line};

use crate::lines::{Line, push_line};
use crate::words::push_number;
use cond_expr::Nets;
use sg_circuit::FanOut;
use std::alloc::AllocError;

/// Adds the line of a time.
pub fn push_time(text: &mut Vec<u8>, time: u64) -> Result<(), AllocError>
    ensures { OnOk result (text.new.items ≡ text.old.items ++ time_line time) }
{
    text.push(b'#')?;
    push_number(text, time)?;
    text.push(b'\n')?;
    Ok(())
}

// The values of all variables, which are so many.
fn push_values<N: Nets>(
    text: &mut Vec<u8>,
    count: u32,
    lines: &[Line],
    variables: &FanOut,
    nets: &N,
) -> Result<(), AllocError>
    requires lines { AreLines variables.now lines.now }
    requires variables { All (λ bits. All (λ n. n < length (N.values nets.now)) bits) variables.now }
    requires count { count ≡ length variables.now }
    ensures { OnOk result (text.new.items ≡ text.old.items ++ by_number (bits_line (N.values nets.now)) 0 variables.now) }
{
    for k in 0..count {
        push_line(text, k, lines, variables, nets)?;
    }
    Ok(())
}

/// Adds the first block: the values of all variables, which are so many and have these lines and bits.
pub fn push_first<N: Nets>(
    text: &mut Vec<u8>,
    time: u64,
    count: u32,
    lines: &[Line],
    variables: &FanOut,
    nets: &N,
) -> Result<(), AllocError>
    requires lines { AreLines variables.now lines.now }
    requires variables { All (λ bits. All (λ n. n < length (N.values nets.now)) bits) variables.now }
    requires count { count ≡ length variables.now }
    ensures { OnOk result (text.new.items ≡ text.old.items ++ first_text time variables.now (N.values nets.now)) }
{
    push_time(text, time)?;
    text.extend_from_slice(b"$dumpvars\n")?;
    push_values(text, count, lines, variables, nets)?;
    text.extend_from_slice(b"$end\n")?;
    Ok(())
}
