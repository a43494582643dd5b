// The lines of variables, with ready codes.
ghost use Rattle.std.specs.Prelude.{◌≡◌, ◌+◌, ◌++◌, ◌∷◌, [], ◌<◌, ◌≤◌, ◌==◌, All, IfOk, OnOk, codes, false, length, map, not, slice_index_or, take, vec_len};
ghost use Rattle.std.specs.Vec.{vec_capacity};
ghost use Rattle.wave_out.specs.Lines.{bits_line};
ghost use Rattle.wave_out.specs.Ready.{AreLines, IsLine};
ghost use Rattle.wave_out.specs.Vcd.{code, value_letter, values_at};

use crate::words::push_code;
use cond_expr::Nets;
use sg_circuit::{FanOut, NetId};
use sg_logic::Value;
use std::alloc::{AllocError, Global};

/// The line of a variable, but for its value: 12 bytes.
#[derive(Clone, Copy)]
pub struct Line {
    /// The net of a variable of one bit.
    pub net: NetId,
    /// The code and the end of the line, and behind them nothing that is meant: a code has five bytes at most.
    pub end: [u8; 6],
    /// How many bytes the code and the end have.
    pub length: u8,
    /// Whether the variable has another number of bits than one.
    pub wide: bool,
}

// The code of the k-th variable, and the end of the line.
fn put_end(text: &mut Vec<u8>, k: u32) -> Result<(), AllocError>
    ensures end { OnOk result (text.new.items ≡ code k ++ 10 ∷ []) }
    ensures length { OnOk result (length text.new.items ≤ 6) }
{
    text.clear();
    push_code(text, k as usize)?;
    text.push(b'\n')?;
    Ok(())
}

fn six_of(end: &[u8]) -> [u8; 6]
    requires { length end.now ≤ 6 }
    ensures end { take (length end.now) result ≡ end.now }
    ensures six { length result ≡ 6 }
{
    let mut six = [0; 6];
    for (i, byte) in end.iter().enumerate() {
        six[i] = *byte;
    }
    six
}

fn net_of(bits: &[NetId]) -> NetId
    ensures { length bits.now ≡ 1 → bits.now ≡ result ∷ [] }
{
    if let [net] = bits { *net } else { 0 }
}

fn line_of(end: &[u8], bits: &[NetId]) -> Line
    requires { length end.now ≤ 6 }
    ensures end { take result.length result.end ≡ end.now }
    ensures fits { result.length ≤ length result.end }
    ensures six { length result.end ≡ 6 }
    ensures net { result.wide ≡ false → bits.now ≡ result.net ∷ [] }
    ensures wide { result.wide ≡ not (length bits.now == 1) }
{
    Line {
        net: net_of(bits),
        end: six_of(end),
        length: end.len() as u8,
        wide: bits.len() != 1,
    }
}

/// The lines of so many variables, which have these bits.
pub fn ready_lines(alloc: Global, count: u32, variables: &FanOut) -> Result<Vec<Line>, AllocError>
    requires { count ≡ length variables.now }
    ensures { IfOk result (λ lines. AreLines variables.now lines.items) }
{
    let mut lines = Vec::with_capacity(alloc, count as usize)?;
    let mut end = Vec::new(alloc);
    for k in 0..count {
        put_end(&mut end, k)?;
        lines.push(line_of(&end, variables.of(k)))?;
    }
    Ok(lines)
}

fn letter_of(value: Value) -> u8
    ensures { result ≡ value_letter value }
{
    match value {
        Value::Zero => b'0',
        Value::One => b'1',
        Value::X => b'x',
        Value::Z => b'z',
    }
}

fn push_letters<N: Nets>(text: &mut Vec<u8>, bits: &[NetId], nets: &N) -> Result<(), AllocError>
    requires { All (λ n. n < length (N.values nets.now)) bits.now }
    ensures { OnOk result (text.new.items ≡ text.old.items ++ map value_letter (values_at bits.now (N.values nets.now))) }
{
    for net in bits {
        text.push(letter_of(nets.at(*net)))?;
    }
    Ok(())
}

// The values of a vector's bits.
fn push_vector<N: Nets>(text: &mut Vec<u8>, bits: &[NetId], nets: &N) -> Result<(), AllocError>
    requires { All (λ n. n < length (N.values nets.now)) bits.now }
    ensures { OnOk result (text.new.items ≡ text.old.items ++ (codes "b" ++ map value_letter (values_at bits.now (N.values nets.now)) ++ codes " ")) }
{
    text.push(b'b')?;
    push_letters(text, bits, nets)?;
    text.push(b' ')?;
    Ok(())
}

// These bytes, for which there is room.
fn put_bytes(text: &mut Vec<u8>, bytes: &[u8])
    requires { vec_len text.old + length bytes.now ≤ vec_capacity text.old }
    ensures { text.new.items ≡ text.old.items ++ bytes.now }
{
    for byte in bytes {
        text.push_reserved(*byte);
    }
}

// The line of a variable of one bit, whose value this is: seven bytes at most, for which room is made once.
fn push_narrow(text: &mut Vec<u8>, value: Value, line: &Line) -> Result<(), AllocError>
    requires fits { line.now.length ≤ length line.now.end }
    requires six { length line.now.end ≡ 6 }
    ensures { OnOk result (text.new.items ≡ text.old.items ++ value_letter value ∷ take line.now.length line.now.end) }
{
    text.try_reserve(7)?;
    text.push_reserved(letter_of(value));
    put_bytes(text, &line.end[..line.length as usize]);
    Ok(())
}

// The first bytes of these, so many.
fn push_end(text: &mut Vec<u8>, bytes: &[u8], count: u8) -> Result<(), AllocError>
    requires { count ≤ length bytes.now }
    ensures { OnOk result (text.new.items ≡ text.old.items ++ take count bytes.now) }
{
    text.extend_from_slice(&bytes[..count as usize])
}

/// Adds the line of the k-th variable.
pub fn push_line<N: Nets>(
    text: &mut Vec<u8>,
    k: u32,
    lines: &[Line],
    variables: &FanOut,
    nets: &N,
) -> Result<(), AllocError>
    requires k { k < length variables.now }
    requires lines { AreLines variables.now lines.now }
    requires variables { All (λ bits. All (λ n. n < length (N.values nets.now)) bits) variables.now }
    ensures { OnOk result (text.new.items ≡ text.old.items ++ bits_line (N.values nets.now) k (slice_index_or variables.now k [])) }
{
    let line = &lines[k as usize];
    if !line.wide {
        return push_narrow(text, nets.at(line.net), line);
    }
    push_vector(text, variables.of(k), nets)?;
    push_end(text, &line.end, line.length)
}
