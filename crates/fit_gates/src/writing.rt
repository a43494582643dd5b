// Gates as they are written.
ghost use Rattle.std.specs.Prelude.{◌≡◌, ◌++◌, ◌+◌, IfOk, OnOk, codes, Some, decimal, slice_get};
ghost use Rattle.fit_gates.specs.Gates.{seen};
ghost use Rattle.fit_gates.specs.Text as spelled;

use crate::gates::{Gate, Kind};
use crate::terms::Operand;
use itoa::Buffer;
use sg_logic::{GateKind, Value};
use sg_text::{NoMemory, is_name_byte, is_name_start, is_reserved};

/// A net's bit, and what it is to be: an operand over the gates.
#[derive(Clone, Copy)]
pub struct Join {
    pub target: Operand,
    pub source: Operand,
}

/// What gates are written with: the names of nets, the number of the first wire that is declared for them, and what they drive.
#[derive(Clone, Copy)]
pub struct Naming<'n> {
    pub names: &'n [&'n [u8]],
    pub first: u64,
    pub joins: &'n [Join],
}

fn are_name_bytes(bytes: &[u8]) -> bool
    ensures { result ≡ spelled.are_name_bytes bytes.now }
{
    bytes.iter().all(|b| is_name_byte(*b))
}

fn has_name_form(name: &[u8]) -> bool
    ensures { result ≡ spelled.has_name_form name.now }
{
    match name {
        [first, rest @ ..] => is_name_start(*first) && are_name_bytes(rest),
        [] => false,
    }
}

fn is_plain(name: &[u8]) -> bool
    ensures { result ≡ spelled.is_plain name.now }
{
    has_name_form(name) && !is_reserved(name)
}

// A name as it is written: an escaped one with its backslash and the blank that ends it (IEEE 1364-2005, 3.7.1).
fn push_name(text: &mut Vec<u8>, name: &[u8]) -> Result<(), NoMemory>
    ensures { OnOk result (text.new.items ≡ text.old.items ++ spelled.name_text name.now) }
{
    if !is_plain(name) {
        text.push(b'\\')?;
        text.extend_from_slice(name)?;
        text.push(b' ')?;
        return Ok(());
    }
    text.extend_from_slice(name)?;
    Ok(())
}

fn push_index(text: &mut Vec<u8>, index: i64) -> Result<(), NoMemory>
    ensures { OnOk result (text.new.items ≡ text.old.items ++ spelled.index_text (Some index)) }
{
    let mut buffer = Buffer::new();
    text.push(b'[')?;
    text.extend_from_slice(buffer.format(index).as_bytes())?;
    text.push(b']')?;
    Ok(())
}

fn push_named(text: &mut Vec<u8>, names: &[&[u8]], name: usize) -> Result<(), NoMemory>
    ensures { OnOk result (text.new.items ≡ text.old.items ++ spelled.named (slice_get names.now name)) }
{
    match names.get(name) {
        Some(name) => push_name(text, name),
        None => Ok(()),
    }
}

fn push_net(
    text: &mut Vec<u8>,
    names: &[&[u8]],
    name: usize,
    index: Option<i64>,
) -> Result<(), NoMemory>
    ensures { OnOk result (text.new.items ≡ text.old.items ++ (spelled.named (slice_get names.now name) ++ spelled.index_text index)) }
{
    push_named(text, names, name)?;
    match index {
        Some(index) => push_index(text, index),
        None => Ok(()),
    }
}

fn constant_text(value: Value) -> &'static str
    ensures { result.now ≡ spelled.constant_text value }
{
    match value {
        Value::Zero => "1'b0",
        Value::One => "1'b1",
        Value::X => "1'bx",
        Value::Z => "1'bz",
    }
}

fn push_fresh(text: &mut Vec<u8>, number: u64) -> Result<(), NoMemory>
    ensures { OnOk result (text.new.items ≡ text.old.items ++ (codes "sg_w" ++ decimal number)) }
{
    let mut buffer = Buffer::new();
    text.extend_from_slice(b"sg_w")?;
    text.extend_from_slice(buffer.format(number).as_bytes())?;
    Ok(())
}

// The number of a wire. `NoMemory` where it is 2^64 or more.
fn wire_number(first: u64, place: usize) -> Result<u64, NoMemory>
    ensures { IfOk result (λ n. n ≡ first + place) }
{
    match first.checked_add(place as u64) {
        Some(number) => Ok(number),
        None => Err(NoMemory),
    }
}

// An operand, where a wire is the one that is declared for it.
pub fn push_plain(text: &mut Vec<u8>, naming: &Naming<'_>, operand: Operand) -> Result<(), NoMemory>
    ensures { OnOk result (text.new.items ≡ text.old.items ++ spelled.plain_text naming.now operand) }
{
    match operand {
        Operand::Constant(value) => {
            text.extend_from_slice(constant_text(value).as_bytes())?;
            Ok(())
        }
        Operand::Net { name, index } => push_net(text, naming.names, name, index),
        Operand::Wire(place) => push_fresh(text, wire_number(naming.first, place)?),
    }
}

fn is_wire_at(operand: Operand, place: usize) -> bool
    ensures { result ≡ spelled.is_wire_at place operand }
{
    match operand {
        Operand::Wire(other) => other == place,
        _ => false,
    }
}

/// What a wire drives: the net's bit of the first join that it is the source of, or else itself.
pub fn end_of(joins: &[Join], place: usize) -> Operand
    ensures { result ≡ spelled.end_of joins.now place }
{
    let mut rest = joins;
    while let [join, behind @ ..] = rest {
        if is_wire_at(join.source, place) {
            return join.target;
        }
        rest = behind;
    }
    Operand::Wire(place)
}

/// Adds an operand as it is written: a wire that drives a net's bit is that bit.
pub fn push_operand(
    text: &mut Vec<u8>,
    naming: &Naming<'_>,
    operand: Operand,
) -> Result<(), NoMemory>
    ensures { OnOk result (text.new.items ≡ text.old.items ++ spelled.operand_text naming.now operand) }
{
    match operand {
        Operand::Wire(place) => push_plain(text, naming, end_of(naming.joins, place)),
        _ => push_plain(text, naming, operand),
    }
}

fn gate_word(kind: GateKind) -> &'static str
    ensures { result.now ≡ spelled.gate_word kind }
{
    match kind {
        GateKind::And => "and",
        GateKind::Nand => "nand",
        GateKind::Or => "or",
        GateKind::Nor => "nor",
        GateKind::Xor => "xor",
        GateKind::Xnor => "xnor",
        GateKind::Buf => "buf",
        GateKind::Not => "not",
        GateKind::Bufif0 => "bufif0",
        GateKind::Bufif1 => "bufif1",
        GateKind::Notif0 => "notif0",
        GateKind::Notif1 => "notif1",
    }
}

fn match_word(bit: bool, equal: bool) -> &'static str
    ensures { result.now ≡ spelled.match_word bit equal }
{
    match (bit, equal) {
        (false, true) => "sg_is0",
        (true, true) => "sg_is1",
        (false, false) => "sg_isnt0",
        (true, false) => "sg_isnt1",
    }
}

fn kind_word(kind: Kind) -> &'static str
    ensures { result.now ≡ spelled.kind_word kind }
{
    match kind {
        Kind::Gate(kind) => gate_word(kind),
        Kind::Match { bit, equal } => match_word(bit, equal),
        Kind::Choice => "sg_mux",
    }
}

fn push_input(text: &mut Vec<u8>, naming: &Naming<'_>, input: Operand) -> Result<(), NoMemory>
    ensures { OnOk result (text.new.items ≡ text.old.items ++ (codes ", " ++ spelled.operand_text naming.now input)) }
{
    text.extend_from_slice(b", ")?;
    push_operand(text, naming, input)
}

fn push_inputs(text: &mut Vec<u8>, naming: &Naming<'_>, inputs: &[Operand]) -> Result<(), NoMemory>
    ensures { OnOk result (text.new.items ≡ text.old.items ++ spelled.inputs_text naming.now inputs.now) }
{
    let mut rest = inputs;
    while let [input, behind @ ..] = rest {
        push_input(text, naming, *input)?;
        rest = behind;
    }
    Ok(())
}

/// Adds a gate with its output, as `and (y, a, b); `. A delay stands before the parentheses.
pub fn push_gate(
    text: &mut Vec<u8>,
    naming: &Naming<'_>,
    delay: &[u8],
    output: Operand,
    gate: &Gate,
) -> Result<(), NoMemory>
    ensures { OnOk result (text.new.items ≡ text.old.items ++ spelled.gate_text naming.now delay.now output (seen gate.now)) }
{
    text.extend_from_slice(kind_word(gate.kind).as_bytes())?;
    text.extend_from_slice(delay)?;
    text.extend_from_slice(b" (")?;
    push_plain(text, naming, output)?;
    push_inputs(text, naming, &gate.inputs)?;
    text.extend_from_slice(b"); ")?;
    Ok(())
}
