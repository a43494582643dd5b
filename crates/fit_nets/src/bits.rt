// The bits of expressions of nets, selects and constants.
use fit_items::{Nets, Run, is_symbol, name_of, push_name, range_of, tokens_of, whole_number};
use fit_values::View;
use itoa::Buffer;
use sg_logic::Value;
use sg_text::NoMemory;
use vl_token::{Constant, Symbol, Token, TokenKind};

// No vector of a netlist has more.
const MOST_BITS: u64 = 65536;

fn is_between(token: &Token<'_>) -> bool {
    match token.kind {
        TokenKind::Symbol(Symbol::LeftBrace | Symbol::RightBrace | Symbol::Comma) => true,
        _ => false,
    }
}

/// The operands of an expression: itself, or what is joined in its braces. Takes memory.
pub fn operands(view: &View<'_, '_, '_>, run: Run) -> Result<Vec<Run>, NoMemory> {
    let mut list = Vec::new(view.alloc);
    let mut first = run.first;
    for (place, token) in tokens_of(view.part, run).iter().enumerate() {
        if is_between(token) {
            let at = run.first.saturating_add(place);
            if first < at {
                list.push(Run { first, end: at })?;
            }
            first = at.saturating_add(1);
        }
    }
    if first < run.end {
        list.push(Run {
            first,
            end: run.end,
        })?;
    }
    Ok(list)
}

/// Bits of a net, from one to another, or a net of one bit, or a constant.
#[derive(Clone, Copy)]
pub enum Operand<'a> {
    Whole(&'a [u8]),
    Bits {
        name: &'a [u8],
        left: i64,
        right: i64,
    },
    Constant(Constant<'a>),
}

// The select in brackets behind a name.
fn select_of<'a>(
    view: &View<'_, 'a, '_>,
    name: &'a [u8],
    inner: Run,
) -> Result<Option<Operand<'a>>, NoMemory> {
    if let Some(bit) = whole_number(view.part, inner) {
        return Ok(Some(Operand::Bits {
            name,
            left: bit,
            right: bit,
        }));
    }
    let range = range_of(view.alloc, view.part, inner)?;
    Ok(range.map(|(left, right)| Operand::Bits { name, left, right }))
}

fn name_operand<'a>(name: &'a [u8], nets: &Nets<'_>) -> Option<Operand<'a>> {
    match nets.get(name) {
        Some(Some((left, right))) => Some(Operand::Bits { name, left, right }),
        Some(None) => Some(Operand::Whole(name)),
        None if nets.declares(name) => None,
        None => Some(Operand::Whole(name)),
    }
}

/// What an operand is, if it is that of a netlist.
pub fn operand_of<'a>(
    view: &View<'_, 'a, '_>,
    run: Run,
    nets: &Nets<'_>,
) -> Result<Option<Operand<'a>>, NoMemory> {
    let tokens = tokens_of(view.part, run);
    match tokens {
        [one] => match one.kind {
            TokenKind::Name(name) => Ok(name_operand(name, nets)),
            TokenKind::Sized(constant) => Ok(Some(Operand::Constant(constant))),
            _ => Ok(None),
        },
        [first, open, .., _] if is_symbol(open, Symbol::LeftBracket) => match name_of(first) {
            Some(name) => {
                let inner = Run {
                    first: run.first.saturating_add(2),
                    end: run.end.saturating_sub(1),
                };
                select_of(view, name, inner)
            }
            None => Ok(None),
        },
        _ => Ok(None),
    }
}

impl<'a> Operand<'a> {
    /// How many bits it has, if a netlist may have so many.
    pub fn width(&self) -> Option<u64> {
        let width = match self {
            Operand::Whole(_) => 1,
            Operand::Bits { left, right, .. } => left.abs_diff(*right).checked_add(1)?,
            Operand::Constant(constant) => u64::from(constant.width),
        };
        if width <= MOST_BITS {
            Some(width)
        } else {
            None
        }
    }
}

/// How many bits an expression has, if that is known.
pub fn width_of(
    view: &View<'_, '_, '_>,
    run: Run,
    nets: &Nets<'_>,
) -> Result<Option<u64>, NoMemory> {
    let mut total: u64 = 0;
    for piece in operands(view, run)? {
        let operand = operand_of(view, piece, nets)?;
        let Some(width) = operand.and_then(|operand| operand.width()) else {
            return Ok(None);
        };
        total = total.saturating_add(width);
    }
    Ok(Some(total))
}

// Adds `name[bit]`.
fn push_bit(text: &mut Vec<u8>, name: &[u8], bit: i64) -> Result<(), NoMemory> {
    push_name(text, name)?;
    let mut buffer = Buffer::new();
    text.push(b'[')?;
    text.extend_from_slice(buffer.format(bit).as_bytes())?;
    text.push(b']')?;
    Ok(())
}

fn value_text(value: Value) -> &'static [u8] {
    match value {
        Value::Zero => b"1'b0",
        Value::One => b"1'b1",
        Value::X => b"1'bx",
        Value::Z => b"1'bz",
    }
}

// The bits of a constant, the leftmost first.
fn constant_texts(
    view: &View<'_, '_, '_>,
    constant: &Constant<'_>,
    texts: &mut Vec<Vec<u8>>,
) -> Result<(), NoMemory> {
    for value in &constant.bits(view.alloc)? {
        texts.push(Vec::from_slice(view.alloc, value_text(*value))?)?;
    }
    Ok(())
}

fn bit_text(view: &View<'_, '_, '_>, name: &[u8], bit: i64) -> Result<Vec<u8>, NoMemory> {
    let mut text = Vec::new(view.alloc);
    push_bit(&mut text, name, bit)?;
    Ok(text)
}

// The bits from one to another.
fn bits_texts(
    view: &View<'_, '_, '_>,
    name: &[u8],
    left: i64,
    right: i64,
    texts: &mut Vec<Vec<u8>>,
) -> Result<(), NoMemory> {
    let mut bit = left;
    for _ in 0..=left.abs_diff(right) {
        texts.push(bit_text(view, name, bit)?)?;
        bit = if left > right {
            bit.saturating_sub(1)
        } else {
            bit.saturating_add(1)
        };
    }
    Ok(())
}

fn operand_texts(
    view: &View<'_, '_, '_>,
    operand: &Operand<'_>,
    texts: &mut Vec<Vec<u8>>,
) -> Result<(), NoMemory> {
    match operand {
        Operand::Whole(name) => {
            let mut text = Vec::new(view.alloc);
            push_name(&mut text, name)?;
            texts.push(text)?;
            Ok(())
        }
        Operand::Bits { name, left, right } => bits_texts(view, name, *left, *right, texts),
        Operand::Constant(constant) => constant_texts(view, constant, texts),
    }
}

/// The bits of an expression as they are written, the leftmost first, if its width is known. Takes memory.
pub fn bit_texts(
    view: &View<'_, '_, '_>,
    run: Run,
    nets: &Nets<'_>,
) -> Result<Option<Vec<Vec<u8>>>, NoMemory> {
    if width_of(view, run, nets)?.is_none() {
        return Ok(None);
    }
    let mut texts = Vec::new(view.alloc);
    for piece in operands(view, run)? {
        if let Some(operand) = operand_of(view, piece, nets)? {
            operand_texts(view, &operand, &mut texts)?;
        }
    }
    Ok(Some(texts))
}
