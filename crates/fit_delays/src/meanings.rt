// What conditions mean: a text that they share if they hold for the same values of their nets. Operators have the order of IEEE 1364-2005, 5.1.2,
// and all operands have one bit, so that `A == 1'b1` is A, `!A` is `~A` and `A && B` is `B & A` (5.1.8 to 5.1.11).
use crate::conditions::{is_before, value_text};
use crate::spelling::{push_integer, push_name};
use cond_expr::{Op, Tok};
use sg_text::NoMemory;
use std::alloc::Global;

const ZERO: &[u8] = b"1'b0";

const ONE: &[u8] = b"1'b1";

#[derive(Clone, Copy, PartialEq)]
enum Shape {
    Single,
    All,
    Any,
}

// An operand: one text, or those of a conjunction or a disjunction.
#[derive(Drop)]
struct Operand {
    shape: Shape,
    texts: Vec<Vec<u8>>,
}

// What waits for its operands.
#[derive(Clone, Copy)]
enum Waiting {
    Left,
    Unary(Op),
    Binary(Op),
}

// How tightly an operator between two operands binds.
fn level_of(op: Op) -> u32 {
    match op {
        Op::OrOr => 1,
        Op::AndAnd => 2,
        Op::Or => 3,
        Op::Xor | Op::TildeXor | Op::XorTilde => 4,
        Op::And => 5,
        Op::Equal | Op::Unequal | Op::CaseEqual | Op::CaseUnequal => 6,
        Op::Tilde | Op::Bang => 7,
    }
}

fn single(alloc: Global, text: Vec<u8>) -> Result<Operand, NoMemory> {
    let mut texts = Vec::new(alloc);
    texts.push(text)?;
    Ok(Operand {
        shape: Shape::Single,
        texts,
    })
}

// The texts of an operand in order, in one.
fn text_of(alloc: Global, operand: Operand) -> Result<Vec<u8>, NoMemory> {
    let mut texts = operand.texts;
    let mut text = Vec::new(alloc);
    let open: &[u8] = match operand.shape {
        Shape::Single => b"",
        Shape::All => b"&(",
        Shape::Any => b"|(",
    };
    text.extend_from_slice(open)?;
    texts.sort()?;
    for (at, one) in texts.iter().enumerate() {
        if at > 0 {
            text.push(b',')?;
        }
        text.extend_from_slice(one)?;
    }
    if operand.shape != Shape::Single {
        text.push(b')')?;
    }
    Ok(text)
}

fn negated(alloc: Global, text: &[u8]) -> Result<Vec<u8>, NoMemory> {
    if let [b'~', rest @ ..] = text {
        return Ok(Vec::from_slice(alloc, rest)?);
    }
    let mut made = Vec::from_slice(alloc, b"~")?;
    made.extend_from_slice(text)?;
    Ok(made)
}

// Two texts in order behind a mark.
fn paired(alloc: Global, mark: u8, one: &[u8], other: &[u8]) -> Result<Vec<u8>, NoMemory> {
    let (first, second) = if one <= other {
        (one, other)
    } else {
        (other, one)
    };
    let mut text = Vec::new(alloc);
    text.push(mark)?;
    text.push(b'(')?;
    text.extend_from_slice(first)?;
    text.push(b',')?;
    text.extend_from_slice(second)?;
    text.push(b')')?;
    Ok(text)
}

// Whether two operands are equal.
fn equality(alloc: Global, one: &[u8], other: &[u8]) -> Result<Vec<u8>, NoMemory> {
    if other == ONE {
        Ok(Vec::from_slice(alloc, one)?)
    } else if one == ONE {
        Ok(Vec::from_slice(alloc, other)?)
    } else if other == ZERO {
        negated(alloc, one)
    } else if one == ZERO {
        negated(alloc, other)
    } else {
        paired(alloc, b'=', one, other)
    }
}

// The operands of a conjunction or a disjunction of two.
fn joined(alloc: Global, shape: Shape, one: Operand, other: Operand) -> Result<Operand, NoMemory> {
    let mut texts = Vec::new(alloc);
    for operand in [one, other] {
        if operand.shape == shape {
            for text in operand.texts {
                texts.push(text)?;
            }
        } else {
            texts.push(text_of(alloc, operand)?)?;
        }
    }
    Ok(Operand { shape, texts })
}

fn compared(alloc: Global, op: Op, one: Operand, other: Operand) -> Result<Operand, NoMemory> {
    let one = text_of(alloc, one)?;
    let other = text_of(alloc, other)?;
    let text = match op {
        Op::Equal | Op::TildeXor | Op::XorTilde => equality(alloc, &one, &other)?,
        Op::CaseEqual => paired(alloc, b'#', &one, &other)?,
        Op::CaseUnequal => negated(alloc, &paired(alloc, b'#', &one, &other)?)?,
        _ => negated(alloc, &equality(alloc, &one, &other)?)?,
    };
    single(alloc, text)
}

// Operands of which enough are there, and what waits for others.
#[derive(Drop)]
struct Reading {
    alloc: Global,
    operands: Vec<Operand>,
    waiting: Vec<Waiting>,
}

// The last operand; an empty one where there is none.
fn last_operand(alloc: Global, operands: &mut Vec<Operand>) -> Result<Operand, NoMemory> {
    match operands.pop() {
        Some(operand) => Ok(operand),
        None => single(alloc, Vec::new(alloc)),
    }
}

// Applies what waits to the last operands.
fn apply(alloc: Global, operands: &mut Vec<Operand>, waiting: Waiting) -> Result<(), NoMemory> {
    let last = last_operand(alloc, operands)?;
    let made = match waiting {
        Waiting::Left => last,
        Waiting::Unary(Op::Tilde | Op::Bang) => {
            let text = text_of(alloc, last)?;
            single(alloc, negated(alloc, &text)?)?
        }
        Waiting::Unary(_) => last,
        Waiting::Binary(Op::And | Op::AndAnd) => {
            let first = last_operand(alloc, operands)?;
            joined(alloc, Shape::All, first, last)?
        }
        Waiting::Binary(Op::Or | Op::OrOr) => {
            let first = last_operand(alloc, operands)?;
            joined(alloc, Shape::Any, first, last)?
        }
        Waiting::Binary(op) => {
            let first = last_operand(alloc, operands)?;
            compared(alloc, op, first, last)?
        }
    };
    operands.push(made)?;
    Ok(())
}

impl Reading {
    // Applies what binds at least so tightly, up to the last parenthesis.
    fn settle(&mut self, level: u32) -> Result<(), NoMemory> {
        while let Some(waiting) = self.waiting.pop() {
            let binds = match waiting {
                Waiting::Left => false,
                Waiting::Unary(_) => true,
                Waiting::Binary(op) => level_of(op) >= level,
            };
            if !binds {
                self.waiting.push(waiting)?;
                break;
            }
            apply(self.alloc, &mut self.operands, waiting)?;
        }
        Ok(())
    }

    fn add_op(&mut self, op: Op, before: bool) -> Result<(), NoMemory> {
        if before {
            self.waiting.push(Waiting::Unary(op))?;
            return Ok(());
        }
        self.settle(level_of(op))?;
        self.waiting.push(Waiting::Binary(op))?;
        Ok(())
    }

    fn add_text(&mut self, text: Vec<u8>) -> Result<(), NoMemory> {
        let operand = single(self.alloc, text)?;
        self.operands.push(operand)?;
        Ok(())
    }

    fn add_index(&mut self, index: i64) -> Result<(), NoMemory> {
        let operand = last_operand(self.alloc, &mut self.operands)?;
        let mut text = text_of(self.alloc, operand)?;
        text.push(b'[')?;
        push_integer(&mut text, index)?;
        text.push(b']')?;
        self.add_text(text)
    }

    fn add(&mut self, tok: &Tok<Vec<u8>>, before: bool) -> Result<(), NoMemory> {
        match tok {
            Tok::Name(name) => {
                let mut text = Vec::new(self.alloc);
                push_name(&mut text, name)?;
                self.add_text(text)
            }
            Tok::Index(n) => self.add_index(*n),
            Tok::Const(value) => { self.add_text(Vec::from_slice(self.alloc, value_text(*value))?) }
            Tok::Op(op) => self.add_op(*op, before),
            Tok::Left => Ok(self.waiting.push(Waiting::Left)?),
            Tok::Right => {
                self.settle(0)?;
                let _ = self.waiting.pop();
                Ok(())
            }
        }
    }
}

/// What a condition's words mean. Takes memory.
pub fn meaning_of(alloc: Global, toks: &[Tok<Vec<u8>>]) -> Result<Vec<u8>, NoMemory> {
    let mut reading = Reading {
        alloc,
        operands: Vec::new(alloc),
        waiting: Vec::new(alloc),
    };
    let mut last = None;
    for tok in toks {
        reading.add(tok, is_before(last))?;
        last = Some(tok);
    }
    reading.settle(0)?;
    let operand = last_operand(alloc, &mut reading.operands)?;
    text_of(alloc, operand)
}

/// What it means that each of some conditions is 0: those of the other paths, where that of an `ifnone` is spelled out.
pub fn none_of(alloc: Global, meanings: &[Vec<u8>]) -> Result<Vec<u8>, NoMemory> {
    let mut all = Operand {
        shape: Shape::All,
        texts: Vec::new(alloc),
    };
    for meaning in meanings {
        all.texts.push(paired(alloc, b'#', meaning, ZERO)?)?;
    }
    if all.texts.len() == 1 {
        all.shape = Shape::Single;
    }
    text_of(alloc, all)
}
