// Expressions read from tokens: operands and what was begun wait on two stacks.
use crate::bits::{based_bits, name_bits, number_bits, select_at, select_bits, sized_bits};
use crate::folding::{fold, join, repeat};
use crate::opens::{ALL, OPERATORS, Open, hold_of, infix_of, is_question, level_of, prefix_of};
use crate::scope::{Scope, is_parameter};
use crate::stop::Stop;
use fit_gates::{Operand, Term};
use fit_items::{Run, is_symbol, whole_number};
use std::alloc::Global;
use vl_token::{Symbol, Token, TokenKind};

// No brace stands for more copies.
const MOST_TIMES: i64 = 65536;

/// Operands that are read, and what was begun.
#[derive(Drop)]
struct Stacks {
    terms: Vec<Term>,
    open: Vec<Open>,
    wants_operand: bool,
}

impl Stacks {
    fn new(alloc: Global) -> Stacks {
        Stacks {
            terms: Vec::new(alloc),
            open: Vec::new(alloc),
            wants_operand: true,
        }
    }

    fn put_operand(&mut self, bits: Vec<Operand>) -> Result<(), Stop> {
        self.terms.push(Term::Bits(bits))?;
        self.wants_operand = false;
        Ok(())
    }

    fn begin(&mut self, open: Open) -> Result<(), Stop> {
        self.open.push(open)?;
        self.wants_operand = true;
        Ok(())
    }

    // Ends the operators that bind at least so tight.
    fn close(&mut self, alloc: Global, level: u8) -> Result<(), Stop> {
        for _ in 0..self.open.len() {
            match self.open.pop_if(|open| hold_of(*open) >= level) {
                Some(open) => fold(alloc, &mut self.terms, open)?,
                None => return Ok(()),
            }
        }
        Ok(())
    }

    fn close_paren(&mut self, alloc: Global) -> Result<(), Stop> {
        self.close(alloc, ALL)?;
        match self.open.pop() {
            Some(Open::Paren) => Ok(()),
            _ => Err(Stop::Other),
        }
    }

    fn close_brace(&mut self, alloc: Global) -> Result<(), Stop> {
        self.close(alloc, ALL)?;
        match self.open.pop() {
            Some(Open::Brace(more)) => join(alloc, &mut self.terms, more),
            Some(Open::Times(times)) => repeat(alloc, &mut self.terms, times),
            _ => Err(Stop::Other),
        }
    }

    fn next_part(&mut self, alloc: Global) -> Result<(), Stop> {
        self.close(alloc, ALL)?;
        match self.open.pop() {
            Some(Open::Brace(more)) => self.begin(Open::Brace(more.saturating_add(1))),
            _ => Err(Stop::Other),
        }
    }

    fn colon(&mut self, alloc: Global) -> Result<(), Stop> {
        self.close(alloc, ALL)?;
        match self.open.pop() {
            Some(Open::Question) => self.begin(Open::Colon),
            _ => Err(Stop::Other),
        }
    }

    fn infix(&mut self, alloc: Global, symbol: Symbol) -> Result<(), Stop> {
        let Some(infix) = infix_of(symbol) else {
            return Err(Stop::Other);
        };
        self.close(alloc, level_of(infix))?;
        self.begin(Open::Between(infix))
    }

    // What stands behind an operand.
    fn behind(&mut self, alloc: Global, token: &Token<'_>) -> Result<(), Stop> {
        if is_question(token) {
            self.close(alloc, OPERATORS)?;
            return self.begin(Open::Question);
        }
        match token.kind {
            TokenKind::Symbol(Symbol::RightParen) => self.close_paren(alloc),
            TokenKind::Symbol(Symbol::RightBrace) => self.close_brace(alloc),
            TokenKind::Symbol(Symbol::Comma) => self.next_part(alloc),
            TokenKind::Symbol(Symbol::Colon) => self.colon(alloc),
            TokenKind::Symbol(symbol) => self.infix(alloc, symbol),
            _ => Err(Stop::Other),
        }
    }

    // A constant without a width has no place in a brace (IEEE 1364-2005, 5.1.14).
    fn takes_unsized(&self) -> bool {
        match self.open.last() {
            Some(Open::Brace(_)) => false,
            _ => true,
        }
    }

    fn ended(mut self, alloc: Global) -> Result<Term, Stop> {
        if self.wants_operand {
            return Err(Stop::Other);
        }
        self.close(alloc, ALL)?;
        match self.terms.pop() {
            Some(term) if self.open.is_empty() => Ok(term),
            _ => Err(Stop::Other),
        }
    }
}

// How many times the brace at a place stands, if a number and a brace come behind it.
fn times_at(part: &[Token<'_>], at: usize) -> Option<usize> {
    let next = at.saturating_add(1);
    let behind = at.saturating_add(2);
    if !is_symbol(part.get(behind)?, Symbol::LeftBrace) {
        return None;
    }
    let times = whole_number(
        part,
        Run {
            first: next,
            end: behind,
        },
    )?;
    if 0 < times && times <= MOST_TIMES {
        usize::try_from(times).ok()
    } else {
        None
    }
}

// Reads a name and its select, and gives the place behind.
fn read_name<'a>(
    alloc: Global,
    scope: &Scope<'_, 'a>,
    text: &'a [u8],
    at: usize,
    end: usize,
    names: &mut Vec<&'a [u8]>,
    stacks: &mut Stacks,
) -> Result<usize, Stop> {
    if is_parameter(scope, text) {
        return Err(Stop::Other);
    }
    let name = names.len();
    names.push(text)?;
    let behind = at.saturating_add(1);
    let Some(select) = select_at(scope.part, behind, end)? else {
        let bits = name_bits(alloc, scope.nets, text, name)?;
        stacks.put_operand(bits)?;
        return Ok(behind);
    };
    let Some(Some(range)) = scope.nets.get(text) else {
        return Err(Stop::Other);
    };
    let bits = select_bits(alloc, scope.part, name, range, select)?;
    stacks.put_operand(bits)?;
    Ok(select.end.saturating_add(1))
}

// Reads a bracket or an operator before an operand.
fn read_symbol(
    part: &[Token<'_>],
    symbol: Symbol,
    at: usize,
    stacks: &mut Stacks,
) -> Result<usize, Stop> {
    let behind = at.saturating_add(1);
    match symbol {
        Symbol::LeftParen => stacks.begin(Open::Paren)?,
        Symbol::LeftBrace => match times_at(part, at) {
            Some(times) => {
                stacks.begin(Open::Times(times))?;
                return Ok(at.saturating_add(2));
            }
            None => stacks.begin(Open::Brace(0))?,
        },
        _ => {
            let Some((prefix, size)) = prefix_of(symbol, part.get(behind)) else {
                return Err(Stop::Other);
            };
            stacks.begin(Open::Before(prefix))?;
            return Ok(at.saturating_add(size));
        }
    }
    Ok(behind)
}

fn read_constant(alloc: Global, kind: TokenKind<'_>, stacks: &mut Stacks) -> Result<(), Stop> {
    let bits = match kind {
        TokenKind::Sized(constant) => sized_bits(alloc, constant)?,
        TokenKind::Unsized { base, digits } if stacks.takes_unsized() => {
            based_bits(alloc, base, digits)?
        }
        TokenKind::Number { value, whole: true } if stacks.takes_unsized() => {
            number_bits(alloc, value.digits)?
        }
        _ => return Err(Stop::Other),
    };
    stacks.put_operand(bits)
}

// Reads what stands at a place, and gives the place behind.
fn read_at<'a>(
    alloc: Global,
    scope: &Scope<'_, 'a>,
    at: usize,
    end: usize,
    names: &mut Vec<&'a [u8]>,
    stacks: &mut Stacks,
) -> Result<usize, Stop> {
    let Some(token) = scope.part.get(at) else {
        return Err(Stop::Other);
    };
    let behind = at.saturating_add(1);
    if !stacks.wants_operand {
        stacks.behind(alloc, token)?;
        return Ok(behind);
    }
    match token.kind {
        TokenKind::Name(text) => read_name(alloc, scope, text, at, end, names, stacks),
        TokenKind::Symbol(symbol) => read_symbol(scope.part, symbol, at, stacks),
        kind => {
            read_constant(alloc, kind, stacks)?;
            Ok(behind)
        }
    }
}

/// The expression that a run of tokens spells. Its nets stand by their places among the names, to which they are added.
pub fn read_term<'a>(
    alloc: Global,
    scope: &Scope<'_, 'a>,
    run: Run,
    names: &mut Vec<&'a [u8]>,
) -> Result<Term, Stop> {
    let mut stacks = Stacks::new(alloc);
    let mut next = run.first;
    for at in run.first..run.end {
        if at == next {
            next = read_at(alloc, scope, at, run.end, names, &mut stacks)?;
        }
    }
    if next == run.end {
        stacks.ended(alloc)
    } else {
        Err(Stop::Other)
    }
}
