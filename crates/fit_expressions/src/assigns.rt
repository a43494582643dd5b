// Assignments, and nets with values (IEEE 1364-2005, 6.1).
use crate::delays::delay_text;
use crate::work::Work;
use fit_changes::Rule;
use fit_gates::{Operand, Term};
use fit_items::{Declared, Run, Side, name_at, range_of};
use fit_terms::{Scope, Stop, is_left, is_plain, net_bits};
use itoa::Buffer;
use sg_text::Keyword;
use std::alloc::Global;
use vl_token::{Token, TokenKind};

/// What stands in a statement's place, by which rule, and how many numbers of wires it takes.
#[derive(Drop)]
pub struct Made {
    pub text: Vec<u8>,
    pub rule: Rule,
    pub wires: u64,
}

fn is_net(bit: &Operand) -> bool {
    match bit {
        Operand::Net { .. } => true,
        _ => false,
    }
}

// The bits of a left side.
fn targets_of(term: Term) -> Result<Vec<Operand>, Stop> {
    let Term::Bits(bits) = term else {
        return Err(Stop::Other);
    };
    if bits.iter().all(|bit| is_net(bit)) {
        Ok(bits)
    } else {
        Err(Stop::Other)
    }
}

// A delay of several bits isn't that of each (IEEE 1364-2005, 6.1.3).
fn takes_delay(targets: &[Operand], delay: &[u8]) -> Result<(), Stop> {
    if delay.is_empty() || targets.len() == 1 {
        Ok(())
    } else {
        Err(Stop::Other)
    }
}

fn made_of(
    alloc: Global,
    work: &Work<'_>,
    front: &[u8],
    first: u64,
    delay: &[u8],
) -> Result<Made, Stop> {
    let mut text = Vec::from_slice(alloc, front)?;
    work.push(&mut text, first, delay)?;
    Ok(Made {
        text,
        rule: work.rule(delay),
        wires: work.wires(),
    })
}

fn add_side<'a>(
    alloc: Global,
    scope: &Scope<'_, 'a>,
    work: &mut Work<'a>,
    side: Side,
    delay: &[u8],
) -> Result<(), Stop> {
    let left = work.read(alloc, scope, side.left)?;
    let targets = targets_of(left)?;
    takes_delay(&targets, delay)?;
    let term = work.read(alloc, scope, side.right)?;
    work.assign(alloc, &targets, &term)
}

// Whether another rule, or none, looks after an assignment.
fn are_left(part: &[Token<'_>], delay: Run, sides: &[Side]) -> bool {
    delay.is_empty() && sides.iter().all(|side| is_left(part, side.right))
}

/// What an assignment is made of.
pub fn assign_made<'a>(
    alloc: Global,
    scope: &Scope<'_, 'a>,
    delay: Run,
    sides: &[Side],
    first: u64,
) -> Result<Made, Stop> {
    if are_left(scope.part, delay, sides) {
        return Err(Stop::Other);
    }
    let delay = delay_text(alloc, scope.part, delay)?;
    let mut work = Work::new(alloc);
    for side in sides {
        add_side(alloc, scope, &mut work, *side, &delay)?;
    }
    made_of(alloc, &work, b"", first, &delay)
}

fn net_word(token: Option<&Token<'_>>) -> Result<&'static [u8], Stop> {
    let Some(token) = token else {
        return Err(Stop::Other);
    };
    match token.kind {
        TokenKind::Word(Keyword::Wire) => Ok(b"wire"),
        TokenKind::Word(Keyword::Tri) => Ok(b"tri"),
        _ => Err(Stop::Other),
    }
}

fn push_number(text: &mut Vec<u8>, number: i64) -> Result<(), Stop> {
    let mut buffer = Buffer::new();
    text.extend_from_slice(buffer.format(number).as_bytes())?;
    Ok(())
}

fn push_range(text: &mut Vec<u8>, range: Option<(i64, i64)>) -> Result<(), Stop> {
    let Some((left, right)) = range else {
        return Ok(());
    };
    text.extend_from_slice(b" [")?;
    push_number(text, left)?;
    text.push(b':')?;
    push_number(text, right)?;
    text.push(b']')?;
    Ok(())
}

fn range_at(alloc: Global, part: &[Token<'_>], range: Run) -> Result<Option<(i64, i64)>, Stop> {
    if range.is_empty() {
        return Ok(None);
    }
    match range_of(alloc, part, range)? {
        Some(range) => Ok(Some(range)),
        None => Err(Stop::Other),
    }
}

// Declares nets, without their values.
fn declaration<'a>(
    alloc: Global,
    scope: &Scope<'_, 'a>,
    word: usize,
    range: Option<(i64, i64)>,
    names: &[Declared],
) -> Result<Vec<u8>, Stop> {
    let mut text = Vec::from_slice(alloc, net_word(scope.part.get(word))?)?;
    push_range(&mut text, range)?;
    for (at, declared) in names.iter().enumerate() {
        let Some(name) = name_at(scope.part, declared.name) else {
            return Err(Stop::Other);
        };
        text.extend_from_slice(if at == 0 { b" " } else { b", " })?;
        fit_items::push_name(&mut text, name)?;
    }
    text.extend_from_slice(b"; ")?;
    Ok(text)
}

fn add_value<'a>(
    alloc: Global,
    scope: &Scope<'_, 'a>,
    work: &mut Work<'a>,
    range: Option<(i64, i64)>,
    declared: Declared,
    delay: &[u8],
) -> Result<(), Stop> {
    let Some(text) = name_at(scope.part, declared.name) else {
        return Err(Stop::Other);
    };
    let name = work.name(text)?;
    let targets = net_bits(alloc, name, range)?;
    takes_delay(&targets, delay)?;
    let term = work.read(alloc, scope, declared.value)?;
    work.assign(alloc, &targets, &term)
}

// Whether no value of nets is an expression. A delay without a value is the net's own.
fn is_left_net(part: &[Token<'_>], delay: Run, names: &[Declared]) -> bool {
    if delay.is_empty() {
        names.iter().all(|declared| is_plain(part, declared.value))
    } else {
        names.iter().any(|declared| declared.value.is_empty())
    }
}

/// What a declaration of nets with values is made of.
pub fn nets_made<'a>(
    alloc: Global,
    scope: &Scope<'_, 'a>,
    word: usize,
    range: Run,
    delay: Run,
    names: &[Declared],
    first: u64,
) -> Result<Made, Stop> {
    if is_left_net(scope.part, delay, names) {
        return Err(Stop::Other);
    }
    let range = range_at(alloc, scope.part, range)?;
    let front = declaration(alloc, scope, word, range, names)?;
    let delay = delay_text(alloc, scope.part, delay)?;
    let mut work = Work::new(alloc);
    for declared in names {
        if !declared.value.is_empty() {
            add_value(alloc, scope, &mut work, range, *declared, &delay)?;
        }
    }
    made_of(alloc, &work, &front, first, &delay)
}
