// What specify blocks say.
use crate::events::{CellCheck, CellEdge, CellEvent, edge_of, key_of};
use crate::modules::Module;
use cond_expr::Tok;
use fit_delays::{Condition, condition_of};
use sg_text::NoMemory;
use std::alloc::Global;
use vl_tree::{
    Arrow, Check, CheckName, Event, PathCondition, SpecifyBlock, SpecifyItem, SpecifyPath, Term,
    Word,
};

/// When a path is taken.
#[derive(Drop)]
pub enum PathWhen {
    Always,
    If(Condition),
    IfNone,
}

/// A path between two ports.
#[derive(Drop)]
pub struct CellPath<'a> {
    pub from: Term<'a>,
    pub to: Term<'a>,
    pub is_parallel: bool,
    pub edge: CellEdge,
    pub when: PathWhen,
}

fn tok_of(alloc: Global, word: &Word<'_>) -> Result<Tok<Vec<u8>>, NoMemory> {
    Ok(match &word.token {
        Tok::Name(name) => Tok::Name(Vec::from_slice(alloc, name)?),
        Tok::Index(index) => Tok::Index(*index),
        Tok::Const(value) => Tok::Const(*value),
        Tok::Op(op) => Tok::Op(*op),
        Tok::Left => Tok::Left,
        Tok::Right => Tok::Right,
    })
}

fn words_condition(alloc: Global, words: &[Word<'_>]) -> Result<Condition, NoMemory> {
    let mut toks = Vec::new(alloc);
    for word in words {
        toks.push(tok_of(alloc, word)?)?;
    }
    condition_of(alloc, &toks)
}

fn when_of(alloc: Global, condition: &PathCondition<'_>) -> Result<PathWhen, NoMemory> {
    Ok(match condition {
        PathCondition::Always => PathWhen::Always,
        PathCondition::IfNone => PathWhen::IfNone,
        PathCondition::If(words) => PathWhen::If(words_condition(alloc, words)?),
    })
}

fn add_pair<'a>(
    alloc: Global,
    module: &mut Module<'_, 'a>,
    path: &SpecifyPath<'a>,
    from: Term<'a>,
    to: Term<'a>,
) -> Result<(), NoMemory> {
    let key = key_of(alloc, from.name.text, to.name.text)?;
    module.path_keys.add(key, module.paths.len())?;
    module.paths.push(CellPath {
        from,
        to,
        is_parallel: path.arrow == Arrow::Parallel,
        edge: edge_of(&path.edge),
        when: when_of(alloc, &path.condition)?,
    })?;
    Ok(())
}

fn add_path<'a>(
    alloc: Global,
    module: &mut Module<'_, 'a>,
    path: &SpecifyPath<'a>,
) -> Result<(), NoMemory> {
    for from in &path.sources {
        for to in &path.destination.terms {
            add_pair(alloc, module, path, *from, *to)?;
        }
    }
    Ok(())
}

fn event_of<'a>(alloc: Global, event: &Event<'a>) -> Result<CellEvent<'a>, NoMemory> {
    Ok(CellEvent {
        term: event.term,
        edge: edge_of(&event.edge),
        condition: match &event.condition {
            Some(words) => Some(words_condition(alloc, words)?),
            None => None,
        },
    })
}

fn check_of<'a>(alloc: Global, check: &Check<'a>) -> Result<CellCheck<'a>, NoMemory> {
    let (name, refer, datum) = match check {
        Check::OneLimit {
            check,
            reference,
            data,
            ..
        } => (CheckName::OneLimit(*check), reference, Some(data)),
        Check::TwoLimits {
            check,
            reference,
            data,
            ..
        } => (CheckName::TwoLimits(*check), reference, Some(data)),
        Check::Width { reference, .. } => (CheckName::Width, reference, None),
        Check::Period { reference, .. } => (CheckName::Period, reference, None),
    };
    Ok(CellCheck {
        name,
        refer: event_of(alloc, refer)?,
        datum: match datum {
            Some(event) => Some(event_of(alloc, event)?),
            None => None,
        },
    })
}

fn add_check<'a>(
    alloc: Global,
    module: &mut Module<'_, 'a>,
    check: &Check<'a>,
) -> Result<(), NoMemory> {
    let made = check_of(alloc, check)?;
    let datum = match &made.datum {
        Some(event) => event.term.name.text,
        None => b"",
    };
    let key = key_of(alloc, made.refer.term.name.text, datum)?;
    module.check_keys.add(key, module.checks.len())?;
    module.checks.push(made)?;
    Ok(())
}

/// Adds the paths and checks of a block to a module.
pub fn add_block<'a>(
    alloc: Global,
    module: &mut Module<'_, 'a>,
    block: &SpecifyBlock<'a>,
) -> Result<(), NoMemory> {
    for item in &block.items {
        match item {
            SpecifyItem::Path(path) => add_path(alloc, module, path)?,
            SpecifyItem::Check(check) => add_check(alloc, module, check)?,
            SpecifyItem::Specparams { .. } | SpecifyItem::PulseStyle { .. } => {}
        }
    }
    Ok(())
}
