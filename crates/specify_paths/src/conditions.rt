// Conditions of paths.
ghost use Rattle.std.specs.Prelude.{◌≡◌, IfOk, map, flat_map};
ghost use Rattle.std.specs.Option.{option_map};
ghost use Rattle.cond_expr.specs.Binding.{index_of};
ghost use Rattle.vl_tree.specs.declared.expressions.Select.TheVariants as select;
ghost use Rattle.vl_tree.specs.Seen.{view_word, view_term};
ghost use Rattle.specify_model.specs.Conditions as def;
ghost use Rattle.specify_model.specs.Faults as faults;
ghost use Rattle.specify_values.specs.Telling.{Tells};
ghost use Rattle.specify_paths.specs.Seen.{IsRead};
ghost use Rattle.specify_paths.specs.Words as def_words;

use crate::terms::{check_operand, check_term};
use cond_expr::{CondFault, Expr, Tok};
use elab_model::ElabKind;
use elab_variables::Table;
use sg_text::{NoMemory, Place, Refused, Text};
use std::alloc::Global;
use vl_tree::{Name, Select, Term, Word};

fn token_of(alloc: Global, word: &Word) -> Result<Tok<Text>, NoMemory>
    ensures { IfOk result (λ token. token ≡ (view_word word.now).token) }
{
    match &word.token {
        Tok::Name(name) => Ok(Tok::Name(Text::copy(alloc, name)?)),
        Tok::Index(index) => Ok(Tok::Index(*index)),
        Tok::Const(value) => Ok(Tok::Const(*value)),
        Tok::Op(op) => Ok(Tok::Op(*op)),
        Tok::Left => Ok(Tok::Left),
        Tok::Right => Ok(Tok::Right),
    }
}

fn tokens_of(alloc: Global, words: &[Word]) -> Result<Vec<Tok<Text>>, NoMemory>
    ensures { IfOk result (λ tokens. tokens.items ≡ def.tokens (map view_word words.now)) }
{
    let mut tokens = Vec::new(alloc);
    for word in words {
        tokens.push(token_of(alloc, word)?)?;
    }
    Ok(tokens)
}

// The index that begins the words, if one does.
fn select_at(words: &[Word]) -> Option<Select>
    ensures { result ≡ option_map select.Bit (index_of (def.next_token (map view_word words.now))) }
{
    match &words.first()?.token {
        Tok::Index(index) => Some(Select::Bit(*index)),
        _ => None,
    }
}

// The operand that begins the words, if one does.
fn operand_at<'a>(words: &[Word<'a>]) -> Option<Term<'a>>
    ensures { option_map view_term result ≡ def_words.first_operand (map view_word words.now) }
{
    let (word, behind) = words.split_first()?;
    let Tok::Name(text) = &word.token else {
        return None;
    };
    Some(Term {
        name: Name {
            text: *text,
            place: word.place,
        },
        select: select_at(behind),
    })
}

// Refuses operands.
fn check_operands(alloc: Global, table: &Table, words: &[Word]) -> Result<(), Refused<ElabKind>>
    ensures { Tells (flat_map (faults.operand_faults table.now) (def.operands (map view_word words.now))) result }
{
    let mut rest = words;
    while let [_, behind @ ..] = rest {
        if let Some(operand) = operand_at(rest) {
            check_operand(alloc, table, &operand)?;
        }
        rest = behind;
    }
    Ok(())
}

/// Refuses a name among words that isn't declared (UnknownName), or whose index is out of range (BadTerminal), at the name.
pub fn check_names(table: &Table, words: &[Word]) -> Result<(), Refused<ElabKind>>
    ensures { Tells (flat_map (faults.term_faults table.now) (def.operands (map view_word words.now))) result }
{
    let mut rest = words;
    while let [_, behind @ ..] = rest {
        if let Some(operand) = operand_at(rest) {
            check_term(table, &operand)?;
        }
        rest = behind;
    }
    Ok(())
}

fn first_place(place: Place, words: &[Word]) -> Place
    ensures { result ≡ faults.first_place place (map view_word words.now) }
{
    match words {
        [first, ..] => first.place,
        [] => place,
    }
}

fn refusal_of(fault: CondFault, place: Place) -> Refused<ElabKind>
    ensures { result ≡ def_words.refusal_of fault place }
{
    match fault {
        CondFault::NoMemory => Refused::NoMemory,
        CondFault::Syntax { .. } => Refused::Fault {
            kind: ElabKind::TooDeep,
            place,
        },
        CondFault::TooDeep => Refused::Fault {
            kind: ElabKind::TooDeep,
            place,
        },
    }
}

/// The condition that words spell (IEEE 1364-2005, 14.2.4). Refuses an operand that isn't declared (UnknownName), whose index is out of range (BadTerminal) or that isn't one bit
/// (WidthMismatch), at the operand, and more than 64 parentheses and unary operators round a part (TooDeep, at the first word). Takes memory in proportion to the words.
pub fn condition_of(
    alloc: Global,
    table: &Table,
    place: Place,
    words: &[Word],
) -> Result<Expr, Refused<ElabKind>>
    ensures condition { IfOk result (IsRead (def.tokens (map view_word words.now))) }
    ensures told { Tells (faults.condition_faults table.now place (map view_word words.now)) result }
{
    check_operands(alloc, table, words)?;
    let tokens = tokens_of(alloc, words)?;
    match Expr::read(alloc, &tokens) {
        Ok(condition) => Ok(condition),
        Err(fault) => Err(refusal_of(fault, first_place(place, words))),
    }
}
