// Readers of what paths go from and to.
ghost use Rattle.std.specs.Prelude.{◌≡◌, map};
ghost use Rattle.grammar.specs.Reading.{Gives};
ghost use Rattle.grammar.specs.Rule.{◌▸◌, only_if, stands};
ghost use Rattle.vl_token.specs.declared.symbols.Symbol.TheVariants as symbol;
ghost use Rattle.vl_token.specs.Seen.{lexeme};
ghost use Rattle.vl_tree.specs.declared.paths.Arrow.TheVariants as arrows;
ghost use Rattle.vl_tree.specs.Kinds.{kind_of};
ghost use Rattle.vl_tree.specs.Paths as rules;
ghost use Rattle.vl_tree.specs.Rules.{mark as mark_rule};
ghost use Rattle.vl_tree.specs.Seen.{view_data_source, view_destination, view_term};
ghost use Rattle.vl_specify.specs.Parts.{view_ends};

use crate::terms::{optional_polarity, terms};
use grammar::ReadFault;
use std::alloc::Global;
use vl_terms::conditions::condition;
use vl_terms::specify::term;
use vl_terms::tokens::{is_mark, is_name, mark};
use vl_token::{Symbol, Token};
use vl_tree::{Arrow, DataSource, Destination, Polarity, Term};

/// What a path goes from and to.
#[derive(Drop)]
pub struct PathEnds<'a> {
    pub sources: Vec<Term<'a>>,
    pub polarity: Option<Polarity>,
    pub arrow: Arrow,
    pub destination: Destination<'a>,
}

/// A term behind `=>`, terms behind `*>`
#[tactic(auto, unfolding(vl_tree::specs::Paths::arrow_terms_parts))]
fn arrow_terms<'a>(
    alloc: Global,
    tokens: &[Token<'a>],
    at: usize,
    arrow: Arrow,
) -> Result<(Vec<Term<'a>>, usize), ReadFault>
    ensures { Gives (λ x. (map view_term x.0.items, x.1)) result ((rules.arrow_terms arrow).read (map lexeme tokens.now) at) }
{
    match arrow {
        Arrow::Parallel => {
            let (only, next) = term(tokens, at)?;
            Ok((vec![in alloc; only]?, next))
        }
        Arrow::Full => terms(alloc, tokens, at),
    }
}

/// `[ polarity ] ":" condition`
fn data_source<'a>(
    alloc: Global,
    tokens: &[Token<'a>],
    at: usize,
) -> Result<(DataSource<'a>, usize), ReadFault>
    ensures { Gives (λ x. (view_data_source x.0, x.1)) result (rules.data_source.read (map lexeme tokens.now) at) }
{
    let (polarity, next) = optional_polarity(tokens, at)?;
    let next = mark(tokens, next, Symbol::Colon)?;
    let (words, next) = condition(alloc, tokens, next)?;
    Ok((DataSource { polarity, words }, next))
}

/// `terms | "(" terms data-source ")"`
#[tactic(auto, unfolding(vl_tree::specs::Paths::destination_parts))]
fn destination<'a>(
    alloc: Global,
    tokens: &[Token<'a>],
    at: usize,
    arrow: Arrow,
) -> Result<(Destination<'a>, usize), ReadFault>
    ensures { Gives (λ x. (view_destination x.0, x.1)) result ((rules.destination arrow).read (map lexeme tokens.now) at) }
{
    if is_name(tokens, at) {
        let (terms, next) = arrow_terms(alloc, tokens, at, arrow)?;
        return Ok((
            Destination {
                terms,
                source: None,
            },
            next,
        ));
    }
    let next = mark(tokens, at, Symbol::LeftParen)?;
    let (terms, next) = arrow_terms(alloc, tokens, next, arrow)?;
    let (source, next) = data_source(alloc, tokens, next)?;
    let next = mark(tokens, next, Symbol::RightParen)?;
    Ok((
        Destination {
            terms,
            source: Some(source),
        },
        next,
    ))
}

/// Whether `=>` stands there, and may.
fn parallel_stands(tokens: &[Token<'_>], at: usize, single: bool) -> bool
    ensures { result ≡ stands kind_of (only_if single (mark_rule symbol.Parallel) ▸ rules.destination arrows.Parallel).starts (map lexeme tokens.now) at }
{
    if !single {
        return false;
    }
    is_mark(tokens, at, Symbol::Parallel)
}

/// `"=>"`, where it stands behind a single term.
fn parallel(tokens: &[Token<'_>], at: usize, single: bool) -> Result<usize, ReadFault>
    ensures { Gives (λ next. (tt, next)) result ((only_if single (mark_rule symbol.Parallel)).read (map lexeme tokens.now) at) }
{
    if !single {
        return Err(ReadFault::At(at));
    }
    mark(tokens, at, Symbol::Parallel)
}

/// `"=>" destination | "*>" destination`, where `=>` stands behind a single term.
#[tactic(auto, unfolding(vl_tree::specs::Paths::arrow_parts))]
fn arrow<'a>(
    alloc: Global,
    tokens: &[Token<'a>],
    at: usize,
    single: bool,
) -> Result<(Arrow, Destination<'a>, usize), ReadFault>
    ensures { Gives (λ x. ((x.0, view_destination x.1), x.2)) result ((rules.arrow single).read (map lexeme tokens.now) at) }
{
    if parallel_stands(tokens, at, single) {
        let next = parallel(tokens, at, single)?;
        let (destination, next) = destination(alloc, tokens, next, Arrow::Parallel)?;
        return Ok((Arrow::Parallel, destination, next));
    }
    let next = mark(tokens, at, Symbol::Full)?;
    let (destination, next) = destination(alloc, tokens, next, Arrow::Full)?;
    Ok((Arrow::Full, destination, next))
}

/// `terms [ polarity ] arrow destination`
#[tactic(auto, unfolding(vl_tree::specs::Paths::ends_parts))]
pub fn ends<'a>(
    alloc: Global,
    tokens: &[Token<'a>],
    at: usize,
) -> Result<(PathEnds<'a>, usize), ReadFault>
    ensures { Gives (λ x. (view_ends x.0, x.1)) result (rules.ends.read (map lexeme tokens.now) at) }
{
    let (sources, next) = terms(alloc, tokens, at)?;
    let (polarity, next) = optional_polarity(tokens, next)?;
    let (arrow, destination, next) = arrow(alloc, tokens, next, sources.len() == 1)?;
    let ends = PathEnds {
        sources,
        polarity,
        arrow,
        destination,
    };
    Ok((ends, next))
}
