// The whole of a netlist, and why one is refused.
ghost use Rattle.std.specs.Prelude.{◌≡◌, IfOk, IfErr, length, map};
ghost use Rattle.grammar.specs.Reading.{Gives};
ghost use Rattle.grammar.specs.Rule.{read_all};
ghost use Rattle.vl_token.specs.Seen.{lexeme};
ghost use Rattle.vl_tree.specs.Modules as modules;
ghost use Rattle.vl_tree.specs.Seen.{view_part, view_source};
ghost use Rattle.vl_tree.specs.Tree.{Source as SourceSeen};
ghost use Rattle.vl_parse.specs.Parsed.{IsTree, RefusalStands};

use crate::faults::{kind_at, place_of_fault};
use crate::modules::{is_module, module};
use grammar::ReadFault;
use sg_text::{Keyword, Place, Refused};
use std::alloc::Global;
use vl_specify::SpecifyKind;
use vl_terms::lists::{ListPart, many};
use vl_terms::primitives::primitive;
use vl_terms::tokens::is_word;
use vl_token::Token;
use vl_tree::{Part, Source};

/// Why tokens are no netlist.
#[derive(Clone, Copy, Debug, PartialEq)]
pub enum ParseKind<'a> {
    /// No rule takes the token there.
    Syntax,
    /// The word there is of a construct that is left out.
    Unsupported(&'a [u8]),
    /// A specify block is refused for this.
    Specify(SpecifyKind),
}

/// `module | primitive`
#[tactic(auto, unfolding(vl_tree::specs::Modules::part_parts))]
fn part<'a>(alloc: Global, tokens: &[Token<'a>], at: usize) -> Result<(Part<'a>, usize), ReadFault>
    ensures { Gives (λ x. (view_part x.0, x.1)) result (modules.part.read (map lexeme tokens.now) at) }
{
    if is_module(tokens, at) {
        let (module, next) = module(alloc, tokens, at)?;
        return Ok((Part::Module(module), next));
    }
    let (primitive, next) = primitive(alloc, tokens, at)?;
    Ok((Part::Primitive(primitive), next))
}

struct SourcePart;

impl<'a> ListPart<'a> for SourcePart {
    type Value = Part<'a>;

    ghost use Rattle.vl_tree.specs.Tree.{Part as TreeSeen};
    ghost use Rattle.vl_tree.specs.Modules as modules;
    ghost use Rattle.vl_tree.specs.Seen.{view_part};

    ghost Tree = { TreeSeen };

    ghost rule = { modules.part };

    ghost view = { view_part };

    fn begins(tokens: &[Token<'a>], at: usize) -> bool {
        is_module(tokens, at) || is_word(tokens, at, Keyword::Primitive)
    }

    fn read(
        alloc: Global,
        tokens: &[Token<'a>],
        at: usize,
    ) -> Result<(Part<'a>, usize), ReadFault> {
        part(alloc, tokens, at)
    }
}

/// `{ module | primitive }`, all tokens.
#[tactic(auto, using(vl_tree::proofs::Lists::one_part))]
fn source<'a>(alloc: Global, tokens: &[Token<'a>]) -> Result<Source<'a>, ReadFault>
    ensures { Gives view_source result (read_all modules.source (map lexeme tokens.now)) }
{
    let (parts, next) = many::<SourcePart>(alloc, tokens, 0)?;
    if next == tokens.len() {
        Ok(Source { parts })
    } else {
        Err(ReadFault::At(next))
    }
}

/// The tree of a netlist's tokens (IEEE 1364-2005, annex A), of which `end` is the place behind the last one. Where they
/// spell none the place is that of the failing token, the first with which the tokens up to it begin no netlist, or `end`.
/// Unsupported stands exactly where that token is a word of a construct that is left out, and Specify where it is another one and
/// lies in a specify block.
pub fn parse<'a>(
    alloc: Global,
    tokens: &[Token<'a>],
    end: Place,
) -> Result<Source<'a>, Refused<ParseKind<'a>>>
    // What is read is spelled.
    ensures found { IfOk result (λ tree. modules.source.language.Spells (map lexeme tokens.now) 0 (view_source tree) (length (map lexeme tokens.now))) }
    // What is spelled is read, unless memory runs out.
    ensures only { (tree : SourceSeen) → modules.source.language.Spells (map lexeme tokens.now) 0 tree (length (map lexeme tokens.now)) → IsTree tree result }
    // A refusal is at the failing token.
    ensures fault { IfErr result (λ refusal. RefusalStands (map lexeme tokens.now) end refusal) }
{
    match source(alloc, tokens) {
        Ok(tree) => Ok(tree),
        Err(ReadFault::Memory) => Err(Refused::NoMemory),
        Err(ReadFault::At(at)) => {
            let kind = kind_at(alloc, tokens, at)?;
            Err(Refused::Fault {
                kind,
                place: place_of_fault(tokens, at, end),
            })
        }
    }
}
