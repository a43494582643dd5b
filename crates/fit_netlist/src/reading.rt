// Texts into tokens, and tokens into trees.
ghost use Rattle.std.specs.Prelude.{IfOk, IfErr, Ok, map};
ghost use Rattle.vl_lex.specs.Lexes.{Lexes};
ghost use Rattle.vl_lex.specs.Seen.{texts};
ghost use Rattle.vl_token.specs.Seen.{lexeme};
ghost use Rattle.vl_tree.specs.Seen.{view_source};
ghost use Rattle.fit_inside.specs.Inside.{IsTreeOf};
ghost use Rattle.fit_netlist.specs.Fitted.{Tells};
ghost use Rattle.fit_netlist.specs.Phases.{AreTree};

use crate::faults::FitError;
use crate::refusing::{refuse, syntax_kind};
use fit_inside::end_of;
use netlist_read::NetlistKind;
use sg_text::Refused;
use std::alloc::Global;
use vl_lex::lex;
use vl_parse::parse;
use vl_token::Token;
use vl_tree::Source;

pub fn read_tokens(alloc: Global, files: &[Vec<u8>]) -> Result<Vec<Token<'_>>, FitError>
    ensures read { IfOk result (λ tokens. Lexes (texts files.now) (Ok (map lexeme tokens.items))) }
    ensures refused { IfErr result Tells }
{
    match lex(alloc, files) {
        Ok(tokens) => Ok(tokens),
        Err(Refused::Fault { kind, place }) => {
            Err(refuse(alloc, files, &NetlistKind::Text(kind), place))
        }
        Err(Refused::NoMemory) => Err(FitError::NoMemory),
    }
}

// The tree of all tokens of files.
fn read_tree<'a>(
    alloc: Global,
    files: &[Vec<u8>],
    tokens: &[Token<'a>],
) -> Result<Source<'a>, FitError>
    ensures read { IfOk result (λ tree. AreTree (map lexeme tokens.now) (view_source tree)) }
    ensures refused { IfErr result Tells }
{
    match parse(alloc, tokens, end_of(files)) {
        Ok(tree) => Ok(tree),
        Err(Refused::Fault { kind, place }) => {
            Err(refuse(alloc, files, &syntax_kind(kind), place))
        }
        Err(Refused::NoMemory) => Err(FitError::NoMemory),
    }
}

/// The tree of files.
pub fn read_files<'a>(alloc: Global, files: &'a [Vec<u8>]) -> Result<Source<'a>, FitError>
    ensures read { IfOk result (λ tree. IsTreeOf (texts files.now) (view_source tree)) }
    ensures refused { IfErr result Tells }
{
    let tokens = read_tokens(alloc, files)?;
    read_tree(alloc, files, &tokens)
}
