// Lists of parts: with commas between, or one behind the other.
ghost use Rattle.std.specs.Prelude.{◌≡◌, false, map};
ghost use Rattle.grammar.specs.Exact.{Exact};
ghost use Rattle.grammar.specs.Reading.{Gives};
ghost use Rattle.grammar.specs.Rule.{stands, ◌▸◌};
ghost use Rattle.vl_token.specs.declared.symbols.Symbol.TheVariants as symbol;
ghost use Rattle.vl_token.specs.Seen.{lexeme};
ghost use Rattle.vl_tree.specs.Kinds.{kind_of};
ghost use Rattle.vl_tree.specs.Rules as rules;
ghost use Rattle.vl_tree.specs.Rules.{Grammar};
ghost use Rattle.vl_terms.specs.Lists.{read_behind};

use crate::tokens::is_mark;
use grammar::ReadFault;
use std::alloc::Global;
use vl_token::{Symbol, Token};

/// A part of a list: its rule, and how it is read.
pub trait ListPart<'a> {
    type Value: Drop;

    ghost Tree: { Type 0 };

    ghost rule: { Grammar Tree };

    ghost view: { Self.Value → Tree };

    /// Whether one may begin there.
    fn begins(tokens: &[Token<'a>], at: usize) -> bool
        ensures { result ≡ stands kind_of rule.starts (map lexeme tokens.now) at };

    fn read(
        alloc: Global,
        tokens: &[Token<'a>],
        at: usize,
    ) -> Result<(Self::Value, usize), ReadFault>
        ensures { Gives (λ x. (view x.0, x.1)) result (rule.read (map lexeme tokens.now) at) };
}

/// `part { "," part }`
pub fn listed<'a, P: ListPart<'a>>(
    alloc: Global,
    tokens: &[Token<'a>],
    at: usize,
) -> Result<(Vec<P::Value>, usize), ReadFault>
    requires { Exact kind_of (rules.mark symbol.Comma ▸ P.rule) }
    ensures { Gives (λ x. (map P.view x.0.items, x.1)) result ((rules.listed P.rule).read (map lexeme tokens.now) at) }
{
    let (first, mut next) = P::read(alloc, tokens, at)?;
    let mut parts = Vec::with_capacity(alloc, 1)?;
    parts.push(first)?;
    'more: while is_mark(tokens, next, Symbol::Comma) {
        let (part, after) = P::read(alloc, tokens, next + 1)?;
        parts.push(part)?;
        next = after;
    }
    parts.shrink_to_fit();
    Ok((parts, next))
}

/// `{ part }`
pub fn many<'a, P: ListPart<'a>>(
    alloc: Global,
    tokens: &[Token<'a>],
    at: usize,
) -> Result<(Vec<P::Value>, usize), ReadFault>
    requires exact { Exact kind_of P.rule }
    requires full { P.rule.empty ≡ false }
    ensures { Gives (λ x. (map P.view x.0.items, x.1)) result ((rules.many P.rule).read (map lexeme tokens.now) at) }
{
    many_behind::<P>(alloc, Vec::new(alloc), tokens, at)
}

/// `{ part }` behind parts that are read already.
pub fn many_behind<'a, P: ListPart<'a>>(
    alloc: Global,
    mut parts: Vec<P::Value>,
    tokens: &[Token<'a>],
    at: usize,
) -> Result<(Vec<P::Value>, usize), ReadFault>
    requires exact { Exact kind_of P.rule }
    requires full { P.rule.empty ≡ false }
    ensures { Gives (λ x. (map P.view x.0.items, x.1)) result (read_behind (map P.view parts.items) P.rule (map lexeme tokens.now) at) }
{
    let mut next = at;
    'more: while P::begins(tokens, next) {
        let (part, after) = P::read(alloc, tokens, next)?;
        parts.push(part)?;
        next = after;
    }
    parts.shrink_to_fit();
    Ok((parts, next))
}
