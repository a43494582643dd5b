// Lists of parts that stand in parentheses, one behind the other.
ghost use Rattle.std.specs.Prelude.{◌≡◌, false, map};
ghost use Rattle.grammar.specs.Exact.{Exact};
ghost use Rattle.grammar.specs.Reading.{Gives};
ghost use Rattle.sdf_lex.specs.Seen.{lexeme};
ghost use Rattle.sdf_tree.specs.Kinds.{is_left, kind_of};
ghost use Rattle.sdf_tree.specs.Rules as rules;
ghost use Rattle.sdf_tree.specs.Rules.{Grammar};

use crate::tokens::is_left;
use grammar::ReadFault;
use sdf_lex::Token;
use sdf_tree::Divider;
use std::alloc::Global;

/// How parts are read: whether the number of delays of a list is limited, and what joins the names of paths.
#[derive(Clone, Copy)]
pub struct Form {
    pub limited: bool,
    pub divider: Divider,
}

/// A part in parentheses: its rule, and how it is read.
pub trait Part<'a> {
    type Value: Drop;

    ghost use Rattle.sdf_terms.specs.declared.parts.Form.{Form};

    ghost Tree: { Type 0 };

    ghost rule: { Form → Grammar Tree };

    ghost view: { Self.Value → Tree };

    fn read(
        alloc: Global,
        tokens: &[Token<'a>],
        at: usize,
        form: Form,
    ) -> Result<(Self::Value, usize), ReadFault>
        ensures { Gives (λ x. (view x.0, x.1)) result ((rule form).read (map lexeme tokens.now) at) };
}

/// `{ part }`
pub fn many<'a, P: Part<'a>>(
    alloc: Global,
    tokens: &[Token<'a>],
    at: usize,
    form: Form,
) -> Result<(Vec<P::Value>, usize), ReadFault>
    requires exact { Exact kind_of (P.rule form) }
    requires full { (P.rule form).empty ≡ false }
    requires begins { (P.rule form).starts ≡ is_left }
    ensures { Gives (λ x. (map P.view x.0.items, x.1)) result ((rules.many (P.rule form)).read (map lexeme tokens.now) at) }
{
    let mut parts = Vec::new(alloc);
    let mut next = at;
    'more: while is_left(tokens, next) {
        let (part, after) = P::read(alloc, tokens, next, form)?;
        parts.push(part)?;
        next = after;
    }
    parts.shrink_to_fit();
    Ok((parts, next))
}
