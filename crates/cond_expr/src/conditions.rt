// The grammar of conditions: the laws of the crate `grammar` hold of it, at each depth.
ghost use Rattle.std.specs.Prelude.{ℕ};
ghost use Rattle.cond_expr.specs.Exactness.{expression-exact};
ghost use Rattle.cond_expr.specs.Grammar.{expression};
ghost use Rattle.cond_expr.specs.Kinds.{Kind as KindOfToken, kind_of};
ghost use Rattle.cond_expr.specs.Tree.{Cond};
ghost use Rattle.cond_expr.specs.Token.{Tok as ConditionToken};

use grammar::Grammar;

/// Conditions with at most so many parentheses and unary operators round any part.
pub struct Conditions<const DEPTH: usize>;

impl<const DEPTH: usize> Grammar for Conditions<DEPTH> {
    ghost Token = { ConditionToken };

    ghost Kind = { KindOfToken };

    ghost Tree = { Cond ℕ };

    ghost kind = { kind_of };

    ghost rule = { expression DEPTH };

    ghost exact = { expression-exact DEPTH };
}
