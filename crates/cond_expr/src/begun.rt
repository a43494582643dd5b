// Chains whose last part isn't read yet.
ghost use Rattle.std.specs.Prelude.{◌<◌};
ghost use Rattle.cond_expr.specs.Kinds.{precedence};

use crate::tokens::Op;
use crate::tree::Node;

/// Parts of one level, and an operator that waits for the part behind it.
#[derive(Drop)]
pub struct Begun {
    pub first: Box<Node<usize>>,
    pub rest: Vec<(Op, Node<usize>)>,
    pub op: Op,
    pub ghost joins: { 0 < precedence op },
}
