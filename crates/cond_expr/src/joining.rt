// Parts joined by operators, those of tighter levels first.
ghost use Rattle.std.specs.Prelude.{◌≡◌, ◌<◌, ◌≤◌, ◌+◌, ◌++◌, ◌∷◌, [], IfNone, IfOk, IfSome, OnOk, reverse};
ghost use Rattle.cond_expr.specs.Begun.{chain_parts, loosest, EndsBelow, GoesOn};
ghost use Rattle.cond_expr.specs.Kinds.{precedence};
ghost use Rattle.cond_expr.specs.Tree.{chain_of, view};

use crate::begun::Begun;
use crate::operators::precedence_of;
use crate::tokens::Op;
use crate::tree::Node;
use std::alloc::{AllocError, Global};

// What isn't inlined here has its room on the stack for itself, and not in the frame that each parenthesis takes.

fn ended(chain: Begun, last: Node<usize>) -> Result<Node<usize>, AllocError>
    ensures { IfOk result (λ n. view n ≡ chain_of (view chain.first.value) (chain_parts chain (view last))) }
{
    let mut rest = chain.rest;
    rest.push((chain.op, last))?;
    Ok(Node::Chain {
        first: chain.first,
        rest,
    })
}

fn extended(chain: Begun, part: Node<usize>, op: Op) -> Result<Begun, AllocError>
    requires { 0 < precedence op }
    ensures first { IfOk result (λ b. b.first.value ≡ chain.first.value) }
    ensures rest { IfOk result (λ b. b.rest.items ≡ chain.rest.items ++ (chain.op, part) ∷ []) }
    ensures op { IfOk result (λ b. b.op ≡ op) }
{
    let mut rest = chain.rest;
    rest.push((chain.op, part))?;
    Ok(Begun {
        first: chain.first,
        rest,
        op,
    })
}

// The latest chain, where its operators bind tighter than those of a level.
fn pop_tighter(begun: &mut Vec<Begun>, level: u32) -> Option<Begun>
    requires { level ≤ 7 }
    ensures some { IfSome result (λ b. begun.old.items ≡ begun.new.items ++ b ∷ []) }
    ensures tighter { IfSome result (λ b. precedence b.op < level) }
    ensures none { IfNone result ((begun.new.items ≡ begun.old.items) × (level ≤ loosest (reverse begun.old.items) + 1)) }
{
    begun.pop_if(|chain| precedence_of(chain.op) < level)
}

/// A part made the last one of the chains of tighter levels.
#[inline(never)]
pub fn joined(
    begun: &mut Vec<Begun>,
    part: Node<usize>,
    level: u32,
) -> Result<Node<usize>, AllocError>
    requires { level ≤ 7 }
    ensures same { IfOk result (λ n. EndsBelow level (reverse begun.old.items) (view part) (reverse begun.new.items) (view n)) }
    ensures none { OnOk result (level ≤ loosest (reverse begun.new.items) + 1) }
{
    let mut part = part;
    while let Some(chain) = pop_tighter(begun, level) {
        part = ended(chain, part)?;
    }
    Ok(part)
}

// The chain of an operator's level that is begun, or else one that begins, with the part and the operator.
fn chain_with(
    alloc: Global,
    begun: &mut Vec<Begun>,
    part: Node<usize>,
    op: Op,
) -> Result<Begun, AllocError>
    requires { 0 < precedence op }
    ensures { IfOk result (λ b. GoesOn op (reverse begun.old.items) (view part) (b ∷ reverse begun.new.items)) }
{
    let level = precedence_of(op);
    let part = joined(begun, part, level)?;
    match pop_tighter(begun, level + 1) {
        Some(chain) => extended(chain, part, op),
        None => Ok(Begun {
            first: Box::new(alloc, part)?,
            rest: Vec::new(alloc),
            op,
        }),
    }
}

/// Has an operator behind a part wait for the part behind it.
#[inline(never)]
pub fn add_operator(
    alloc: Global,
    begun: &mut Vec<Begun>,
    part: Node<usize>,
    op: Op,
) -> Result<(), AllocError>
    requires { 0 < precedence op }
    ensures { OnOk result (GoesOn op (reverse begun.old.items) (view part) (reverse begun.new.items)) }
{
    let chain = chain_with(alloc, begun, part, op)?;
    begun.push(chain)?;
    Ok(())
}
