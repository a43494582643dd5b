// Readers of the words of gates.
ghost use Rattle.std.specs.Prelude.{◌≡◌, map};
ghost use Rattle.grammar.specs.Reading.{Gives};
ghost use Rattle.grammar.specs.Rule.{stands};
ghost use Rattle.vl_token.specs.Seen.{lexeme};
ghost use Rattle.vl_tree.specs.Items as items;
ghost use Rattle.vl_tree.specs.Items.{enable_gate_starts, gate_starts};
ghost use Rattle.vl_tree.specs.Kinds.{kind_of};

use grammar::ReadFault;
use sg_logic::GateKind;
use sg_text::Keyword;
use vl_terms::tokens::is_word;
use vl_token::Token;

/// Whether a gate with an enabling control stands there.
fn enable_gate_stands(tokens: &[Token<'_>], at: usize) -> bool
    ensures { result ≡ stands kind_of enable_gate_starts (map lexeme tokens.now) at }
{
    is_word(tokens, at, Keyword::Bufif0)
        || is_word(tokens, at, Keyword::Bufif1)
        || is_word(tokens, at, Keyword::Notif0)
        || is_word(tokens, at, Keyword::Notif1)
}

/// `"bufif0" | "bufif1" | "notif0" | "notif1"`
#[tactic(auto, unfolding(vl_tree::specs::Items::enable_gate_parts))]
fn enable_gate(tokens: &[Token<'_>], at: usize) -> Result<(GateKind, usize), ReadFault>
    ensures { Gives (λ x. x) result (items.enable_gate.read (map lexeme tokens.now) at) }
{
    if is_word(tokens, at, Keyword::Bufif0) {
        return Ok((GateKind::Bufif0, at + 1));
    }
    if is_word(tokens, at, Keyword::Bufif1) {
        return Ok((GateKind::Bufif1, at + 1));
    }
    if is_word(tokens, at, Keyword::Notif0) {
        return Ok((GateKind::Notif0, at + 1));
    }
    if is_word(tokens, at, Keyword::Notif1) {
        return Ok((GateKind::Notif1, at + 1));
    }
    Err(ReadFault::At(at))
}

/// Whether a gate stands there.
pub fn gate_stands(tokens: &[Token<'_>], at: usize) -> bool
    ensures { result ≡ stands kind_of gate_starts (map lexeme tokens.now) at }
{
    is_word(tokens, at, Keyword::And)
        || is_word(tokens, at, Keyword::Nand)
        || is_word(tokens, at, Keyword::Or)
        || is_word(tokens, at, Keyword::Nor)
        || is_word(tokens, at, Keyword::Xor)
        || is_word(tokens, at, Keyword::Xnor)
        || is_word(tokens, at, Keyword::Buf)
        || is_word(tokens, at, Keyword::Not)
        || enable_gate_stands(tokens, at)
}

/// `"and" | "nand" | "or" | "nor" | "xor" | "xnor" | "buf" | "not" | enable-gate`
#[tactic(auto, unfolding(vl_tree::specs::Items::gate_parts))]
pub fn gate(tokens: &[Token<'_>], at: usize) -> Result<(GateKind, usize), ReadFault>
    ensures { Gives (λ x. x) result (items.gate.read (map lexeme tokens.now) at) }
{
    if is_word(tokens, at, Keyword::And) {
        return Ok((GateKind::And, at + 1));
    }
    if is_word(tokens, at, Keyword::Nand) {
        return Ok((GateKind::Nand, at + 1));
    }
    if is_word(tokens, at, Keyword::Or) {
        return Ok((GateKind::Or, at + 1));
    }
    if is_word(tokens, at, Keyword::Nor) {
        return Ok((GateKind::Nor, at + 1));
    }
    if is_word(tokens, at, Keyword::Xor) {
        return Ok((GateKind::Xor, at + 1));
    }
    if is_word(tokens, at, Keyword::Xnor) {
        return Ok((GateKind::Xnor, at + 1));
    }
    if is_word(tokens, at, Keyword::Buf) {
        return Ok((GateKind::Buf, at + 1));
    }
    if is_word(tokens, at, Keyword::Not) {
        return Ok((GateKind::Not, at + 1));
    }
    enable_gate(tokens, at)
}
