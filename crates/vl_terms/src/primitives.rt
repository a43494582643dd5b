// Readers of user-defined primitives.
ghost use Rattle.std.specs.Prelude.{◌≡◌, map, option_map, Ok};
ghost use Rattle.grammar.specs.Reading.{Gives};
ghost use Rattle.grammar.specs.Rule.{stands};
ghost use Rattle.vl_token.specs.Seen.{lexeme};
ghost use Rattle.vl_tree.specs.Kinds.{kind_of};
ghost use Rattle.vl_tree.specs.Primitives as primitives;
ghost use Rattle.vl_tree.specs.Primitives.{declaration_starts};
ghost use Rattle.vl_tree.specs.Rules as rules;
ghost use Rattle.vl_tree.specs.Seen.{view_initial, view_primitive, view_primitive_declaration};

use crate::bits::initial_value;
use crate::lists::{ListPart, many};
use crate::names::names;
use crate::rows::RowPart;
use crate::tokens::{is_word, mark, name, place_at, word};
use grammar::ReadFault;
use sg_text::Keyword;
use std::alloc::Global;
use vl_token::{Symbol, Token};
use vl_tree::{Initial, Primitive, PrimitiveDeclaration};

/// `[ "reg" ]`: whether it is there.
fn maybe_register(tokens: &[Token<'_>], at: usize) -> (bool, usize)
    ensures { primitives.maybe_register.read (map lexeme tokens.now) at ≡ Ok (result.0, result.1) }
{
    if is_word(tokens, at, Keyword::Reg) {
        return (true, at + 1);
    }
    (false, at)
}

/// `"output" [ "reg" ] name ";"`
#[tactic(auto, unfolding(vl_tree::specs::Primitives::output_parts))]
fn output<'a>(
    tokens: &[Token<'a>],
    at: usize,
) -> Result<(PrimitiveDeclaration<'a>, usize), ReadFault>
    ensures { Gives (λ x. (view_primitive_declaration x.0, x.1)) result (primitives.output_rule.read (map lexeme tokens.now) at) }
{
    let next = word(tokens, at, Keyword::Output)?;
    let (register, next) = maybe_register(tokens, next);
    let (name, next) = name(tokens, next)?;
    let next = mark(tokens, next, Symbol::Semicolon)?;
    let place = place_at(tokens, at)?;
    let declaration = PrimitiveDeclaration::Output {
        place,
        register,
        name,
    };
    Ok((declaration, next))
}

/// `"reg" name ";"`
#[tactic(auto, unfolding(vl_tree::specs::Primitives::register_parts))]
fn register<'a>(
    tokens: &[Token<'a>],
    at: usize,
) -> Result<(PrimitiveDeclaration<'a>, usize), ReadFault>
    ensures { Gives (λ x. (view_primitive_declaration x.0, x.1)) result (primitives.register_rule.read (map lexeme tokens.now) at) }
{
    let next = word(tokens, at, Keyword::Reg)?;
    let (name, next) = name(tokens, next)?;
    let next = mark(tokens, next, Symbol::Semicolon)?;
    let place = place_at(tokens, at)?;
    Ok((PrimitiveDeclaration::Register { place, name }, next))
}

/// `"input" names ";"`
#[tactic(auto, unfolding(vl_tree::specs::Primitives::inputs_parts))]
fn inputs<'a>(
    alloc: Global,
    tokens: &[Token<'a>],
    at: usize,
) -> Result<(PrimitiveDeclaration<'a>, usize), ReadFault>
    ensures { Gives (λ x. (view_primitive_declaration x.0, x.1)) result (primitives.inputs_rule.read (map lexeme tokens.now) at) }
{
    let next = word(tokens, at, Keyword::Input)?;
    let (names, next) = names(alloc, tokens, next)?;
    let next = mark(tokens, next, Symbol::Semicolon)?;
    let place = place_at(tokens, at)?;
    Ok((PrimitiveDeclaration::Inputs { place, names }, next))
}

/// A declaration of a primitive.
#[tactic(auto, unfolding(vl_tree::specs::Primitives::declaration_parts))]
fn declaration<'a>(
    alloc: Global,
    tokens: &[Token<'a>],
    at: usize,
) -> Result<(PrimitiveDeclaration<'a>, usize), ReadFault>
    ensures { Gives (λ x. (view_primitive_declaration x.0, x.1)) result (primitives.declaration.read (map lexeme tokens.now) at) }
{
    if is_word(tokens, at, Keyword::Output) {
        return output(tokens, at);
    }
    if is_word(tokens, at, Keyword::Reg) {
        return register(tokens, at);
    }
    inputs(alloc, tokens, at)
}

/// Whether a declaration begins there.
fn declaration_stands(tokens: &[Token<'_>], at: usize) -> bool
    ensures { result ≡ stands kind_of declaration_starts (map lexeme tokens.now) at }
{
    is_word(tokens, at, Keyword::Output)
        || is_word(tokens, at, Keyword::Reg)
        || is_word(tokens, at, Keyword::Input)
}

/// A declaration among others.
struct DeclarationPart;

impl<'a> ListPart<'a> for DeclarationPart {
    type Value = PrimitiveDeclaration<'a>;

    ghost use Rattle.vl_tree.specs.Tree.{PrimitiveDeclaration as TreeSeen};
    ghost use Rattle.vl_tree.specs.Primitives as primitives;
    ghost use Rattle.vl_tree.specs.Seen.{view_primitive_declaration};

    ghost Tree = { TreeSeen };

    ghost rule = { primitives.declaration };

    ghost view = { view_primitive_declaration };

    fn begins(tokens: &[Token<'a>], at: usize) -> bool {
        declaration_stands(tokens, at)
    }

    fn read(
        alloc: Global,
        tokens: &[Token<'a>],
        at: usize,
    ) -> Result<(PrimitiveDeclaration<'a>, usize), ReadFault> {
        declaration(alloc, tokens, at)
    }
}

/// `"initial" name "=" value ";"`
#[tactic(auto, unfolding(vl_tree::specs::Primitives::initial_parts))]
fn initial<'a>(
    alloc: Global,
    tokens: &[Token<'a>],
    at: usize,
) -> Result<(Initial<'a>, usize), ReadFault>
    ensures { Gives (λ x. (view_initial x.0, x.1)) result (primitives.initial.read (map lexeme tokens.now) at) }
{
    let next = word(tokens, at, Keyword::Initial)?;
    let (name, next) = name(tokens, next)?;
    let next = mark(tokens, next, Symbol::Assign)?;
    let (value, next) = initial_value(alloc, tokens, next)?;
    let next = mark(tokens, next, Symbol::Semicolon)?;
    let place = place_at(tokens, at)?;
    Ok((Initial { place, name, value }, next))
}

/// `[ initial ]`
fn optional_initial<'a>(
    alloc: Global,
    tokens: &[Token<'a>],
    at: usize,
) -> Result<(Option<Initial<'a>>, usize), ReadFault>
    ensures { Gives (λ x. (option_map view_initial x.0, x.1)) result ((rules.optional primitives.initial).read (map lexeme tokens.now) at) }
{
    if !is_word(tokens, at, Keyword::Initial) {
        return Ok((None, at));
    }
    let (found, next) = initial(alloc, tokens, at)?;
    Ok((Some(found), next))
}

/// `"primitive" name "(" names ")" ";" { declaration } [ initial ] "table" { row } "endtable" "endprimitive"`
#[tactic(auto, using(vl_tree::proofs::Lists::one_declaration, vl_tree::proofs::Lists::one_row), unfolding(vl_tree::specs::Primitives::primitive_parts, vl_tree::specs::Primitives::body_parts))]
pub fn primitive<'a>(
    alloc: Global,
    tokens: &[Token<'a>],
    at: usize,
) -> Result<(Primitive<'a>, usize), ReadFault>
    ensures { Gives (λ x. (view_primitive x.0, x.1)) result (primitives.primitive.read (map lexeme tokens.now) at) }
{
    let next = word(tokens, at, Keyword::Primitive)?;
    let (name, next) = name(tokens, next)?;
    let next = mark(tokens, next, Symbol::LeftParen)?;
    let (ports, next) = names(alloc, tokens, next)?;
    let next = mark(tokens, next, Symbol::RightParen)?;
    let next = mark(tokens, next, Symbol::Semicolon)?;
    let (declarations, next) = many::<DeclarationPart>(alloc, tokens, next)?;
    let (initial, next) = optional_initial(alloc, tokens, next)?;
    let next = word(tokens, next, Keyword::Table)?;
    let (rows, next) = many::<RowPart>(alloc, tokens, next)?;
    let next = word(tokens, next, Keyword::EndTable)?;
    let next = word(tokens, next, Keyword::EndPrimitive)?;
    let place = place_at(tokens, at)?;
    let primitive = Primitive {
        place,
        name,
        ports,
        declarations,
        initial,
        rows,
    };
    Ok((primitive, next))
}
