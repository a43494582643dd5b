// The directives by name, and the words of a directive.
ghost use Rattle.std.specs.Prelude.{◌≡◌, ◌<◌, length, map, Option, Some, None, MatchOption};
ghost use Rattle.std.specs.Option.{option_map};
ghost use Rattle.std.specs.List.{list_any};
ghost use Rattle.vl_pieces.specs.Bytes.{same_bytes};
ghost use Rattle.vl_lex.specs.State.{is_taken};
ghost use Rattle.vl_lex.specs.Directives.{are_no_effect, branch_directive, other_directive, directive_of, is_conditional, words_wanted, name_of, implicit_from};
ghost use Rattle.vl_lex.specs.StateBridge.{word};

use crate::branches::Branch;
use sg_text::Place;
use vl_pieces::{is_among, is_word};

/// A compiler directive.
#[derive(Clone, Copy, Debug, PartialEq, Eq)]
pub enum Directive {
    Timescale,
    ResetAll,
    CellDefine,
    EndCellDefine,
    DefaultNetType,
    Define,
    Undef,
    IfDef,
    IfNDef,
    ElsIf,
    Else,
    EndIf,
    NoEffect,
}

/// A word of a directive.
#[derive(Clone, Copy, Debug)]
pub struct Word<'a> {
    pub is_name: bool,
    pub bytes: &'a [u8],
}

/// A directive that waits for its words, with those that it has.
#[derive(Debug, Drop)]
pub struct Waiting<'a> {
    pub directive: Directive,
    pub place: Place,
    pub words: Vec<Word<'a>>,
}

// In the order of the definition.
const NO_EFFECT: [&str; 6] = [
    "nounconnected_drive",
    "delay_mode_path",
    "suppress_faults",
    "nosuppress_faults",
    "enable_portfaults",
    "disable_portfaults",
];

fn branch_directive(name: &[u8]) -> Option<Directive>
    ensures { result ≡ branch_directive name.now }
{
    if is_word(name, "ifdef") {
        Some(Directive::IfDef)
    } else if is_word(name, "ifndef") {
        Some(Directive::IfNDef)
    } else if is_word(name, "elsif") {
        Some(Directive::ElsIf)
    } else if is_word(name, "else") {
        Some(Directive::Else)
    } else if is_word(name, "endif") {
        Some(Directive::EndIf)
    } else {
        None
    }
}

fn has_no_effect(name: &[u8]) -> bool
    ensures { result ≡ list_any (λ word. same_bytes word name.now) are_no_effect }
{
    is_among(&NO_EFFECT, name)
}

fn other_directive(name: &[u8]) -> Option<Directive>
    ensures { result ≡ other_directive name.now }
{
    if is_word(name, "timescale") {
        Some(Directive::Timescale)
    } else if is_word(name, "resetall") {
        Some(Directive::ResetAll)
    } else if is_word(name, "celldefine") {
        Some(Directive::CellDefine)
    } else if is_word(name, "endcelldefine") {
        Some(Directive::EndCellDefine)
    } else if is_word(name, "default_nettype") {
        Some(Directive::DefaultNetType)
    } else if is_word(name, "define") {
        Some(Directive::Define)
    } else if is_word(name, "undef") {
        Some(Directive::Undef)
    } else if has_no_effect(name) {
        Some(Directive::NoEffect)
    } else {
        None
    }
}

// The directive that a name is.
#[tactic(auto, unfolding(crate::specs::Directives::directive_of))]
pub fn directive_of(name: &[u8]) -> Option<Directive>
    ensures { result ≡ directive_of name.now }
{
    branch_directive(name).or_else(|| other_directive(name))
}

impl Directive {
    // Whether it opens, goes on with or closes a branch.
    pub fn is_conditional(self) -> bool
        ensures { result ≡ is_conditional self }
    {
        matches!(
            self,
            Directive::IfDef
                | Directive::IfNDef
                | Directive::ElsIf
                | Directive::Else
                | Directive::EndIf
        )
    }
}

// The one word, if it is a name.
pub fn name_of<'a>(words: &[Word<'a>]) -> Option<&'a [u8]>
    ensures { MatchOption result (name_of (map word words.now) ≡ None) (λ name. name_of (map word words.now) ≡ Some name.now) }
{
    match words {
        [one] if one.is_name => Some(one.bytes),
        _ => None,
    }
}

// Whether nets may be implicit by a net type.
pub fn implicit_of(words: &[Word]) -> Option<bool>
    ensures { result ≡ implicit_from (name_of (map word words.now)) }
{
    let name = name_of(words)?;
    if is_word(name, "wire") {
        Some(true)
    } else if is_word(name, "none") {
        Some(false)
    } else {
        None
    }
}
