// The names of kinds, as a report writes them.
ghost use Rattle.std.specs.Prelude.{◌≡◌};
ghost use Rattle.netlist_read.specs.Kinds.{block_name, text_name, table_name};
ghost use Rattle.netlist_read.specs.Written.{meaning_head};

use elab_model::ElabKind;
use udp_rows::UdpKind;
use vl_lex::LexKind;
use vl_specify::SpecifyKind;

pub fn text_name(kind: LexKind) -> &'static str
    ensures { result.now ≡ text_name kind }
{
    match kind {
        LexKind::BadByte => "BadByte",
        LexKind::UnendedComment => "UnendedComment",
        LexKind::UnendedText => "UnendedText",
        LexKind::UnknownDirective => "UnknownDirective",
        LexKind::UnbalancedIf => "UnbalancedIf",
        LexKind::MacroTooDeep => "MacroTooDeep",
        LexKind::FileTooLarge => "FileTooLarge",
        LexKind::BadDirective => "BadDirective",
    }
}

pub fn table_name(kind: UdpKind) -> &'static str
    ensures { result.now ≡ table_name kind }
{
    match kind {
        UdpKind::TooManyInputs => "TooManyInputs",
        UdpKind::TwoEdges => "TwoEdges",
        UdpKind::Clash => "Clash",
        UdpKind::BadSymbol => "BadSymbol",
        UdpKind::RowLength => "RowLength",
    }
}

pub fn block_name(kind: SpecifyKind) -> &'static str
    ensures { result.now ≡ block_name kind }
{
    match kind {
        SpecifyKind::Syntax => "Syntax",
        SpecifyKind::ShowCancelled => "ShowCancelled",
        SpecifyKind::UnsupportedCheck => "UnsupportedCheck",
        SpecifyKind::BadDelayCount => "BadDelayCount",
    }
}

// What stands before the kind of a table's fault, or the whole name.
pub fn meaning_head(kind: ElabKind) -> &'static str
    ensures { result.now ≡ meaning_head kind }
{
    match kind {
        ElabKind::UnknownModule => "UnknownModule",
        ElabKind::DuplicateName => "DuplicateName",
        ElabKind::UnknownName => "UnknownName",
        ElabKind::WidthMismatch => "WidthMismatch",
        ElabKind::SecondDriver => "SecondDriver",
        ElabKind::SelfInstance => "SelfInstance",
        ElabKind::NoTop => "NoTop",
        ElabKind::SeveralTops => "SeveralTops",
        ElabKind::SpecifyInHierarchy => "SpecifyInHierarchy",
        ElabKind::BadTerminal => "BadTerminal",
        ElabKind::TooDeep => "TooDeep",
        ElabKind::TooMany => "TooMany",
        ElabKind::BadDelay => "BadDelay",
        ElabKind::Udp(_) => "Udp ",
    }
}
