// The directives by name (IEEE 1364-2005, clause 19 and annex D, and those of Verilog-XL).
use vl_pieces::{is_among, is_word};

/// What belongs to a directive behind its name.
#[derive(Clone, Copy)]
pub enum Extent {
    Words(usize),
    Line,
}

/// A compiler directive.
#[derive(Clone, Copy)]
pub enum Directive {
    IfDef,
    IfNDef,
    ElsIf,
    Else,
    EndIf,
    Define,
    Undef,
    Include,
    /// Taken as it is.
    Taken,
    /// The same, with words on its line.
    TakenLine,
    /// Without a meaning for a netlist, or one that isn't kept: delays or values may change.
    LeftOut { extent: Extent, told: bool },
}

const TAKEN: [&str; 9] = [
    "resetall",
    "celldefine",
    "endcelldefine",
    "nounconnected_drive",
    "delay_mode_path",
    "suppress_faults",
    "nosuppress_faults",
    "enable_portfaults",
    "disable_portfaults",
];

const WORDLESS: [&str; 12] = [
    "protect",
    "endprotect",
    "end_keywords",
    "accelerate",
    "noaccelerate",
    "expand_vectornets",
    "noexpand_vectornets",
    "autoexpand_vectornets",
    "remove_gatenames",
    "noremove_gatenames",
    "remove_netnames",
    "noremove_netnames",
];

const ONE_WORD: [&str; 3] = [
    "begin_keywords",
    "default_decay_time",
    "default_trireg_strength",
];

const LINES: [&str; 3] = ["line", "pragma", "uselib"];

const DELAY_MODES: [&str; 3] = [
    "delay_mode_zero",
    "delay_mode_unit",
    "delay_mode_distributed",
];

fn branch_of(name: &[u8]) -> Option<Directive> {
    if is_word(name, "ifdef") {
        Some(Directive::IfDef)
    } else if is_word(name, "ifndef") {
        Some(Directive::IfNDef)
    } else if is_word(name, "elsif") {
        Some(Directive::ElsIf)
    } else if is_word(name, "else") {
        Some(Directive::Else)
    } else if is_word(name, "endif") {
        Some(Directive::EndIf)
    } else {
        None
    }
}

fn left_out_of(name: &[u8]) -> Option<Directive> {
    let (extent, told) = if is_among(&WORDLESS, name) {
        (Extent::Words(0), false)
    } else if is_among(&ONE_WORD, name) {
        (Extent::Words(1), false)
    } else if is_among(&LINES, name) {
        (Extent::Line, false)
    } else if is_among(&DELAY_MODES, name) {
        (Extent::Words(0), true)
    } else if is_word(name, "unconnected_drive") {
        (Extent::Words(1), true)
    } else {
        return None;
    };
    Some(Directive::LeftOut { extent, told })
}

fn other_of(name: &[u8]) -> Option<Directive> {
    if is_word(name, "define") {
        Some(Directive::Define)
    } else if is_word(name, "undef") {
        Some(Directive::Undef)
    } else if is_word(name, "include") {
        Some(Directive::Include)
    } else if is_word(name, "timescale") || is_word(name, "default_nettype") {
        Some(Directive::TakenLine)
    } else if is_among(&TAKEN, name) {
        Some(Directive::Taken)
    } else {
        left_out_of(name)
    }
}

/// The directive that a name is.
pub fn directive_of(name: &[u8]) -> Option<Directive> {
    match branch_of(name) {
        Some(directive) => Some(directive),
        None => other_of(name),
    }
}

impl Directive {
    /// Whether it opens, goes on with or closes a branch.
    pub fn is_conditional(self) -> bool {
        matches!(
            self,
            Directive::IfDef
                | Directive::IfNDef
                | Directive::ElsIf
                | Directive::Else
                | Directive::EndIf
        )
    }

    /// Whether a macro may have its name.
    pub fn may_be_macro(self) -> bool {
        matches!(self, Directive::LeftOut { .. })
    }
}
