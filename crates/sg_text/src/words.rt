// The words of netlists.
ghost use Rattle.std.specs.Prelude.{◌≡◌, map};
ghost use Rattle.sg_text.specs.Words.{is_reserved_word, use_in, use_of, keyword_number};
ghost use Rattle.sg_text.specs.WordsSeen.{row, has_ends};

/// A word of the grammar of netlists, but for `module` and `macromodule`.
#[derive(Clone, Copy, Debug)]
pub enum Keyword {
    EndModule,
    Input,
    Output,
    Wire,
    Tri,
    Supply0,
    Supply1,
    Reg,
    Assign,
    And,
    Nand,
    Or,
    Nor,
    Xor,
    Xnor,
    Buf,
    Not,
    Bufif0,
    Bufif1,
    Notif0,
    Notif1,
    Primitive,
    EndPrimitive,
    Table,
    EndTable,
    Initial,
    Specify,
    EndSpecify,
    SpecParam,
    If,
    IfNone,
    PulseStyleOnEvent,
    PulseStyleOnDetect,
    NoShowCancelled,
    ShowCancelled,
    Posedge,
    Negedge,
    Edge,
}

/// What a reserved word is for.
#[derive(Clone, Copy, Debug)]
pub enum Reserved {
    /// The word `module` or `macromodule`.
    Module,
    /// Another word of the grammar.
    Keyword(Keyword),
    /// A word of a construct that is left out.
    LeftOut,
}

// In the order of the definition.
const RESERVED: [(&str, Reserved); 84] = [
    ("module", Reserved::Module),
    ("macromodule", Reserved::Module),
    ("endmodule", Reserved::Keyword(Keyword::EndModule)),
    ("input", Reserved::Keyword(Keyword::Input)),
    ("output", Reserved::Keyword(Keyword::Output)),
    ("wire", Reserved::Keyword(Keyword::Wire)),
    ("tri", Reserved::Keyword(Keyword::Tri)),
    ("supply0", Reserved::Keyword(Keyword::Supply0)),
    ("supply1", Reserved::Keyword(Keyword::Supply1)),
    ("reg", Reserved::Keyword(Keyword::Reg)),
    ("assign", Reserved::Keyword(Keyword::Assign)),
    ("and", Reserved::Keyword(Keyword::And)),
    ("nand", Reserved::Keyword(Keyword::Nand)),
    ("or", Reserved::Keyword(Keyword::Or)),
    ("nor", Reserved::Keyword(Keyword::Nor)),
    ("xor", Reserved::Keyword(Keyword::Xor)),
    ("xnor", Reserved::Keyword(Keyword::Xnor)),
    ("buf", Reserved::Keyword(Keyword::Buf)),
    ("not", Reserved::Keyword(Keyword::Not)),
    ("bufif0", Reserved::Keyword(Keyword::Bufif0)),
    ("bufif1", Reserved::Keyword(Keyword::Bufif1)),
    ("notif0", Reserved::Keyword(Keyword::Notif0)),
    ("notif1", Reserved::Keyword(Keyword::Notif1)),
    ("primitive", Reserved::Keyword(Keyword::Primitive)),
    ("endprimitive", Reserved::Keyword(Keyword::EndPrimitive)),
    ("table", Reserved::Keyword(Keyword::Table)),
    ("endtable", Reserved::Keyword(Keyword::EndTable)),
    ("initial", Reserved::Keyword(Keyword::Initial)),
    ("specify", Reserved::Keyword(Keyword::Specify)),
    ("endspecify", Reserved::Keyword(Keyword::EndSpecify)),
    ("specparam", Reserved::Keyword(Keyword::SpecParam)),
    ("if", Reserved::Keyword(Keyword::If)),
    ("ifnone", Reserved::Keyword(Keyword::IfNone)),
    (
        "pulsestyle_onevent",
        Reserved::Keyword(Keyword::PulseStyleOnEvent),
    ),
    (
        "pulsestyle_ondetect",
        Reserved::Keyword(Keyword::PulseStyleOnDetect),
    ),
    (
        "noshowcancelled",
        Reserved::Keyword(Keyword::NoShowCancelled),
    ),
    ("showcancelled", Reserved::Keyword(Keyword::ShowCancelled)),
    ("posedge", Reserved::Keyword(Keyword::Posedge)),
    ("negedge", Reserved::Keyword(Keyword::Negedge)),
    ("edge", Reserved::Keyword(Keyword::Edge)),
    ("always", Reserved::LeftOut),
    ("function", Reserved::LeftOut),
    ("task", Reserved::LeftOut),
    ("parameter", Reserved::LeftOut),
    ("localparam", Reserved::LeftOut),
    ("defparam", Reserved::LeftOut),
    ("generate", Reserved::LeftOut),
    ("genvar", Reserved::LeftOut),
    ("config", Reserved::LeftOut),
    ("library", Reserved::LeftOut),
    ("inout", Reserved::LeftOut),
    ("integer", Reserved::LeftOut),
    ("real", Reserved::LeftOut),
    ("time", Reserved::LeftOut),
    ("event", Reserved::LeftOut),
    ("wand", Reserved::LeftOut),
    ("wor", Reserved::LeftOut),
    ("triand", Reserved::LeftOut),
    ("trior", Reserved::LeftOut),
    ("tri0", Reserved::LeftOut),
    ("tri1", Reserved::LeftOut),
    ("trireg", Reserved::LeftOut),
    ("pullup", Reserved::LeftOut),
    ("pulldown", Reserved::LeftOut),
    ("nmos", Reserved::LeftOut),
    ("pmos", Reserved::LeftOut),
    ("cmos", Reserved::LeftOut),
    ("rnmos", Reserved::LeftOut),
    ("rpmos", Reserved::LeftOut),
    ("rcmos", Reserved::LeftOut),
    ("tran", Reserved::LeftOut),
    ("rtran", Reserved::LeftOut),
    ("tranif0", Reserved::LeftOut),
    ("tranif1", Reserved::LeftOut),
    ("rtranif0", Reserved::LeftOut),
    ("rtranif1", Reserved::LeftOut),
    ("strong0", Reserved::LeftOut),
    ("strong1", Reserved::LeftOut),
    ("pull0", Reserved::LeftOut),
    ("pull1", Reserved::LeftOut),
    ("weak0", Reserved::LeftOut),
    ("weak1", Reserved::LeftOut),
    ("highz0", Reserved::LeftOut),
    ("highz1", Reserved::LeftOut),
];

impl Keyword {
    /// Its number among the words of the grammar.
    pub fn number(self) -> u8
        ensures { result ≡ keyword_number self }
    {
        match self {
            Keyword::EndModule => 0,
            Keyword::Input => 1,
            Keyword::Output => 2,
            Keyword::Wire => 3,
            Keyword::Tri => 4,
            Keyword::Supply0 => 5,
            Keyword::Supply1 => 6,
            Keyword::Reg => 7,
            Keyword::Assign => 8,
            Keyword::And => 9,
            Keyword::Nand => 10,
            Keyword::Or => 11,
            Keyword::Nor => 12,
            Keyword::Xor => 13,
            Keyword::Xnor => 14,
            Keyword::Buf => 15,
            Keyword::Not => 16,
            Keyword::Bufif0 => 17,
            Keyword::Bufif1 => 18,
            Keyword::Notif0 => 19,
            Keyword::Notif1 => 20,
            Keyword::Primitive => 21,
            Keyword::EndPrimitive => 22,
            Keyword::Table => 23,
            Keyword::EndTable => 24,
            Keyword::Initial => 25,
            Keyword::Specify => 26,
            Keyword::EndSpecify => 27,
            Keyword::SpecParam => 28,
            Keyword::If => 29,
            Keyword::IfNone => 30,
            Keyword::PulseStyleOnEvent => 31,
            Keyword::PulseStyleOnDetect => 32,
            Keyword::NoShowCancelled => 33,
            Keyword::ShowCancelled => 34,
            Keyword::Posedge => 35,
            Keyword::Negedge => 36,
            Keyword::Edge => 37,
        }
    }
}

impl PartialEq for Keyword {
    ghost use Rattle.std.specs.Prelude.{nat_eq};
    ghost use Rattle.std.specs.Ordering.{on};
    ghost use Rattle.std.specs.Cmp.Rules.{comparing};
    ghost use Rattle.std.proofs.Common.{rules};

    ghost eq = { on keyword_number nat_eq };

    ghost laws = { Prim.search (comparing, rules) };

    fn eq(&self, other: &Keyword) -> bool {
        self.number() == other.number()
    }
}

impl Eq for Keyword {
    ghost use Rattle.std.specs.Cmp.Rules.{comparing};
    ghost use Rattle.std.proofs.Common.{rules};

    ghost laws = { Prim.search (comparing, rules) };
}

// What the first of the rows with these bytes is for.
fn use_in(rows: &[(&str, Reserved)], bytes: &[u8]) -> Option<Reserved>
    ensures { result ≡ use_in bytes.now (map row rows.now) }
{
    let mut rest = rows;
    while let [(word, purpose), tail @ ..] = rest {
        if word.as_bytes() == bytes {
            return Some(*purpose);
        }
        rest = tail;
    }
    None
}

// Whether the first and the last byte may be those of a reserved word, which most names' aren't.
fn may_be_reserved(bytes: &[u8]) -> bool
    ensures { result ≡ has_ends bytes.now }
{
    match bytes {
        [first, .., last] => {
            first.is_ascii_lowercase()
                && (last.is_ascii_lowercase() || *last == b'0' || *last == b'1')
        }
        _ => false,
    }
}

/// What the reserved word of these bytes is for, if they are one (IEEE 1364-2005, the clause on keywords).
#[tactic(auto, using(crate::proofs::WordLaws::no_word_without))]
pub fn use_of(bytes: &[u8]) -> Option<Reserved>
    ensures { result ≡ use_of bytes.now }
{
    if !may_be_reserved(bytes) {
        return None;
    }
    use_in(&RESERVED, bytes)
}

/// Whether the bytes are a reserved word, which no plain name may be (IEEE 1364-2005, the clause on keywords).
pub fn is_reserved(bytes: &[u8]) -> bool
    ensures { result ≡ is_reserved_word bytes.now }
{
    use_of(bytes).is_some()
}
