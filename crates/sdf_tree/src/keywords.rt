// The words of SDF files.
ghost use Rattle.std.specs.Prelude.{◌≡◌};
ghost use Rattle.std.specs.Str.{str_to_ascii_lowercase};
ghost use Rattle.sdf_tree.specs.Keywords.{is_spelled, keyword_of, spelling, word_in};

/// A word of the grammar of SDF files (IEEE 1497-2001, annex A), which stands in either case.
#[derive(Clone, Copy, Debug)]
pub enum Keyword {
    DelayFile,
    SdfVersion,
    Design,
    Date,
    Vendor,
    Program,
    Version,
    Process,
    Divider,
    TimeScale,
    Voltage,
    Temperature,
    Cell,
    CellType,
    Instance,
    Delay,
    TimingCheck,
    TimingEnv,
    Label,
    Absolute,
    Increment,
    PathPulse,
    PathPulsePercent,
    IoPath,
    Cond,
    CondElse,
    Port,
    Interconnect,
    Device,
    NetDelay,
    Retain,
    Setup,
    Hold,
    Recovery,
    Removal,
    Skew,
    SetupHold,
    RecRem,
    Width,
    Period,
    BidirectSkew,
    NoChange,
    Posedge,
    Negedge,
    /// `01`
    Edge01,
    /// `10`
    Edge10,
    /// `0z`
    Edge0z,
    /// `z1`
    EdgeZ1,
    /// `1z`
    Edge1z,
    /// `z0`
    EdgeZ0,
}

// In the order of the definition.
const WORDS: [Keyword; 50] = [
    Keyword::DelayFile,
    Keyword::SdfVersion,
    Keyword::Design,
    Keyword::Date,
    Keyword::Vendor,
    Keyword::Program,
    Keyword::Version,
    Keyword::Process,
    Keyword::Divider,
    Keyword::TimeScale,
    Keyword::Voltage,
    Keyword::Temperature,
    Keyword::Cell,
    Keyword::CellType,
    Keyword::Instance,
    Keyword::Delay,
    Keyword::TimingCheck,
    Keyword::TimingEnv,
    Keyword::Label,
    Keyword::Absolute,
    Keyword::Increment,
    Keyword::PathPulse,
    Keyword::PathPulsePercent,
    Keyword::IoPath,
    Keyword::Cond,
    Keyword::CondElse,
    Keyword::Port,
    Keyword::Interconnect,
    Keyword::Device,
    Keyword::NetDelay,
    Keyword::Retain,
    Keyword::Setup,
    Keyword::Hold,
    Keyword::Recovery,
    Keyword::Removal,
    Keyword::Skew,
    Keyword::SetupHold,
    Keyword::RecRem,
    Keyword::Width,
    Keyword::Period,
    Keyword::BidirectSkew,
    Keyword::NoChange,
    Keyword::Posedge,
    Keyword::Negedge,
    Keyword::Edge01,
    Keyword::Edge10,
    Keyword::Edge0z,
    Keyword::EdgeZ1,
    Keyword::Edge1z,
    Keyword::EdgeZ0,
];

// The first of some words that a text is.
fn word_in(words: &[Keyword], text: &[u8]) -> Option<Keyword>
    ensures { result ≡ word_in words.now (str_to_ascii_lowercase text.now) }
{
    let mut rest = words;
    while let [word, tail @ ..] = rest {
        if word.is_spelled(text) {
            return Some(*word);
        }
        rest = tail;
    }
    None
}

impl Keyword {
    /// The word in lower case.
    pub fn spelling(self) -> &'static str
        ensures { result.now ≡ spelling self }
    {
        match self {
            Keyword::DelayFile => "delayfile",
            Keyword::SdfVersion => "sdfversion",
            Keyword::Design => "design",
            Keyword::Date => "date",
            Keyword::Vendor => "vendor",
            Keyword::Program => "program",
            Keyword::Version => "version",
            Keyword::Process => "process",
            Keyword::Divider => "divider",
            Keyword::TimeScale => "timescale",
            Keyword::Voltage => "voltage",
            Keyword::Temperature => "temperature",
            Keyword::Cell => "cell",
            Keyword::CellType => "celltype",
            Keyword::Instance => "instance",
            Keyword::Delay => "delay",
            Keyword::TimingCheck => "timingcheck",
            Keyword::TimingEnv => "timingenv",
            Keyword::Label => "label",
            Keyword::Absolute => "absolute",
            Keyword::Increment => "increment",
            Keyword::PathPulse => "pathpulse",
            Keyword::PathPulsePercent => "pathpulsepercent",
            Keyword::IoPath => "iopath",
            Keyword::Cond => "cond",
            Keyword::CondElse => "condelse",
            Keyword::Port => "port",
            Keyword::Interconnect => "interconnect",
            Keyword::Device => "device",
            Keyword::NetDelay => "netdelay",
            Keyword::Retain => "retain",
            Keyword::Setup => "setup",
            Keyword::Hold => "hold",
            Keyword::Recovery => "recovery",
            Keyword::Removal => "removal",
            Keyword::Skew => "skew",
            Keyword::SetupHold => "setuphold",
            Keyword::RecRem => "recrem",
            Keyword::Width => "width",
            Keyword::Period => "period",
            Keyword::BidirectSkew => "bidirectskew",
            Keyword::NoChange => "nochange",
            Keyword::Posedge => "posedge",
            Keyword::Negedge => "negedge",
            Keyword::Edge01 => "01",
            Keyword::Edge10 => "10",
            Keyword::Edge0z => "0z",
            Keyword::EdgeZ1 => "z1",
            Keyword::Edge1z => "1z",
            Keyword::EdgeZ0 => "z0",
        }
    }

    fn bytes(self) -> &'static [u8]
        ensures { result.now ≡ spelling self }
    {
        self.spelling().as_bytes()
    }

    /// Whether a text is this word, in whatever case.
    pub fn is_spelled(self, text: &[u8]) -> bool
        ensures { result ≡ is_spelled self text.now }
    {
        self.bytes().eq_ignore_ascii_case(text)
    }

    /// The word that a text is, if it is one.
    #[tactic(auto, unfolding(crate::specs::Keywords::keyword_of))]
    pub fn of(text: &[u8]) -> Option<Keyword>
        ensures { result ≡ keyword_of text.now }
    {
        word_in(&WORDS, text)
    }
}
