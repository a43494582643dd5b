// The rules by which texts are changed.
ghost use Rattle.std.specs.Prelude.{◌≡◌};
ghost use Rattle.fit_changes.specs.Rules.{is_told, rule_number, rule_word};

/// A rule by which a text is changed.
#[derive(Clone, Copy, Debug, PartialEq, Eq)]
pub enum Rule {
    /// A limit below 0 of a timing check that takes none.
    NegativeLimit,
    /// A constant without a width, where one bit is meant.
    Constant,
    /// What is below no top.
    Unused,
    /// A directive of clause 19 by which nothing changes here.
    Directive,
    /// A macro with arguments or over several lines, or the use of one.
    Macro,
    /// A file that is included.
    Include,
    /// A macro that is defined beside the files.
    Define,
    /// An inout port that nothing inside drives.
    PowerPin,
    /// An instance of a module in a cell, in whose place stands what that module holds.
    Wrapper,
    /// A pull gate, `tri0` or `tri1` of a net that nothing else drives.
    Pull,
    /// The strength of a net's only driver.
    Strength,
    /// Arithmetic of constants in a value.
    Arithmetic,
    /// An expression that is assigned, as gates.
    Expression,
    /// Conditions of a check's time stamp and time check.
    StampCondition,
    /// A path of an edge where no condition of its other paths holds.
    IfnoneEdge,
    /// An instance of a module without a text, with supplies alone.
    Missing,
    /// An array of gates or instances.
    Array,
    /// A port of several bits in an SDF entry.
    BusPort,
    /// An exponent of an SDF number.
    Exponent,
    /// An entry of an SDF file's head.
    Head,
    /// A directive that changes delays or values.
    DelayMode,
    /// A port of the top that is a supply.
    Supply,
    /// An instance of the top that is cut out.
    Cut,
    /// An instance of a cell that goes.
    Drop,
    /// A cell without its checks.
    NoChecks,
    /// A cell whose checks name no notifier.
    NoNotifier,
    /// `?:`, as gates that make x of z.
    Select,
    /// A check of several bits or edges, as one for each.
    SplitCheck,
    /// A net of another type, as a wire.
    NetType,
    /// An edge of an SDF entry that its cell hasn't.
    Edge,
    /// The condition of an SDF entry, as its cell spells it.
    Condition,
    /// A list of delays of another length.
    List,
    /// An SDF file without values of a corner.
    Corner,
    /// A CELLTYPE that isn't the instance's module.
    CellType,
}

/// All rules, in the order in which a report counts them: first those by which all values and violations stay.
pub(crate) const RULES: [Rule; 34] = [
    Rule::NegativeLimit,
    Rule::Constant,
    Rule::Unused,
    Rule::Directive,
    Rule::Macro,
    Rule::Include,
    Rule::Define,
    Rule::PowerPin,
    Rule::Wrapper,
    Rule::Pull,
    Rule::Strength,
    Rule::Arithmetic,
    Rule::Expression,
    Rule::StampCondition,
    Rule::IfnoneEdge,
    Rule::Missing,
    Rule::Array,
    Rule::BusPort,
    Rule::Exponent,
    Rule::Head,
    Rule::DelayMode,
    Rule::Supply,
    Rule::Cut,
    Rule::Drop,
    Rule::NoChecks,
    Rule::NoNotifier,
    Rule::Select,
    Rule::SplitCheck,
    Rule::NetType,
    Rule::Edge,
    Rule::Condition,
    Rule::List,
    Rule::Corner,
    Rule::CellType,
];

impl Rule {
    /// Its word in a report.
    pub fn word(self) -> &'static str
        ensures { result.now ≡ rule_word self }
    {
        match self {
            Rule::NegativeLimit => "negative-limit",
            Rule::Constant => "constant",
            Rule::Unused => "unused",
            Rule::Directive => "directive",
            Rule::Macro => "macro",
            Rule::Include => "include",
            Rule::Define => "define",
            Rule::PowerPin => "power-pin",
            Rule::Wrapper => "wrapper",
            Rule::Pull => "pull",
            Rule::Strength => "strength",
            Rule::Arithmetic => "arithmetic",
            Rule::Expression => "expression",
            Rule::StampCondition => "stamp-condition",
            Rule::IfnoneEdge => "ifnone-edge",
            Rule::Missing => "missing",
            Rule::Array => "array",
            Rule::BusPort => "bus-port",
            Rule::Exponent => "exponent",
            Rule::Head => "head",
            Rule::DelayMode => "delay-mode",
            Rule::Supply => "supply",
            Rule::Cut => "cut",
            Rule::Drop => "drop",
            Rule::NoChecks => "no-checks",
            Rule::NoNotifier => "no-notifier",
            Rule::Select => "select",
            Rule::SplitCheck => "split-check",
            Rule::NetType => "net-type",
            Rule::Edge => "edge",
            Rule::Condition => "condition",
            Rule::List => "list",
            Rule::Corner => "corner",
            Rule::CellType => "cell-type",
        }
    }

    /// Its place among the rules.
    pub(crate) fn number(self) -> u8
        ensures { result ≡ rule_number self }
    {
        match self {
            Rule::NegativeLimit => 0,
            Rule::Constant => 1,
            Rule::Unused => 2,
            Rule::Directive => 3,
            Rule::Macro => 4,
            Rule::Include => 5,
            Rule::Define => 6,
            Rule::PowerPin => 7,
            Rule::Wrapper => 8,
            Rule::Pull => 9,
            Rule::Strength => 10,
            Rule::Arithmetic => 11,
            Rule::Expression => 12,
            Rule::StampCondition => 13,
            Rule::IfnoneEdge => 14,
            Rule::Missing => 15,
            Rule::Array => 16,
            Rule::BusPort => 17,
            Rule::Exponent => 18,
            Rule::Head => 19,
            Rule::DelayMode => 20,
            Rule::Supply => 21,
            Rule::Cut => 22,
            Rule::Drop => 23,
            Rule::NoChecks => 24,
            Rule::NoNotifier => 25,
            Rule::Select => 26,
            Rule::SplitCheck => 27,
            Rule::NetType => 28,
            Rule::Edge => 29,
            Rule::Condition => 30,
            Rule::List => 31,
            Rule::Corner => 32,
            Rule::CellType => 33,
        }
    }

    /// Whether values or violations may change by it.
    pub fn is_told(self) -> bool
        ensures { result ≡ is_told self }
    {
        self.number() >= 20
    }
}
