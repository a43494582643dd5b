// Why a netlist is refused that its grammar takes.
use vl_tree::UdpKind;

/// Why the tree of a netlist has no circuit (IEEE 1364-2005, clauses 6 to 8, 12, 14 and 15).
#[derive(Clone, Copy, Debug, PartialEq, Eq)]
pub enum ElabKind {
    /// An instance names no module and no primitive.
    UnknownModule,
    /// A name has two definitions or declarations, or a port is connected twice.
    DuplicateName,
    /// A name or a port isn't declared, and may not be implicit.
    UnknownName,
    /// What is joined has different widths, or a port has two ranges, or a terminal isn't one bit.
    WidthMismatch,
    /// A net has a second driver.
    SecondDriver,
    /// A module reaches itself.
    SelfInstance,
    /// No module has the name of the top, or none can be the top.
    NoTop,
    /// More than one module can be the top.
    SeveralTops,
    /// A module with a specify block has an instance of a module.
    SpecifyInHierarchy,
    /// Terminals or ports are wrong, an index is out of range, a constant or a `reg` is driven, or an instance of a module has no name.
    BadTerminal,
    /// The hierarchy, or a condition, has more than 64 levels.
    TooDeep,
    /// More scopes, nets, elements, specify paths, timing checks or bits of a vector than there may be.
    TooMany,
    /// A delay or a limit is too long, or a limit of a timing check that takes limits below 0 adds up to too much over its module's signals, a gate or a primitive has more delays than its kind takes, an instance of a module has one, a specparam isn't there, or pulses are to be lost that are to become x.
    BadDelay,
    /// The table of a primitive has a fault.
    Udp(UdpKind),
}
