// Scopes: the instances of modules, and their variables.
use crate::NetId;
use sg_text::Text;
use sg_time::Scale;

/// The range of a vector, from its left bit to its right one (IEEE 1364-2005, 4.3.1).
#[derive(Clone, Copy, Debug, PartialEq, Eq)]
pub struct Range {
    pub left: i64,
    pub right: i64,
}

/// How a variable is a port of its module, if it is one (IEEE 1364-2005, 12.3.3).
#[derive(Clone, Copy, Debug, PartialEq, Eq)]
pub enum Port {
    Input,
    Output,
    Inner,
}

/// A variable of a scope: a net or a reg that has a declaration, or needs none (IEEE 1364-2005, 4.2, 4.5).
#[derive(Debug, Drop)]
pub struct Variable {
    pub name: Text,
    pub range: Option<Range>,
    pub reg: bool,
    pub port: Port,
    /// The net of each of its bits, left first.
    pub bits: Vec<NetId>,
}

/// A scope: an instance of a module (IEEE 1364-2005, 12.1.2, 12.7).
#[derive(Debug, Drop)]
pub struct Scope {
    /// The scope that has the instance; the top has none.
    pub parent: Option<u32>,
    /// The name of the instance; that of the top is its module's.
    pub name: Text,
    pub module: Text,
    pub scale: Scale,
    /// Whether it isn't the top, and its module instantiates no module.
    pub leaf: bool,
    /// In the order in which they are shown.
    pub variables: Vec<Variable>,
}
