// Paths of specify blocks.
use crate::{Amounts, Term, Word};
use sg_logic::Value;
use sg_text::Place;

/// A change of an `edge` list: two of 0, 1 and x, where z is read as x.
#[derive(Clone, Copy, Debug, PartialEq, Eq)]
pub struct EdgePair {
    pub from: Value,
    pub to: Value,
}

/// `"posedge" | "negedge" | "edge" "[" pair { "," pair } "]"`. The last form stands in timing checks alone.
#[derive(Debug, Drop)]
pub enum EdgeWord {
    Posedge,
    Negedge,
    Pairs(Vec<EdgePair>),
}

/// When a path is taken: always, where its condition holds, or where that of no other path does.
#[derive(Debug, Drop)]
pub enum PathCondition<'a> {
    Always,
    /// `"if" "(" condition ")"`
    If(Vec<Word<'a>>),
    /// `"ifnone"`
    IfNone,
}

/// `"+" | "-"`
#[derive(Clone, Copy, Debug, PartialEq, Eq)]
pub enum Polarity {
    Positive,
    Negative,
}

/// `"=>" | "*>"`: bit by bit, or from each bit to each.
#[derive(Clone, Copy, Debug, PartialEq, Eq)]
pub enum Arrow {
    Parallel,
    Full,
}

/// `[ polarity ] ":" condition`
#[derive(Debug, Drop)]
pub struct DataSource<'a> {
    pub polarity: Option<Polarity>,
    pub words: Vec<Word<'a>>,
}

/// `terms | "(" terms data-source ")"`
#[derive(Debug, Drop)]
pub struct Destination<'a> {
    pub terms: Vec<Term<'a>>,
    pub source: Option<DataSource<'a>>,
}

/// `[ "if" "(" condition ")" | "ifnone" ] "(" [ edge ] terms [ polarity ] arrow destination ")" "=" delays`. Parentheses
/// round delays leave no trace.
#[derive(Debug, Drop)]
pub struct SpecifyPath<'a> {
    pub place: Place,
    pub condition: PathCondition<'a>,
    pub edge: Option<EdgeWord>,
    pub sources: Vec<Term<'a>>,
    pub polarity: Option<Polarity>,
    pub arrow: Arrow,
    pub destination: Destination<'a>,
    pub delays: Vec<Amounts<'a>>,
}
