// The gates of a statement.
use fit_changes::Rule;
use fit_gates::{Gate, Join, Kind, Naming, Operand, Term, gates_of, push_operand, push_statements};
use fit_items::Run;
use fit_terms::{Scope, Stop, read_term};
use sg_logic::GateKind;
use std::alloc::Global;

// No statement is made of more gates.
const MOST_GATES: usize = 65536;

/// What a statement's expressions are made of.
#[derive(Drop)]
pub struct Work<'a> {
    names: Vec<&'a [u8]>,
    gates: Vec<Gate>,
    joins: Vec<Join>,
}

fn is_gated(term: &Term) -> bool {
    match term {
        Term::Gated { .. } => true,
        _ => false,
    }
}

fn is_select(gate: &Gate) -> bool {
    match gate.kind {
        Kind::Choice | Kind::Gate(GateKind::Bufif0 | GateKind::Bufif1) => true,
        _ => false,
    }
}

fn is_of_net(join: &Join) -> bool {
    match join.source {
        Operand::Net { .. } => true,
        _ => false,
    }
}

impl<'a> Work<'a> {
    pub fn new(alloc: Global) -> Work<'a> {
        Work {
            names: Vec::new(alloc),
            gates: Vec::new(alloc),
            joins: Vec::new(alloc),
        }
    }

    pub fn has_gates(&self) -> bool {
        !self.gates.is_empty()
    }

    /// How many wires it may declare.
    pub fn wires(&self) -> u64 {
        self.gates.len() as u64
    }

    pub fn read(&mut self, alloc: Global, scope: &Scope<'_, 'a>, run: Run) -> Result<Term, Stop> {
        read_term(alloc, scope, run, &mut self.names)
    }

    pub fn name(&mut self, text: &'a [u8]) -> Result<usize, Stop> {
        let name = self.names.len();
        self.names.push(text)?;
        Ok(name)
    }

    /// So many bits of an expression. What may be off has no more bits than it is read with.
    pub fn bits(&mut self, alloc: Global, term: &Term, width: usize) -> Result<Vec<Operand>, Stop> {
        if is_gated(term) && width > term.width()? {
            return Err(Stop::Other);
        }
        let bits = gates_of(alloc, &mut self.gates, term, width)?;
        if self.gates.len() > MOST_GATES {
            return Err(Stop::Other);
        }
        Ok(bits)
    }

    /// Has the bits of a net be those of an expression.
    pub fn assign(&mut self, alloc: Global, targets: &[Operand], term: &Term) -> Result<(), Stop> {
        let sources = self.bits(alloc, term, targets.len())?;
        for (target, source) in targets.iter().zip(sources) {
            self.joins.push(Join {
                target: *target,
                source,
            })?;
        }
        Ok(())
    }

    /// The rule by which the statement changes: `?:` and delays make x of a net's z.
    pub fn rule(&self, delay: &[u8]) -> Rule {
        let selects = self.gates.iter().any(|gate| is_select(gate));
        if selects || (!delay.is_empty() && self.joins.iter().any(|join| is_of_net(join))) {
            Rule::Select
        } else {
            Rule::Expression
        }
    }

    /// Adds the gates as statements. Wires are numbered from the first one on.
    pub fn push(&self, text: &mut Vec<u8>, first: u64, delay: &[u8]) -> Result<(), Stop> {
        let naming = Naming {
            names: &self.names,
            first,
            joins: &self.joins,
        };
        push_statements(text, &naming, delay, &self.gates)?;
        Ok(())
    }

    fn push_bit(&self, text: &mut Vec<u8>, first: u64, bit: Operand) -> Result<(), Stop> {
        let naming = Naming {
            names: &self.names,
            first,
            joins: &self.joins,
        };
        push_operand(text, &naming, bit)?;
        Ok(())
    }

    /// Adds bits as an operand, the rightmost first among the bits and last in the text.
    pub fn push_bits(&self, text: &mut Vec<u8>, first: u64, bits: &[Operand]) -> Result<(), Stop> {
        if let [bit] = bits {
            return self.push_bit(text, first, *bit);
        }
        text.push(b'{')?;
        for (at, bit) in bits.iter().rev().enumerate() {
            if at > 0 {
                text.extend_from_slice(b", ")?;
            }
            self.push_bit(text, first, *bit)?;
        }
        text.push(b'}')?;
        Ok(())
    }
}
