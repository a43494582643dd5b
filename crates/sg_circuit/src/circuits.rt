// A circuit, made of its parts.
ghost use Rattle.std.specs.Prelude.{◌≡◌};
ghost use Rattle.sg_circuit.specs.Closed.{IsClosed};
ghost use Rattle.sg_circuit.specs.Seen.{circuit_seen, AreIndexed};

use crate::{
    Check, CheckConditions, CheckTiming, Element, LegTiming, Net, Path, Scope, Span, UdpUse, Zero,
};
use cond_expr::Expr;
use sg_delay::GateDelays;
use sg_time::Unit;
use std::marker::Model;

/// The parts of a circuit. Each is known by its number: its place in its list, counted from 0.
#[derive(Drop)]
pub struct Parts {
    /// The time that one tick is.
    pub tick: Unit,
    pub nets: Vec<Net>,
    pub elements: Vec<Element>,
    /// The delays that gates and primitives have, each once.
    pub gate_delays: Vec<GateDelays>,
    /// The delays and limits that legs and paths have, each once.
    pub leg_timings: Vec<LegTiming>,
    /// The specify paths to the bits of outputs, those to one bit side by side.
    pub paths: Vec<Path>,
    /// The conditions of paths and timing checks as modules spell them, each once. Instances share them; only the nets are an instance's own.
    pub conditions: Vec<Expr>,
    /// The user-defined primitives that elements are instances of, each once.
    pub udps: Vec<UdpUse>,
    pub checks: Vec<Check>,
    /// What each of the checks looks for.
    pub check_timings: Vec<CheckTiming>,
    /// How the conditions of each are spelled.
    pub check_conditions: Vec<CheckConditions>,
    pub scopes: Vec<Scope>,
    /// The limits of timing checks that are taken as 0.
    pub zeroed: Vec<Zero>,
}

impl Parts {
    ghost use Rattle.std.specs.Prelude.{◌≡◌, ◌≤◌, length};
    ghost use Rattle.sg_circuit.specs.PathsSeen.{spanned};

    /// The paths of a span.
    pub fn paths_in(&self, span: Span) -> &[Path]
        requires ordered { span.start ≤ span.end }
        requires within { span.end ≤ length self.now.paths.items }
        ensures { result.now ≡ spanned self.now.paths.items span }
    {
        &self.paths[span.start as usize..span.end as usize]
    }
}

/// A circuit whose parts fit together.
#[derive(Drop)]
pub struct Circuit {
    parts: Parts,
}

impl Model for Circuit {
    ghost use Rattle.std.specs.Coded.{codes, coded_ℕ};
    ghost use Rattle.cond_expr.specs.Codes.{coded_cond};
    ghost use Rattle.sg_circuit.specs.Circuit.{Circuit as Seen};

    ghost Value = { Seen };

    ghost coded = { Prim.hlevel (codes, coded_cond coded_ℕ) };

    ghost use Rattle.sg_circuit.specs.Closed.{IsClosed};
    ghost use Rattle.sg_circuit.specs.Seen.{circuit_seen, AreIndexed};

    ghost view = { λ c. circuit_seen c.parts };

    ghost invariant = { λ c. IsClosed (circuit_seen c.parts) × AreIndexed c.parts };
}

impl Circuit {
    /// The circuit of these parts.
    pub fn close(parts: Parts) -> Circuit
        requires closed { IsClosed (circuit_seen parts) }
        requires indexed { AreIndexed parts }
        ensures { result ≡ circuit_seen parts }
    {
        Circuit { parts }
    }

    /// Its parts, by value.
    pub fn into_parts(self) -> Parts
        ensures seen { circuit_seen result ≡ self }
        ensures closed { IsClosed self }
        ensures indexed { AreIndexed result }
    {
        self.parts
    }

    /// Its parts.
    pub fn parts(&self) -> &Parts
        ensures seen { circuit_seen result.now ≡ self.now }
        ensures closed { IsClosed self.now }
        ensures indexed { AreIndexed result.now }
    {
        &self.parts
    }
}
