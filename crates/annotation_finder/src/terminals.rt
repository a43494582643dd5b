// The terminals of timing checks for which entries ask.
ghost use Rattle.std.specs.Prelude.{◌≡◌, ◌<◌, IfOk, IfSome, None, Some, length, map};
ghost use Rattle.std.specs.Option.{option_map};
ghost use Rattle.sdf_meaning.specs.MeantSeen.{view_cell_check};
ghost use Rattle.sdf_tree.specs.Meant.{Triple, pair_check, window_check};
ghost use Rattle.sdf_tree.specs.Seen.{view_terminal, view_tok};
ghost use Rattle.sg_circuit.specs.ChecksSeen.{text_at};
ghost use Rattle.sg_circuit.specs.Seen.{circuit_seen};
ghost use Rattle.annotation_places.specs.Places.{ArePlaces};
ghost use Rattle.annotation_finder.specs.Checks.{event_fits, terminal_for, terminal_seen, terminals_for, terminals_seen, terminals_with};

use crate::ports::NamedPort;
use annotation_conditions::{condition_words, fits_edge, fits_words};
use annotation_places::{Places, Role};
use cond_expr::Tok;
use sdf_tree::{CellCheck, Divider, Edge, PairCheck, Terminal, WindowCheck};
use sg_circuit::Event;
use sg_text::{NoMemory, Text};
use std::alloc::Global;

/// A terminal as an entry names it, with names as they are called.
#[derive(Debug, Drop)]
pub struct NamedTerminal {
    pub port: NamedPort,
    pub edge: Option<Edge>,
    pub condition: Option<Vec<Tok<Text>>>,
}

// The words of a condition, if there is one.
fn words_of(
    alloc: Global,
    condition: &Option<Vec<Tok<&[u8]>>>,
) -> Result<Option<Vec<Tok<Text>>>, NoMemory>
    ensures { IfOk result (λ own. option_map (λ ws. ws.items) own ≡ option_map (λ ws. map view_tok ws.items) condition.now) }
{
    match condition {
        Some(words) => Ok(Some(condition_words(alloc, words)?)),
        None => Ok(None),
    }
}

impl NamedTerminal {
    /// What an entry names. Takes memory.
    pub fn of(
        alloc: Global,
        divider: Divider,
        terminal: &Terminal<'_>,
    ) -> Result<NamedTerminal, NoMemory>
        ensures { IfOk result (λ own. terminal_seen own ≡ terminal_for divider (view_terminal terminal.now)) }
    {
        let port = NamedPort::of(alloc, divider, &terminal.port)?;
        let condition = words_of(alloc, &terminal.condition)?;
        Ok(NamedTerminal {
            port,
            edge: terminal.edge,
            condition,
        })
    }

    /// Whether it is that of an event of a timing check of a scope, where the event's condition is spelled at a place of the circuit's table.
    pub fn fits(
        &self,
        places: &Places<'_>,
        scope: u32,
        event: &Event,
        written: Option<usize>,
    ) -> bool
        requires places { ArePlaces places.now }
        requires scope { scope < length places.now.parts.now.scopes.items }
        requires written { IfSome written (λ place. place < length places.now.parts.now.conditions.items) }
        ensures { result ≡ event_fits (circuit_seen places.now.parts.now) scope (terminal_seen self.now) event.now (text_at places.now.parts.now.conditions.items written) }
    {
        self.port.is_own(places, scope, Role::Any, event.net)
            && fits_edge(self.edge, event.edge)
            && fits_words(&self.condition, &places.parts.conditions, written)
    }
}

/// The terminals of the reference event and of the data event as an entry names them.
#[derive(Debug, Drop)]
pub struct Terminals {
    pub refer: NamedTerminal,
    pub datum: Option<NamedTerminal>,
}

impl Terminals {
    // Of a check of two.
    fn of_both(
        alloc: Global,
        divider: Divider,
        refer: &Terminal<'_>,
        datum: &Terminal<'_>,
    ) -> Result<Terminals, NoMemory>
        ensures { IfOk result (λ own. terminals_seen own ≡ terminals_with divider (view_terminal refer.now) (Some (view_terminal datum.now))) }
    {
        let named_refer = NamedTerminal::of(alloc, divider, refer)?;
        let named_datum = NamedTerminal::of(alloc, divider, datum)?;
        Ok(Terminals {
            refer: named_refer,
            datum: Some(named_datum),
        })
    }

    // Of a check of one.
    fn of_one(alloc: Global, divider: Divider, refer: &Terminal<'_>) -> Result<Terminals, NoMemory>
        ensures { IfOk result (λ own. terminals_seen own ≡ terminals_with divider (view_terminal refer.now) None) }
    {
        let named_refer = NamedTerminal::of(alloc, divider, refer)?;
        Ok(Terminals {
            refer: named_refer,
            datum: None,
        })
    }

    // Of a check of two with one limit: of setup and hold the data stands first.
    fn of_pair(
        alloc: Global,
        divider: Divider,
        check: PairCheck,
        first: &Terminal<'_>,
        second: &Terminal<'_>,
    ) -> Result<Terminals, NoMemory>
        ensures { IfOk result (λ own. (limit : Triple) → terminals_seen own ≡ terminals_for divider (pair_check check (view_terminal first.now) (view_terminal second.now) limit)) }
    {
        match check {
            PairCheck::Setup | PairCheck::Hold => {
                Terminals::of_both(alloc, divider, second, first)
            }
            PairCheck::Recovery | PairCheck::Removal | PairCheck::Skew => {
                Terminals::of_both(alloc, divider, first, second)
            }
        }
    }

    // Of a check with two limits.
    fn of_window(
        alloc: Global,
        divider: Divider,
        check: WindowCheck,
        first: &Terminal<'_>,
        second: &Terminal<'_>,
    ) -> Result<Terminals, NoMemory>
        ensures { IfOk result (λ own. (l m : Triple) → terminals_seen own ≡ terminals_for divider (window_check check (view_terminal first.now) (view_terminal second.now) l m)) }
    {
        match check {
            WindowCheck::SetupHold => Terminals::of_both(alloc, divider, second, first),
            WindowCheck::RecRem => Terminals::of_both(alloc, divider, first, second),
        }
    }

    /// Of an entry's timing check. Takes memory.
    pub fn of(alloc: Global, divider: Divider, check: &CellCheck<'_>) -> Result<Terminals, NoMemory>
        ensures { IfOk result (λ own. terminals_seen own ≡ terminals_for divider (view_cell_check check.now)) }
    {
        match check {
            CellCheck::Pair {
                check,
                first,
                second,
                ..
            } => Terminals::of_pair(alloc, divider, *check, first, second),
            CellCheck::Window {
                check,
                first,
                second,
                ..
            } => Terminals::of_window(alloc, divider, *check, first, second),
            CellCheck::Single { terminal, .. } => Terminals::of_one(alloc, divider, terminal),
        }
    }
}
