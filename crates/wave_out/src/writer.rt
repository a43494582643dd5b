// The value change dump of a run, written to a file from time to time.
ghost use Rattle.std.specs.Prelude.{◌≡◌, ◌≤◌, ◌∷◌, [], None, Some, IfOk, OnErr, length};
ghost use Rattle.sg_io.specs.Faults.{Cause, NamesFault};
ghost use Rattle.sg_io.specs.Files.{BothTell};
ghost use Rattle.wave_out.specs.Files.{Leaves, LeavesWanting};
ghost use Rattle.wave_out.specs.Vcd.{header};

use crate::header::header_of;
use crate::scopes::visits_of;
use crate::shown::{Shown, make_text, shown_of};
use cond_expr::Nets;
use sg_circuit::Circuit;
use sg_io::{Shelf, ShelfError};
use sim_times::Watch;
use std::alloc::Global;
use std::marker::Model;
use time_checks::Change;

/// Writes the value change dump of a circuit's run to a file of a shelf (IEEE 1364-2005, 18). It is a watcher of the run.
///
/// A time that is written takes one call to append, and its cost is in proportion to the nets that changed, and to the
/// groups of 4096 variables.
#[derive(Drop)]
pub struct VcdWriter<'a> {
    circuit: &'a Circuit,
    name: &'a str,
    shown: Shown,
    // the text of a call, while it is served
    text: Vec<u8>,
    // the time that was written last
    last: Option<u64>,
}

impl<'a> Model for VcdWriter<'a> {
    ghost use Rattle.std.specs.Coded.{codes, coded_ℕ};
    ghost use Rattle.cond_expr.specs.Codes.{coded_cond};
    ghost use Rattle.wave_out.specs.Shown.{IsShown};
    ghost use Rattle.wave_out.specs.Writing.{Writer};

    ghost Value = { Writer };

    ghost coded = { Prim.hlevel (codes, coded_cond coded_ℕ) };

    ghost view = { λ w. record { name = w.name.now; circuit = w.circuit.now; last = w.last } };

    ghost invariant = { λ w. IsShown w.circuit.now w.shown };
}

impl<'a> VcdWriter<'a> {
    ghost use Rattle.sim_times.specs.Watching.{call_of};
    ghost use Rattle.wave_out.specs.Files.{KeepsOthers};
    ghost use Rattle.wave_out.specs.Writing.{LeavesText};

    /// A writer that has written the header to a new file of this name, by one call to append. Without it the file is as
    /// before, or holds the first bytes of the header; for want of memory it is as before, or empty.
    pub fn new<S: Shelf>(
        alloc: Global,
        circuit: &'a Circuit,
        name: &'a str,
        shelf: &mut S,
    ) -> Result<VcdWriter<'a>, ShelfError>
        ensures writer { IfOk result (λ w. w ≡ record { name = name.now; circuit = circuit.now; last = None }) }
        ensures file { BothTell (S.files shelf.old) (S.files shelf.new) (Leaves name.now (header circuit.now) result) }
        ensures wanting { BothTell (S.files shelf.old) (S.files shelf.new) (LeavesWanting name.now result) }
        ensures cause { Cause (S.fault_count shelf.old) (S.fault_count shelf.new) result }
        ensures named { NamesFault name.now (S.last_fault shelf.old) (S.last_fault shelf.new) result }
    {
        let order = visits_of(alloc, circuit)?;
        let header = header_of(alloc, circuit, &order)?;
        let shown = shown_of(alloc, circuit, &order)?;
        shelf.create(name)?;
        shelf.append(name, &header)?;
        Ok(VcdWriter {
            circuit,
            name,
            shown,
            text: Vec::new(alloc),
            last: None,
        })
    }

    // Adds the text of a call, if it has one, by one call to append.
    fn add<S: Shelf, N: Nets>(
        &mut self,
        shelf: &mut S,
        time: u64,
        changed: &[Change],
        nets: &N,
    ) -> Result<(), ShelfError>
        requires nets { length self.old.circuit.nets ≤ length (N.values nets.now) }
        ensures text { LeavesText (call_of time changed.now (N.values nets.now)) self.old self.new (S.files shelf.old) (S.files shelf.new) result }
        ensures kept { KeepsOthers self.old.name (S.files shelf.old) (S.files shelf.new) }
        ensures name { self.new.name ≡ self.old.name }
        ensures circuit { self.new.circuit ≡ self.old.circuit }
        ensures cause { Cause (S.fault_count shelf.old) (S.fault_count shelf.new) result }
        ensures named { NamesFault self.old.name (S.last_fault shelf.old) (S.last_fault shelf.new) result }
    {
        let some = make_text(
            &mut self.text,
            self.circuit,
            &mut self.shown,
            self.last,
            time,
            changed,
            nets,
        )?;
        if !some {
            return Ok(());
        }
        shelf.append(self.name, &self.text)?;
        self.last = Some(time);
        Ok(())
    }
}

/// Writes what the value change dump of a circuit's run has behind a time to a file of its own. It is a watcher of the run
/// from there on.
#[derive(Drop)]
pub struct RestWriter<'a> {
    writer: VcdWriter<'a>,
}

impl<'a> Model for RestWriter<'a> {
    ghost use Rattle.std.specs.Coded.{codes, coded_ℕ};
    ghost use Rattle.cond_expr.specs.Codes.{coded_cond};
    ghost use Rattle.wave_out.specs.Writing.{Writer};

    ghost Value = { Writer };

    ghost coded = { Prim.hlevel (codes, coded_cond coded_ℕ) };

    ghost view = { λ w. w.writer };
}

impl<'a> RestWriter<'a> {
    ghost use Rattle.sim_times.specs.Watching.{Call};
    ghost use Rattle.wave_out.specs.Writing.{HoldsRest};

    /// A writer that has made a new file of this name, for what comes after a time, in ticks, up to which another file was
    /// written. Its first call, which tells of that time, was made to the writer of that one. After a refusal the files are
    /// as before.
    pub fn new<S: Shelf>(
        alloc: Global,
        circuit: &'a Circuit,
        name: &'a str,
        shelf: &mut S,
        time: u64,
    ) -> Result<RestWriter<'a>, ShelfError>
        ensures writer { IfOk result (λ w. w ≡ record { name = name.now; circuit = circuit.now; last = Some time }) }
        ensures file { BothTell (S.files shelf.old) (S.files shelf.new) (Leaves name.now [] result) }
        ensures refused { OnErr result (S.files shelf.new ≡ S.files shelf.old) }
        ensures stands { IfOk result (λ w. (first : Call) → first.time ≡ time → HoldsRest w (S.files shelf.new) (first ∷ [])) }
        ensures cause { Cause (S.fault_count shelf.old) (S.fault_count shelf.new) result }
        ensures named { NamesFault name.now (S.last_fault shelf.old) (S.last_fault shelf.new) result }
    {
        let order = visits_of(alloc, circuit)?;
        let shown = shown_of(alloc, circuit, &order)?;
        shelf.create(name)?;
        Ok(RestWriter {
            writer: VcdWriter {
                circuit,
                name,
                shown,
                text: Vec::new(alloc),
                last: Some(time),
            },
        })
    }
}

impl<S: Shelf> Watch<S> for VcdWriter<'_> {
    ghost use Rattle.wave_out.specs.Files.{FileBegins, KeepsOthers, others_same, others_then};
    ghost use Rattle.wave_out.specs.Writing.{Holds, text_after};

    ghost name = { λ w. w.name };

    ghost circuit = { λ w. w.circuit };

    ghost stands = { λ w s calls. Holds w (S.files s) calls };

    ghost broken = { λ w s calls. FileBegins w.name (text_after w.circuit calls) (S.files s) };

    ghost keeps = { λ w a b. KeepsOthers w.name (S.files a) (S.files b) };

    ghost keeps_same = { λ w s. others_same w.name (S.files s) };

    ghost keeps_on = { λ w a b c p q. others_then w.name (S.files a) (S.files b) (S.files c) p q };

    fn time<N: Nets>(
        &mut self,
        shelf: &mut S,
        time: u64,
        changed: &[Change],
        nets: &N,
    ) -> Result<(), ShelfError> {
        self.add(shelf, time, changed, nets)
    }
}

impl<S: Shelf> Watch<S> for RestWriter<'_> {
    ghost use Rattle.wave_out.specs.Files.{KeepsOthers, others_same, others_then};
    ghost use Rattle.wave_out.specs.Writing.{BeginsRest, HoldsRest};

    ghost name = { λ w. w.name };

    ghost circuit = { λ w. w.circuit };

    ghost stands = { λ w s calls. HoldsRest w (S.files s) calls };

    ghost broken = { λ w s calls. BeginsRest w (S.files s) calls };

    ghost keeps = { λ w a b. KeepsOthers w.name (S.files a) (S.files b) };

    ghost keeps_same = { λ w s. others_same w.name (S.files s) };

    ghost keeps_on = { λ w a b c p q. others_then w.name (S.files a) (S.files b) (S.files c) p q };

    fn time<N: Nets>(
        &mut self,
        shelf: &mut S,
        time: u64,
        changed: &[Change],
        nets: &N,
    ) -> Result<(), ShelfError> {
        self.writer.add(shelf, time, changed, nets)
    }
}
