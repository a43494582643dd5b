// Who is told of the times of a run.
ghost use Rattle.std.specs.Prelude.{◌≡◌, ℕ, ◌<◌, ◌≤◌, All, List, [], ◌∷◌, ◌++◌, OnErr, OnOk, length};
ghost use Rattle.sg_circuit.specs.Circuit.{Circuit};
ghost use Rattle.sg_io.specs.Faults.{Cause, NamesFault};
ghost use Rattle.sim_times.specs.Watching.{AreTruthful, Call, IsNextCall, call_of};

use cond_expr::Nets;
use sg_io::{Shelf, ShelfError};
use time_checks::Change;

/// Is told of times, and may write to a shelf.
///
/// A watcher and the shelf that it is given stand for lists of calls. A list is truthful where each call tells exactly
/// the nets whose values differ from those of the call before. Each call continues a truthful list: after an Ok of `time`
/// watcher and shelf stand for each list that they stood for before and that the call continues truthfully, with the
/// call added; after a refusal they are broken at each.
pub trait Watch<S: Shelf> {
    /// Its name, which is that of the file that it writes.
    ghost name: { Self → List ℕ };

    /// The circuit of whose run it is told.
    ghost circuit: { Self → Circuit };

    /// It and the shelf stand for this list of calls.
    ghost stands: { Self → S → List Call → Type 0 };

    /// It and the shelf broke in the last call of this list.
    ghost broken: { Self → S → List Call → Type 0 };

    /// What every call keeps between the shelf before and the shelf after.
    ghost keeps: { Self → S → S → Type 0 };

    /// Is told of a time, in ticks: exactly the nets that changed since the call before, in any order, and the values of
    /// all. The first call may tell any nets.
    ///
    /// `Failed` only where the shelf's count of faults rose; every other answer leaves it.
    fn time<N: Nets>(
        &mut self,
        shelf: &mut S,
        time: u64,
        changed: &[Change],
        nets: &N,
    ) -> Result<(), ShelfError>
        requires nets { length (circuit self.old).nets ≤ length (N.values nets.now) }
        requires changed { All (λ c. c.net < length (N.values nets.now)) changed.now }
        requires next { IsNextCall (stands self.old shelf.old) (call_of time changed.now (N.values nets.now)) }
        ensures ok { OnOk result ((calls : List Call) → stands self.old shelf.old calls → AreTruthful (calls ++ call_of time changed.now (N.values nets.now) ∷ []) → stands self.new shelf.new (calls ++ call_of time changed.now (N.values nets.now) ∷ [])) }
        ensures err { OnErr result ((calls : List Call) → stands self.old shelf.old calls → AreTruthful (calls ++ call_of time changed.now (N.values nets.now) ∷ []) → broken self.new shelf.new (calls ++ call_of time changed.now (N.values nets.now) ∷ [])) }
        ensures cause { Cause (S.fault_count shelf.old) (S.fault_count shelf.new) result }
        ensures named { NamesFault (name self.old) (S.last_fault shelf.old) (S.last_fault shelf.new) result }
        ensures name { name self.new ≡ name self.old }
        ensures circuit { circuit self.new ≡ circuit self.old }
        ensures kept { (a b : S) → keeps self.old a b → keeps self.new a b }
        ensures kept_back { (a b : S) → keeps self.new a b → keeps self.old a b }
        ensures keeps { keeps self.old shelf.old shelf.new };

    /// A shelf that stayed is kept.
    ghost keeps_same: { (w : Self) (s : S) → keeps w s s };

    /// What is kept goes through several steps.
    ghost keeps_on: { (w : Self) (a b c : S) → keeps w a b → keeps w b c → keeps w a c };
}

/// Does nothing, and is broken by nothing.
#[derive(Drop)]
pub struct Quiet;

impl<S: Shelf> Watch<S> for Quiet {
    ghost use Rattle.std.specs.Prelude.{◌≡◌, [], refl};
    ghost use Rattle.std.proofs.Common.{◌∙◌};
    ghost use Rattle.sim_times.specs.Watching.{no_circuit};

    ghost name = { λ w. [] };

    ghost circuit = { λ w. no_circuit };

    ghost stands = { λ w s calls. Unit {0} };

    ghost broken = { λ w s calls. ⊥ };

    ghost keeps = { λ w a b. b ≡ a };

    ghost keeps_same = { λ w s. refl };

    ghost keeps_on = { λ w a b c p q. q ∙ p };

    fn time<N: Nets>(&mut self, _: &mut S, _: u64, _: &[Change], _: &N) -> Result<(), ShelfError> {
        Ok(())
    }
}
