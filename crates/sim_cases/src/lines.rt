// A watcher that writes a line for each call.
use cond_expr::Nets;
use sg_circuit::Net;
use sg_io::{Shelf, ShelfError};
use sg_logic::Value;
use sim_times::Watch;
use std::alloc::AllocError;
use time_checks::Change;

/// The lines of the calls so far. Nets are shown in order, each by its number and its name.
#[derive(Drop)]
pub struct Lines<'a> {
    pub nets: &'a [Net],
    pub text: String,
}

fn letter(value: Value) -> &'static str {
    match value {
        Value::Zero => "0",
        Value::One => "1",
        Value::X => "x",
        Value::Z => "z",
    }
}

impl Lines<'_> {
    fn tell(&mut self, time: u64, changed: &[Change]) -> Result<(), AllocError> {
        write!(self.text, "{time}")?;
        for (number, net) in self.nets.iter().enumerate() {
            if let Some(change) = changed.iter().find(|c| c.net as usize == number) {
                let name = std::str::from_utf8(net.name.bytes()).unwrap_or("?");
                let from = letter(change.from);
                let to = letter(change.to);
                write!(self.text, " {number}.{name}:{from}{to}")?;
            }
        }
        self.text.push('\n')
    }
}

impl<S: Shelf> Watch<S> for Lines<'_> {
    ghost use Rattle.std.specs.Prelude.{◌≡◌, [], refl};
    ghost use Rattle.std.proofs.Common.{◌∙◌};
    ghost use Rattle.sim_times.specs.Watching.{no_circuit};

    ghost name = { λ w. [] };

    ghost circuit = { λ w. no_circuit };

    ghost stands = { λ w s calls. Unit {0} };

    ghost broken = { λ w s calls. Unit {0} };

    ghost keeps = { λ w a b. b ≡ a };

    ghost keeps_same = { λ w s. refl };

    ghost keeps_on = { λ w a b c p q. q ∙ p };

    fn time<N: Nets>(
        &mut self,
        _: &mut S,
        time: u64,
        changed: &[Change],
        _: &N,
    ) -> Result<(), ShelfError> {
        match self.tell(time, changed) {
            Ok(()) => Ok(()),
            Err(_) => Err(ShelfError::NoMemory),
        }
    }
}
