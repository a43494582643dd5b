// Refusals.
ghost use Rattle.std.specs.Prelude.{◌≡◌};
ghost use Rattle.sg_text.specs.declared.refusals.Refused.TheVariants as refused;
ghost use Rattle.vcd_stim.specs.Meant.{refusal_of};

use grammar::ReadFault;
use sg_text::{Place, Refused};
use vcd_model::VcdKind;

/// A fault of the word at a byte.
pub fn fault(kind: VcdKind, byte: usize) -> Refused<VcdKind>
    ensures { result ≡ refused.Fault kind (record { file = 0; byte = byte }) }
{
    Refused::Fault {
        kind,
        place: Place {
            file: 0,
            byte: byte as u64,
        },
    }
}

/// A word at which the form fails.
pub fn of_form(fault_read: ReadFault) -> Refused<VcdKind>
    ensures { result ≡ refusal_of fault_read }
{
    match fault_read {
        ReadFault::At(byte) => fault(VcdKind::Syntax, byte),
        ReadFault::Memory => Refused::NoMemory,
    }
}
