// The parts of timing checks.
ghost use Rattle.std.specs.Prelude.{◌≡◌, ◌∷◌};
ghost use Rattle.std.specs.Option.{option_to_list};
ghost use Rattle.time_checks.specs.Parts.{parts_of};

use crate::Part;
use sg_circuit::CheckKind;

/// The parts of a check, in the order of its limits.
pub fn parts(kind: CheckKind) -> (Part, Option<Part>)
    ensures { parts_of kind ≡ result.0 ∷ option_to_list result.1 }
{
    match kind {
        CheckKind::Setup => (Part::Setup, None),
        CheckKind::Hold => (Part::Hold, None),
        CheckKind::Recovery => (Part::Recovery, None),
        CheckKind::Removal => (Part::Removal, None),
        CheckKind::Skew => (Part::Skew, None),
        CheckKind::Setuphold => (Part::Setup, Some(Part::Hold)),
        CheckKind::Recrem => (Part::Recovery, Some(Part::Removal)),
        CheckKind::Width => (Part::Width, None),
        CheckKind::Period => (Part::Period, None),
    }
}
