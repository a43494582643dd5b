// The module that stands ready at a place of the definitions.
ghost use Rattle.std.specs.Prelude.{◌≡◌, Some, option_map, slice_get};
ghost use Rattle.elab_modules.specs.Finding.{module_in, module_at};
ghost use Rattle.elab_modules.specs.declared.library.Ready.TheVariants as ghost_ready;
ghost use Rattle.elab_modules.specs.declared.prepared.Prepared as ghost_prepared;

use crate::{Library, Prepared, Ready};

fn module_in<'l, 't, 'a>(part: &'l Option<Ready<'t, 'a>>) -> Option<&'l Prepared<'t, 'a>>
    ensures { option_map (λ p. p.now) result ≡ module_in part.now }
{
    match part {
        Some(Ready::Module(prepared)) => Some(prepared),
        Some(Ready::Primitive(_)) | None => None,
    }
}

/// The module at a place of the definitions, if one stands ready there.
pub fn find_module<'l, 't, 'a>(
    library: &'l Library<'t, 'a>,
    definition: usize,
) -> Option<&'l Prepared<'t, 'a>>
    ensures { option_map (λ p. p.now) result ≡ module_at (slice_get library.now.parts.items definition) }
{
    module_in(library.parts.get(definition)?)
}

/// The module at a place of the definitions, which stands ready there.
pub fn module_at<'l, 't, 'a>(
    library: &'l Library<'t, 'a>,
    definition: usize,
) -> &'l Prepared<'t, 'a>
    requires { (q : ghost_prepared.Prepared) × (slice_get library.now.parts.items definition ≡ Some (Some (ghost_ready.Module q))) }
    ensures { slice_get library.now.parts.items definition ≡ Some (Some (ghost_ready.Module result.now)) }
{
    match &library.parts[definition] {
        Some(Ready::Module(prepared)) => prepared,
        _ => unreachable!(),
    }
}
