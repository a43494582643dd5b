// Texts without changes, and with them.
ghost use Rattle.std.specs.Prelude.{◌≡◌, IfOk};
ghost use Rattle.vl_lex.specs.Seen.{texts};
ghost use Rattle.fit_changes.specs.Rounds.{written};
ghost use Rattle.fit_netlist.specs.Phases.{as_read};

use fit_changes::Changes;
use sg_text::NoMemory;
use std::alloc::Global;

/// The files without changes.
pub fn unchanged<'a>(alloc: Global, files: &'a [Vec<u8>]) -> Result<Vec<Changes<'a>>, NoMemory>
    ensures { IfOk result (λ list. list.items ≡ as_read (texts files.now)) }
{
    let mut list = Vec::new(alloc);
    for file in files {
        list.push(Changes::new(alloc, file))?;
    }
    Ok(list)
}

/// The texts with their changes. Takes memory for them.
pub fn write_all(alloc: Global, list: &[Changes<'_>]) -> Result<Vec<Vec<u8>>, NoMemory>
    ensures { IfOk result (λ made. texts made.items ≡ written list.now) }
{
    let mut made = Vec::new(alloc);
    for changes in list {
        made.push(changes.changed(alloc)?)?;
    }
    Ok(made)
}
