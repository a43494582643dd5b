// Why a netlist is refused, and how a report writes it.
ghost use Rattle.std.specs.Prelude.{◌≡◌, IfOk};
ghost use Rattle.netlist_read.specs.Kinds.{kind_text};
ghost use Rattle.netlist_read.specs.Seen.{kind_seen};
ghost use Rattle.netlist_read.specs.Written.{head, meaning_tail, tail};

use crate::names::{block_name, meaning_head, table_name, text_name};
use elab_model::ElabKind;
use sg_text::NoMemory;
use std::alloc::Global;
use vl_lex::LexKind;
use vl_specify::SpecifyKind;

/// Why the files of a netlist have no circuit.
#[derive(Clone, Copy, Debug, PartialEq)]
pub enum NetlistKind<'a> {
    /// The text or its directives have a fault.
    Text(LexKind),
    /// No rule of the grammar takes the token there.
    Syntax,
    /// The word there is of a construct that is left out.
    Unsupported(&'a [u8]),
    /// A specify block is refused for this.
    Specify(SpecifyKind),
    /// The tree has no circuit.
    Meaning(ElabKind),
}

// The name of a kind, and a blank where more follows.
fn head(kind: NetlistKind<'_>) -> &'static str
    ensures { result.now ≡ head (kind_seen kind.entry) }
{
    match kind {
        NetlistKind::Text(kind) => text_name(kind),
        NetlistKind::Syntax => "Syntax",
        NetlistKind::Unsupported(_) => "Unsupported ",
        NetlistKind::Specify(_) => "Specify ",
        NetlistKind::Meaning(kind) => meaning_head(kind),
    }
}

// The kind of a table's fault.
fn meaning_tail(kind: ElabKind) -> &'static [u8]
    ensures { result.now ≡ meaning_tail kind }
{
    match kind {
        ElabKind::Udp(kind) => table_name(kind).as_bytes(),
        _ => b"",
    }
}

// What follows the name.
fn tail(kind: NetlistKind<'_>) -> &[u8]
    ensures { result.now ≡ tail (kind_seen kind.entry) }
{
    match kind {
        NetlistKind::Unsupported(word) => word,
        NetlistKind::Specify(kind) => block_name(kind).as_bytes(),
        NetlistKind::Meaning(kind) => meaning_tail(kind),
        _ => b"",
    }
}

/// A kind as a report writes it: its name, and behind a blank the word that isn't supported, or the kind of fault of a
/// specify block or of a table.
pub fn write_kind(alloc: Global, kind: &NetlistKind<'_>) -> Result<Vec<u8>, NoMemory>
    ensures { IfOk result (λ text. text.items ≡ kind_text (kind_seen kind.now)) }
{
    let mut text = Vec::from_slice(alloc, head(*kind).as_bytes())?;
    text.extend_from_slice(tail(*kind))?;
    Ok(text)
}
