// Changes with which a file is taken.
ghost use Rattle.std.specs.Prelude.{◌≡◌, IfErr, IfOk, OnOk};
ghost use Rattle.fit_changes.specs.Changes.{changed};
ghost use Rattle.fit_sdf.specs.Fitted.{IsReadable, Refuses, RefusesWith};

use crate::counts::Count;
use crate::files::{Asked, asked_of};
use crate::unfit::SdfUnfit;
use fit_changes::{Change, Changes, Line, Rule};
use fit_places::Netlist;
use sdf_lex::lex;
use sdf_read::read_sdf;
use sg_text::{NoMemory, Refused};
use std::alloc::Global;
use vl_tree::Source;

/// An SDF file with changes, and how many of its entries find a place in the netlist, word by word.
#[derive(Drop)]
pub struct FittedSdf<'a> {
    pub changes: Changes<'a>,
    pub counts: Vec<Count>,
}

// The changes that are asked for, but for those that aren't in order.
fn changes_of<'a>(
    alloc: Global,
    text: &'a [u8],
    edits: Vec<Change>,
) -> Result<Changes<'a>, NoMemory>
    ensures { IfOk result (λ changes. changes.text ≡ text.now) }
{
    let mut changes = Changes::new(alloc, text);
    for edit in edits {
        changes.add(edit)?;
    }
    Ok(changes)
}

// The netlist, with a mark at each module of which an `ifnone` was changed.
fn netlist_of<'s, 'v>(
    alloc: Global,
    source: &'s Source<'v>,
    top: Option<&[u8]>,
    lines: &[Line],
) -> Result<Netlist<'s, 'v>, NoMemory> {
    let mut netlist = Netlist::new(alloc, source, top)?;
    for line in lines {
        if line.rule == Rule::IfnoneEdge {
            netlist.mark(&line.part);
        }
    }
    Ok(netlist)
}

// What the rules ask for: nothing in a file that has no tokens.
fn asked(
    alloc: Global,
    text: &[u8],
    source: &Source<'_>,
    top: Option<&[u8]>,
    lines: &[Line],
) -> Result<Asked, NoMemory> {
    match lex(alloc, text) {
        Ok(tokens) => {
            let netlist = netlist_of(alloc, source, top, lines)?;
            asked_of(alloc, text, &tokens, &netlist)
        }
        Err(Refused::Fault { .. }) => Ok(Asked {
            edits: Vec::new(alloc),
            counts: Vec::new(alloc),
        }),
        Err(Refused::NoMemory) => Err(NoMemory),
    }
}

fn check_text(alloc: Global, text: &[u8]) -> Result<(), SdfUnfit>
    ensures read { OnOk result (IsReadable text.now) }
    ensures refused { IfErr result (Refuses text.now) }
{
    match read_sdf(alloc, text) {
        Ok(_sdf) => Ok(()),
        Err(Refused::Fault { kind, place }) => Err(SdfUnfit::Fault {
            kind,
            line: place.line_of(text),
        }),
        Err(Refused::NoMemory) => Err(SdfUnfit::NoMemory),
    }
}

#[tactic(auto, using(crate::proofs::RefusalLaws::refused_with, crate::proofs::RefusalLaws::no_changes))]
fn check(alloc: Global, changes: &Changes<'_>) -> Result<(), SdfUnfit>
    ensures read { OnOk result (IsReadable (changed changes.now.text changes.now.changes)) }
    ensures refused { IfErr result (RefusesWith changes.now.text) }
{
    let text = changes.text();
    if changes.is_empty() {
        return check_text(alloc, text);
    }
    let made = changes.changed(alloc)?;
    check_text(alloc, &made)
}

/// Changes of an SDF file with which it is taken, and its entries find their places in the netlist of a tree: below the top of a name, or
/// else below the only module that may be it. `lines` are those of the netlist's own changes. Takes time and memory in proportion to the file,
/// the tree and these.
pub fn fit_sdf<'a>(
    alloc: Global,
    text: &'a [u8],
    source: &Source<'_>,
    top: Option<&[u8]>,
    lines: &[Line],
) -> Result<FittedSdf<'a>, SdfUnfit>
    // They are changes of the file,
    ensures text { IfOk result (λ f. f.changes.text ≡ text.now) }
    // which is read with them.
    ensures accepted { IfOk result (λ f. IsReadable (changed f.changes.text f.changes.changes)) }
    // A fault is one of the file with some changes.
    ensures refused { IfErr result (RefusesWith text.now) }
{
    let asked = asked(alloc, text, source, top, lines)?;
    let changes = changes_of(alloc, text, asked.edits)?;
    check(alloc, &changes)?;
    Ok(FittedSdf {
        changes,
        counts: asked.counts,
    })
}
