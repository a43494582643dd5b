// SDF files, each with the changes by which it is taken.
ghost use Rattle.std.specs.Prelude.{◌≡◌, [], IfOk, OnOk, map};
ghost use Rattle.vl_lex.specs.Seen.{texts};
ghost use Rattle.vl_token.specs.Seen.{lexeme};
ghost use Rattle.fit_inside.specs.Inside.{IsAccepted};
ghost use Rattle.fit_sdf.specs.Counts.{count_seen};
ghost use Rattle.fit_top.specs.Texts.{AddsSdf, AreFitted, HaveTree};
ghost use Rattle.fit_top.specs.Work.{input_seen};

use crate::inputs::Input;
use crate::lines::push_fault;
use fit_changes::{Changes, Line};
use fit_inside::end_of;
use fit_sdf::{Count, SdfUnfit, add_counts, fit_sdf};
use sg_text::{NoMemory, Refused};
use std::alloc::Global;
use vl_lex::lex;
use vl_parse::parse;
use vl_token::Token;
use vl_tree::Source;

/// SDF files with their changes, how many of their entries find a place in the netlist, word by word, and what is told of
/// those that aren't taken, whose changes aren't among these.
#[derive(Drop)]
pub struct SdfFiles<'a> {
    pub list: Vec<Changes<'a>>,
    pub counts: Vec<Count>,
    pub faults: Vec<u8>,
}

// The tokens of a netlist that is taken.
fn tokens_of(alloc: Global, files: &[Vec<u8>]) -> Result<Vec<Token<'_>>, NoMemory>
    requires { IsAccepted (texts files.now) }
    ensures { IfOk result (λ tokens. HaveTree (map lexeme tokens.items)) }
{
    match lex(alloc, files) {
        Ok(tokens) => Ok(tokens),
        Err(Refused::NoMemory) => Err(NoMemory),
        Err(Refused::Fault { .. }) => unreachable!(),
    }
}

// Their tree.
fn tree_of<'a>(
    alloc: Global,
    files: &[Vec<u8>],
    tokens: &[Token<'a>],
) -> Result<Source<'a>, NoMemory>
    requires { HaveTree (map lexeme tokens.now) }
{
    match parse(alloc, tokens, end_of(files)) {
        Ok(tree) => Ok(tree),
        Err(Refused::NoMemory) => Err(NoMemory),
        Err(Refused::Fault { .. }) => unreachable!(),
    }
}

// Adds an SDF file with its changes, or what is told of it.
fn add_file<'a>(
    alloc: Global,
    input: &'a Input<'_>,
    netlist: &Source<'_>,
    top: Option<&[u8]>,
    lines: &[Line],
    files: &mut SdfFiles<'a>,
) -> Result<(), NoMemory>
    ensures { OnOk result (AddsSdf (input_seen input.now) files.old.list.items files.new.list.items files.old.faults.items files.new.faults.items) }
{
    match fit_sdf(alloc, &input.text, netlist, top, lines) {
        Ok(fitted) => {
            // (the changes are in order)
            let _text = fitted.changes.text();
            add_counts(&mut files.counts, &fitted.counts)?;
            files.list.push(fitted.changes)?;
            Ok(())
        }
        Err(SdfUnfit::Fault { kind, line }) => {
            push_fault(&mut files.faults, input.name, line, kind)
        }
        Err(SdfUnfit::NoMemory) => Err(NoMemory),
    }
}

fn no_files<'a>(alloc: Global) -> SdfFiles<'a>
    ensures list { result.list.items ≡ [] }
    ensures counts { result.counts.items ≡ [] }
    ensures faults { result.faults.items ≡ [] }
{
    SdfFiles {
        list: Vec::new(alloc),
        counts: Vec::new(alloc),
        faults: Vec::new(alloc),
    }
}

fn fit_each<'a>(
    alloc: Global,
    inputs: &'a [Input<'_>],
    netlist: &Source<'_>,
    top: Option<&[u8]>,
    lines: &[Line],
) -> Result<SdfFiles<'a>, NoMemory>
    ensures { IfOk result (λ r. AreFitted (map input_seen inputs.now) r.list.items r.faults.items) }
{
    let mut files = no_files(alloc);
    for input in inputs {
        add_file(alloc, input, netlist, top, lines, &mut files)?;
    }
    Ok(files)
}

fn bytes_of(name: Option<&str>) -> Option<&[u8]> {
    match name {
        Some(name) => Some(name.as_bytes()),
        None => None,
    }
}

// The same, beside the netlist's tree.
fn fit_beside<'a>(
    alloc: Global,
    netlist: &[Vec<u8>],
    lines: &[Line],
    inputs: &'a [Input<'_>],
    top: Option<&str>,
) -> Result<SdfFiles<'a>, NoMemory>
    requires { IsAccepted (texts netlist.now) }
    ensures { IfOk result (λ r. AreFitted (map input_seen inputs.now) r.list.items r.faults.items) }
{
    let tokens = tokens_of(alloc, netlist)?;
    let tree = tree_of(alloc, netlist, &tokens)?;
    fit_each(alloc, inputs, &tree, bytes_of(top), lines)
}

/// SDF files with the changes by which each is taken and its entries find their places below the top of the netlist, which is
/// read only where there is such a file; and what is told of those that aren't taken.
pub fn fit_files<'a>(
    alloc: Global,
    netlist: &[Vec<u8>],
    lines: &[Line],
    inputs: &'a [Input<'_>],
    top: Option<&str>,
) -> Result<SdfFiles<'a>, NoMemory>
    requires { IsAccepted (texts netlist.now) }
    ensures fitted { IfOk result (λ r. AreFitted (map input_seen inputs.now) r.list.items r.faults.items) }
    ensures counted { IfOk result (λ r. map input_seen inputs.now ≡ [] → map count_seen r.counts.items ≡ []) }
{
    if inputs.len() == 0 {
        return Ok(no_files(alloc));
    }
    fit_beside(alloc, netlist, lines, inputs, top)
}
