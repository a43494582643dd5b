// The changes that the rules ask for in a netlist.
ghost use Rattle.std.specs.Prelude.{◌≡◌, map};

use crate::exact::exact_of;
use crate::leaving::{left_of, whole_span};
use crate::merging::in_order;
use crate::statements::module_edits;
use fit_cells::{Cells, cells_of};
use fit_changes::{Changes, Rule};
use fit_conditions::condition_edits;
use fit_expressions::{expression_edits, primitives_for};
use fit_items::{Edit, Span, Wishes, add_edits, edit_of, nets_of, part_name, read_module, text_of};
use fit_nets::Supplies;
use fit_parts::part_end;
use fit_values::View;
use sg_text::NoMemory;
use std::alloc::Global;
use vl_token::Token;

// Whether ports of the top are to be supplies.
fn wishes_supplies(wishes: &Wishes<'_>) -> bool {
    !wishes.supply0.is_empty() || !wishes.supply1.is_empty()
}

// Whether a name is that of the top: the one that is named, or else the only one that may be it.
fn is_top(name: &[u8], only: Option<&[u8]>, wishes: &Wishes<'_>) -> bool {
    match (wishes.top, only) {
        (Some(top), _) => top.as_bytes() == name,
        (None, Some(top)) => top == name,
        (None, None) => false,
    }
}

// The supplies among the ports of a module.
fn supplies_of<'w>(is_top: bool, wishes: &Wishes<'w>) -> Supplies<'w> {
    Supplies {
        zeros: if is_top { wishes.supply0 } else { &[] },
        ones: if is_top { wishes.supply1 } else { &[] },
    }
}

fn part_edits<'a>(
    alloc: Global,
    part: &[Token<'a>],
    cells: &Cells<'a>,
    supplies: Supplies<'_>,
    files: &[Changes<'_>],
    edits: &mut Vec<Edit>,
) -> Result<(), NoMemory> {
    let Some(module) = read_module(alloc, part)? else {
        return Ok(());
    };
    let view = View {
        alloc,
        part,
        module: &module,
        files,
    };
    let nets = nets_of(alloc, part, &module)?;
    module_edits(&view, cells, &nets, supplies, edits)?;
    edits.append(&mut condition_edits(alloc, part, &module, files)?)?;
    edits.append(&mut expression_edits(alloc, part, &module, &nets, files)?)?;
    Ok(())
}

fn edits_of(
    alloc: Global,
    tokens: &[Token<'_>],
    wishes: &Wishes<'_>,
    files: &[Changes<'_>],
) -> Result<Vec<Edit>, NoMemory> {
    let cells = cells_of(alloc, tokens)?;
    let only = if wishes_supplies(wishes) {
        cells.only_top()
    } else {
        None
    };
    let mut edits = Vec::new(alloc);
    let mut at = 0;
    while at < tokens.len() {
        let end = part_end(tokens, at);
        let part = &tokens[at..end];
        let supplies = supplies_of(is_top(part_name(part), only, wishes), wishes);
        part_edits(alloc, part, &cells, supplies, files, &mut edits)?;
        at = end;
    }
    Ok(edits)
}

// The edit that puts the primitives of others before all files, if these use some.
fn primitive_edit(
    alloc: Global,
    tokens: &[Token<'_>],
    edits: &[Edit],
) -> Result<Option<Edit>, NoMemory> {
    let text = primitives_for(alloc, tokens, edits)?;
    if text.is_empty() {
        return Ok(None);
    }
    let front = Span {
        file: 0,
        byte: 0,
        end: 0,
    };
    let what = Vec::from_slice(alloc, b"primitives of the gates")?;
    Ok(Some(edit_of(alloc, front, &text, Rule::Expression, b"", what)?))
}

// Whether a change may let the rules ask for more: the width of a net, or a limit of a check, may stand there only now.
fn shows_more(edit: &Edit) -> bool {
    matches!(edit.change.rule, Rule::Arithmetic | Rule::NegativeLimit)
}

// Whether no edit was in the way of another, and none shows what more the rules ask for.
fn are_all(asked: usize, edits: &[Edit]) -> bool {
    edits.len() == asked && !edits.iter().any(|edit| shows_more(edit))
}

/// Adds the changes that the rules ask for in a netlist, with these tokens, to those of its files, which have none yet.
/// Answers whether these are all; otherwise the rules may ask for more in what is made. Takes time and memory in
/// proportion to the tokens.
pub fn change_all(
    alloc: Global,
    tokens: &[Token<'_>],
    files: &mut [Changes<'_>],
    wishes: &Wishes<'_>,
) -> Result<bool, NoMemory>
    ensures { map (λ f. f.text) files.new ≡ map (λ f. f.text) files.old }
{
    let asked = edits_of(alloc, tokens, wishes, files)?;
    let count = asked.len();
    let edits = in_order(alloc, asked)?;
    let are_all = are_all(count, &edits);
    let mut made = exact_of(alloc, edits, files)?;
    if let Some(edit) = primitive_edit(alloc, tokens, &made)? {
        made.insert(0, edit)?;
    }
    add_edits(files, made)?;
    Ok(are_all)
}

// The change that leaves out a part, if it stands in one file.
fn leaving_edit(
    alloc: Global,
    part: &[Token<'_>],
    why: &[u8],
    files: &[Changes<'_>],
) -> Result<Option<Edit>, NoMemory> {
    let Some(span) = whole_span(files, part) else {
        return Ok(None);
    };
    let Some(text) = text_of(files, span) else {
        return Ok(None);
    };
    let left = left_of(alloc, text)?;
    let what = Vec::from_slice(alloc, why)?;
    Ok(Some(edit_of(alloc, span, &left, Rule::Unused, part_name(part), what)?))
}

// Adds a change to those of its file. Answers whether it was in order there.
fn add_edit(files: &mut [Changes<'_>], edit: Edit) -> Result<bool, NoMemory>
    ensures { map (λ f. f.text) files.new ≡ map (λ f. f.text) files.old }
{
    let Edit { file, change } = edit;
    let at = file as usize;
    if at >= files.len() {
        return Ok(false);
    }
    files[at].add(change)
}

/// Adds one change that leaves out a part, and tells why; its line feeds and directives stay. A part that stands in
/// several files isn't left out. Answers whether it was. Takes memory.
pub fn leave_out(
    alloc: Global,
    part: &[Token<'_>],
    why: &[u8],
    files: &mut [Changes<'_>],
) -> Result<bool, NoMemory>
    ensures { map (λ f. f.text) files.new ≡ map (λ f. f.text) files.old }
{
    match leaving_edit(alloc, part, why, files)? {
        Some(edit) => add_edit(files, edit),
        None => Ok(false),
    }
}
