// A file that is read entry by entry, and of which no more is kept than the tokens at hand.
ghost use Rattle.std.specs.Prelude.{◌≡◌, ℕ, IfSome, List, map};
ghost use Rattle.grammar.specs.Reading.{Gives};
ghost use Rattle.grammar.specs.Rule.{◌◂◌, ◌▸◌};
ghost use Rattle.sdf_lex.specs.Seen.{lexeme};
ghost use Rattle.sdf_tree.specs.Files as files;
ghost use Rattle.sdf_tree.specs.Kinds as kinds;
ghost use Rattle.sdf_tree.specs.Rules as rules;
ghost use Rattle.sdf_tree.specs.Seen.{view_head, view_instance};
ghost use Rattle.sdf_stream.specs.Streams.{EndsText, IsBegun, IsHead, IsOpened, IsTellable, with_head};
ghost use Rattle.sdf_stream.specs.Scans.{IsCell};
ghost use Rattle.sdf_stream.specs.Windows.{IsNext};

use crate::lexing::{all_of, begins, close, more, opens};
use crate::scans::{is_fine, scan_parts};
use crate::visits::Visit;
use crate::window::Window;
use grammar::ReadFault;
use sdf_lex::Token;
use sdf_read::{cell_type, head, head_stands, instance};
use sdf_terms::tokens::{left, right};
use sdf_tree::{Cell, Divider, Instance, Keyword, WrittenFilePart, WrittenHead};
use sg_time::Unit;
use std::alloc::Global;

const LARGEST: usize = 1 << 28;

const NANOSECOND: Unit = Unit { power: -9 };

/// A file behind its heads: the unit of its values, what joins the names of its paths, and whether cells come.
#[derive(Drop)]
pub struct Stream<'a> {
    pub unit: Unit,
    pub divider: Divider,
    more: bool,
    window: Window<'a>,
}

// The parenthesis and the word that a file begins with.
fn begin(alloc: Global, text: &[u8]) -> Option<Window<'_>>
    ensures { IfSome result (IsBegun text.now) }
{
    if text.len() > LARGEST {
        return None;
    }
    let tokens = Vec::new(alloc);
    let mut window = Window {
        at: 0,
        rest: text,
        depth: 0,
        tokens,
    };
    if !opens(&mut window)? {
        return None;
    }
    if begins(&window.tokens, Keyword::DelayFile) {
        Some(window)
    } else {
        None
    }
}

/// `"(" head ")"`
fn closed_head<'a>(tokens: &[Token<'a>]) -> Result<(WrittenHead<'a>, usize), ReadFault>
    ensures { Gives (λ x. (view_head x.0, x.1)) result ((rules.mark kinds.is_left ▸ (files.head ◂ rules.mark kinds.is_right)).read (map lexeme tokens.now) 0) }
{
    let next = left(tokens, 0)?;
    let (head, next) = head(tokens, next)?;
    let next = right(tokens, next)?;
    Ok((head, next))
}

// The head that the tokens at hand begin.
fn scan_head<'a>(window: &mut Window<'a>) -> Option<WrittenHead<'a>>
    ensures { IfSome result (λ head. IsHead window.old window.new (view_head head)) }
{
    close(window)?;
    let head = all_of(closed_head(&window.tokens), window.tokens.len())?;
    if is_fine(&WrittenFilePart::Head(head)) {
        Some(head)
    } else {
        None
    }
}

fn with_head(unit: Unit, divider: Divider, head: WrittenHead<'_>) -> (Unit, Divider)
    ensures { (result.0.power, result.1) ≡ with_head unit.power divider (view_head head.entry) }
{
    match head {
        WrittenHead::Divider(divider) => (unit, divider),
        WrittenHead::TimeScale(unit) => (unit, divider),
        WrittenHead::Text => (unit, divider),
        WrittenHead::Value(_) => (unit, divider),
    }
}

/// A file up to its first cell. None where it has a fault so far, or memory is wanting.
pub fn open_sdf(alloc: Global, text: &[u8]) -> Option<Stream<'_>>
    ensures { IfSome result (IsOpened text.now) }
{
    let mut window = begin(alloc, text)?;
    let mut said = (NANOSECOND, Divider::Point);
    let mut more = opens(&mut window)?;
    'more: while more && head_stands(&window.tokens, 1) {
        let head = scan_head(&mut window)?;
        said = with_head(said.0, said.1, head);
        more = opens(&mut window)?;
    }
    let (unit, divider) = said;
    Some(Stream {
        unit,
        divider,
        more,
        window,
    })
}

fn scan_type<'a>(window: &mut Window<'a>) -> Option<&'a [u8]>
    ensures { IfSome result (λ text. IsNext files.cell_type window.old window.new text.now) }
{
    if !opens(window)? {
        return None;
    }
    close(window)?;
    all_of(cell_type(&window.tokens, 0), window.tokens.len())
}

fn scan_instance<'a>(window: &mut Window<'a>, divider: Divider) -> Option<Instance<'a>>
    ensures { IfSome result (λ found. IsNext (files.instance divider) window.old window.new (view_instance found)) }
{
    if !opens(window)? {
        return None;
    }
    close(window)?;
    all_of(instance(&window.tokens, 0, divider), window.tokens.len())
}

// The cell that the tokens at hand begin.
fn scan_cell<V: Visit>(
    alloc: Global,
    window: &mut Window<'_>,
    divider: Divider,
    visitor: &mut V,
) -> Option<()>
    requires { V.ready visitor.old }
    ensures ready { IfSome result (λ _. V.ready visitor.new) }
    ensures scanned { IfSome result (λ _. IsCell divider (V.came visitor.old visitor.new) window.old window.new) }
{
    if !begins(&window.tokens, Keyword::Cell) {
        return None;
    }
    let cell_type = scan_type(window)?;
    let instance = scan_instance(window, divider)?;
    let entries = Vec::new(alloc);
    let cell = Cell {
        cell_type,
        instance,
        entries,
    };
    visitor.cell(alloc, &cell)?;
    scan_parts(alloc, window, divider, &cell, visitor)
}

// No token is left.
fn finish(window: &mut Window<'_>) -> Option<()>
    ensures { IfSome result (λ _. EndsText window.old) }
{
    window.tokens.clear();
    if more(window)? { None } else { Some(()) }
}

impl Stream<'_> {
    /// Tells of all cells and entries of the file. None where it has a fault, memory is wanting, or the visitor stops.
    pub fn tell<V: Visit>(self, alloc: Global, visitor: &mut V) -> Option<()>
        requires { V.ready visitor.old }
        ensures { (text : List ℕ) → IsOpened text self.entry → IfSome result (λ _. IsTellable text self.entry.unit.power self.entry.divider (V.came visitor.old visitor.new)) }
    {
        let divider = self.divider;
        let mut more = self.more;
        let mut window = self.window;
        'more: while more {
            scan_cell(alloc, &mut window, divider, visitor)?;
            more = opens(&mut window)?;
        }
        finish(&mut window)
    }
}
