// Changes by which a netlist is taken.
ghost use Rattle.std.specs.Prelude.{◌≡◌, true, IfErr, IfOk, Ok, map, option_map};
ghost use Rattle.vl_lex.specs.Seen.{texts};
ghost use Rattle.fit_changes.specs.Lines.{line_seen};
ghost use Rattle.fit_inside.specs.Inside.{IsInside};
ghost use Rattle.fit_netlist.specs.Fitted.{IsFitted, LeavesAll, Tells};
ghost use Rattle.fit_netlist.specs.Phases.{AreMade, IsMadeOf};
ghost use Rattle.fit_netlist.specs.Stages.{asks_nothing, wishes_nothing};

use crate::changing::{unchanged, write_all};
use crate::checking::check;
use crate::faults::FitError;
use crate::reading::read_tokens;
use crate::refusing::bytes_of;
use crate::rounds::{expand_round, rule_round, shape_round};
use fit_changes::{Line, sort_lines};
use fit_inside::is_inside;
use fit_items::Wishes;
use fit_parts::headings;
use fit_text::Given;
use sg_text::NoMemory;
use std::alloc::Global;

/// A netlist as it is to be written: the texts of its files, and a line for each change of them, in the order of files
/// and lines.
#[derive(Drop)]
pub struct Fitted {
    pub texts: Vec<Vec<u8>>,
    pub lines: Vec<Line>,
}

// How many rounds of the rules there are: each time a part is left out others may have lost what they need, and what one
// round makes may be what the next one changes.
const TURNS: usize = 8;

fn wishes_nothing(wishes: &Wishes<'_>) -> bool
    ensures { result ≡ wishes_nothing wishes.now }
{
    wishes.supply0.is_empty()
        && wishes.supply1.is_empty()
        && wishes.cut.is_empty()
        && wishes.drop.is_empty()
        && !wishes.drop_missing
        && wishes.no_checks.is_empty()
        && wishes.no_notifier.is_empty()
}

fn asks_nothing(given: &Given<'_>, wishes: &Wishes<'_>) -> bool
    ensures { result ≡ asks_nothing given.now wishes.now }
{
    given.defines.is_empty() && wishes_nothing(wishes)
}

// Whether the files stay: no option asks for a change, and no rule concerns them.
fn stays(
    alloc: Global,
    files: &[Vec<u8>],
    given: &Given<'_>,
    wishes: &Wishes<'_>,
) -> Result<bool, NoMemory>
    ensures inside { IfOk result (λ stays. stays ≡ true → IsInside (texts files.now)) }
    ensures only { asks_nothing given.now wishes.now ≡ true → IsInside (texts files.now) → IfOk result (λ stays. stays ≡ true) }
{
    if !asks_nothing(given, wishes) {
        return Ok(false);
    }
    is_inside(alloc, files)
}

// The files as they stand.
fn as_they_stand(alloc: Global, files: &[Vec<u8>]) -> Result<Fitted, NoMemory>
    ensures { IfOk result (λ f. LeavesAll (texts files.now) (Ok f)) }
{
    let list = unchanged(alloc, files)?;
    let texts = write_all(alloc, &list)?;
    let lines = Vec::new(alloc);
    Ok(Fitted { texts, lines })
}

// The rounds of the rules, till they ask for no more and no part has to be left out.
fn rule_rounds(
    alloc: Global,
    shaped: Vec<Vec<u8>>,
    wishes: &Wishes<'_>,
    lines: &mut Vec<Line>,
) -> Result<Vec<Vec<u8>>, FitError>
    ensures made { IfOk result (λ made. AreMade (texts shaped.items) (texts made.items) (map line_seen lines.old.items) (map line_seen lines.new.items)) }
    ensures refused { IfErr result Tells }
{
    let mut files = shaped;
    for _ in 0..TURNS {
        let (is_last, made) = rule_round(alloc, &files, wishes, lines)?;
        files = made;
        if is_last {
            break;
        }
    }
    Ok(files)
}

// The rounds behind the first, and the check of what they make.
fn fit_expanded(
    alloc: Global,
    expanded: &[Vec<u8>],
    wishes: &Wishes<'_>,
    lines: Vec<Line>,
) -> Result<Fitted, FitError>
    ensures made { IfOk result (λ f. IsMadeOf (option_map (λ n. n.now) wishes.now.top) (texts expanded.now) (map line_seen lines.items) f) }
    ensures refused { IfErr result Tells }
{
    let mut lines = lines;
    let tokens = read_tokens(alloc, expanded)?;
    let headings = headings(alloc, &tokens)?;
    let shaped = shape_round(alloc, expanded, &tokens, wishes, &mut lines)?;
    drop(tokens);
    let texts = rule_rounds(alloc, shaped, wishes, &mut lines)?;
    sort_lines(&mut lines)?;
    check(alloc, &texts, &lines, &headings, bytes_of(wishes.top))?;
    Ok(Fitted { texts, lines })
}

/// Changes of the files of a netlist, which are read one after another, with which they are taken: they have tokens, and
/// these spell modules and primitives. They are made in rounds: macros and included files are expanded; cells are
/// flattened, and what the wishes name is cut out or dropped; statements are rewritten; and what isn't below the top and
/// isn't taken is left out. Below it is what is below the one of a name, or else below the only module that may be the
/// top; where none may be, or several, nothing is left out. Refused are all parts below the top that aren't taken with
/// the changes that the rules ask for, each with its place, in order, or the places that another round tells, or the one
/// fault of the text. Takes time and memory in proportion to the texts.
pub fn fit_netlist(
    alloc: Global,
    files: &[Vec<u8>],
    given: &Given<'_>,
    wishes: &Wishes<'_>,
) -> Result<Fitted, FitError>
    // What is written is made of what was read by rounds of changes, of which each has its line; it is taken, and all
    // that is below the top stays.
    ensures fitted { IfOk result (λ f. IsFitted (option_map (λ n. n.now) wishes.now.top) (texts files.now) (texts f.texts.items) (map line_seen f.lines.items)) }
    // Nothing is changed where no rule concerns the files, and no option asks for a change.
    ensures unchanged { asks_nothing given.now wishes.now ≡ true → IsInside (texts files.now) → LeavesAll (texts files.now) result }
    // A refusal names a place.
    ensures refused { IfErr result Tells }
{
    if stays(alloc, files, given, wishes)? {
        return Ok(as_they_stand(alloc, files)?);
    }
    let mut lines = Vec::new(alloc);
    let expanded = expand_round(alloc, files, given, &mut lines)?;
    fit_expanded(alloc, &expanded, wishes, lines)
}
