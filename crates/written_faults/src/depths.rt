// Conditions that nest too deep.
ghost use Rattle.std.specs.Prelude.{◌≡◌, ◌<◌, ◌≤◌, ◌&&◌, ◌||◌, All, IfOk, IfSome, length};
ghost use Rattle.std.specs.List.{list_any};
ghost use Rattle.annotation_model.specs.Finding.{check_at};
ghost use Rattle.annotation_model.specs.Same.{bare};
ghost use Rattle.sg_circuit.specs.Circuit.{element_at};
ghost use Rattle.sg_circuit.specs.Closed.{IsClosed};
ghost use Rattle.sg_circuit.specs.PathsSeen.{AreIndexedPaths, IsIndexedCondition, paths_seen, spanned};
ghost use Rattle.sg_circuit.specs.Seen.{AreIndexed, IsIndexed, circuit_seen, kind_seen};
ghost use Rattle.written_entries.specs.Groups.{AreGroups};
ghost use Rattle.written_model.specs.Faults.{is_too_deep};
ghost use Rattle.written_faults.specs.Classes.{AreDeep};
ghost use Rattle.written_faults.specs.Depths.{check_deep, condition_deep, delayed_deep, is_deep, open_behind, path_deep, place_deep};

use cond_expr::{Expr, Tok};
use sg_circuit::{CheckConditions, ElementKind, Parts, Path, PathCondition, Span};
use sg_text::{NoMemory, Text};
use std::alloc::Global;
use written_entries::{Groups, bare};

/// Five more parentheses enclose a condition in a file.
const DEEPEST: usize = 27;

fn open_behind(unclosed: usize, token: &Tok<Text>) -> usize
    requires { unclosed ≤ 27 }
    ensures { result ≡ open_behind unclosed token.now }
{
    match token {
        Tok::Left => unclosed + 1,
        Tok::Right => unclosed.saturating_sub(1),
        _ => unclosed,
    }
}

fn is_deep(tokens: &[Tok<Text>]) -> bool
    ensures { result ≡ is_deep tokens.now }
{
    let mut unclosed = 0usize;
    for token in tokens {
        unclosed = open_behind(unclosed, token);
        if unclosed > DEEPEST {
            return true;
        }
    }
    false
}

fn is_deep_condition(condition: &Expr) -> bool
    ensures { result ≡ is_deep (bare condition.now.tokens) }
{
    is_deep(bare(condition.tokens()))
}

/// Which conditions nest too deep, without the parentheses round them.
pub fn deep_conditions(alloc: Global, conditions: &[Expr]) -> Result<Vec<bool>, NoMemory>
    ensures { IfOk result (λ deep. AreDeep conditions.now deep.items) }
{
    let mut deep = Vec::new(alloc);
    for condition in conditions {
        deep.push(is_deep_condition(condition))?;
    }
    Ok(deep)
}

// Whether the condition of a path is one of them.
fn has_condition(deep: &[bool], condition: &PathCondition) -> bool
    requires { IsIndexedCondition (length deep.now) condition.now }
    ensures { result ≡ condition_deep deep.now condition.now }
{
    match condition {
        PathCondition::If { written, .. } => deep[*written],
        _ => false,
    }
}

fn has_each_path(deep: &[bool], paths: &[Path]) -> bool
    requires { All (λ p. IsIndexedCondition (length deep.now) p.condition) paths.now }
    ensures { result ≡ list_any (λ p. condition_deep deep.now p.condition) paths.now }
{
    paths
        .iter()
        .any(|path| has_condition(deep, &path.condition))
}

// Whether one of the paths of a span has one.
fn has_path(deep: &[bool], parts: &Parts, span: Span) -> bool
    requires indexed { AreIndexedPaths (length parts.now.conditions.items) (length parts.now.leg_timings.items) parts.now.paths.items span }
    requires deep { AreDeep parts.now.conditions.items deep.now }
    ensures { result ≡ list_any path_deep (paths_seen parts.now.conditions.items parts.now.leg_timings.items (spanned parts.now.paths.items span)) }
{
    has_each_path(deep, parts.paths_in(span))
}

// Whether an element of a kind has one.
fn has_delayed(deep: &[bool], parts: &Parts, kind: ElementKind) -> bool
    requires indexed { IsIndexed parts.now kind }
    requires deep { AreDeep parts.now.conditions.items deep.now }
    ensures { result ≡ delayed_deep (kind_seen parts.now kind) }
{
    match kind {
        ElementKind::Path { paths, .. } => has_path(deep, parts, paths),
        _ => false,
    }
}

// Whether the element of a number has one.
fn has_element(deep: &[bool], parts: &Parts, number: u32) -> bool
    requires indexed { AreIndexed parts.now }
    requires number { number < length parts.now.elements.items }
    requires deep { AreDeep parts.now.conditions.items deep.now }
    ensures { result ≡ delayed_deep (element_at (circuit_seen parts.now) number).kind }
{
    has_delayed(deep, parts, parts.elements[number as usize].kind)
}

// Whether one of the elements of these numbers has one.
fn has_elements(deep: &[bool], parts: &Parts, numbers: &[u32]) -> bool
    requires indexed { AreIndexed parts.now }
    requires numbers { All (λ n. n < length parts.now.elements.items) numbers.now }
    requires deep { AreDeep parts.now.conditions.items deep.now }
    ensures { result ≡ list_any (λ n. delayed_deep (element_at (circuit_seen parts.now) n).kind) numbers.now }
{
    numbers
        .iter()
        .any(|number| has_element(deep, parts, *number))
}

fn has_place(deep: &[bool], place: Option<usize>) -> bool
    requires { IfSome place (λ p. p < length deep.now) }
    ensures { result ≡ place_deep deep.now place }
{
    match place {
        Some(place) => deep[place],
        None => false,
    }
}

// Whether a condition of one or of two events is one.
fn has_event(deep: &[bool], written: CheckConditions, has_datum: bool) -> bool
    requires refer { IfSome written.refer (λ p. p < length deep.now) }
    requires datum { IfSome written.datum (λ p. p < length deep.now) }
    ensures { result ≡ (place_deep deep.now written.refer || (has_datum && place_deep deep.now written.datum)) }
{
    has_place(deep, written.refer) || (has_datum && has_place(deep, written.datum))
}

// Whether the timing check of a number has one.
fn has_check(deep: &[bool], parts: &Parts, number: u32) -> bool
    requires closed { IsClosed (circuit_seen parts.now) }
    requires indexed { AreIndexed parts.now }
    requires number { number < length parts.now.checks.items }
    requires deep { AreDeep parts.now.conditions.items deep.now }
    ensures { result ≡ check_deep (check_at (circuit_seen parts.now) number) }
{
    let number = number as usize;
    let has_datum = parts.check_timings[number].datum.is_some();
    has_event(deep, parts.check_conditions[number], has_datum)
}

// Whether one of the timing checks of these numbers has one.
fn has_checks(deep: &[bool], parts: &Parts, numbers: &[u32]) -> bool
    requires closed { IsClosed (circuit_seen parts.now) }
    requires indexed { AreIndexed parts.now }
    requires numbers { All (λ n. n < length parts.now.checks.items) numbers.now }
    requires deep { AreDeep parts.now.conditions.items deep.now }
    ensures { result ≡ list_any (λ n. check_deep (check_at (circuit_seen parts.now) n)) numbers.now }
{
    numbers.iter().any(|number| has_check(deep, parts, *number))
}

/// Whether a condition of a scope nests too deep.
pub fn has_deep(deep: &[bool], parts: &Parts, groups: &Groups, scope: u32) -> bool
    requires closed { IsClosed (circuit_seen parts.now) }
    requires indexed { AreIndexed parts.now }
    requires groups { AreGroups parts.now groups.now }
    requires scope { scope < length parts.now.scopes.items }
    requires deep { AreDeep parts.now.conditions.items deep.now }
    ensures { result ≡ is_too_deep (circuit_seen parts.now) scope }
{
    has_elements(deep, parts, groups.elements.of(scope))
        || has_checks(deep, parts, groups.checks.of(scope))
}
