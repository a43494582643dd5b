// Conditions told apart by numbers.
ghost use Rattle.std.specs.Prelude.{◌≡◌, ◌++◌, ◌∷◌, [], ℕ, List, IfOk, OnOk};
ghost use Rattle.annotation_model.specs.Same.{bare};
ghost use Rattle.written_faults.specs.Classes.{AreClasses};
ghost use Rattle.written_faults.specs.Classing.{AreNumbered};
ghost use Rattle.written_faults.specs.Codes.{tokens_code};

use crate::codes::code_of;
use cond_expr::Expr;
use indexmap::IndexSet;
use sg_text::NoMemory;
use std::alloc::Global;
use written_entries::bare;

fn class_code(alloc: Global, condition: &Expr) -> Result<Vec<u64>, NoMemory>
    ensures { IfOk result (λ code. code.items ≡ tokens_code (bare condition.now.tokens)) }
{
    code_of(alloc, bare(condition.tokens()))
}

// A code has the number of one before that is the same, or else the next.
fn add_class(
    seen: &mut IndexSet<Vec<u64>>,
    classes: &mut Vec<usize>,
    code: Vec<u64>,
) -> Result<(), NoMemory>
    ensures { OnOk result ((codes : List (List ℕ)) → AreNumbered codes seen.old.keys classes.old.items → AreNumbered (codes ++ code.items ∷ []) seen.new.keys classes.new.items) }
{
    let (class, _) = seen.insert_full(code)?;
    classes.push(class)?;
    Ok(())
}

/// A number for each condition, the same for those that are the same but for the parentheses round them. Takes time and memory in
/// proportion to the conditions.
pub fn classes_of(alloc: Global, conditions: &[Expr]) -> Result<Vec<usize>, NoMemory>
    ensures { IfOk result (λ classes. AreClasses conditions.now classes.items) }
{
    let mut seen = IndexSet::new(alloc);
    let mut classes = Vec::new(alloc);
    for condition in conditions {
        let code = class_code(alloc, condition)?;
        add_class(&mut seen, &mut classes, code)?;
    }
    Ok(classes)
}
