// Places picked by the help of marks.
ghost use Rattle.std.specs.Prelude.{◌≡◌, ◌<◌, ◌≤◌, ◌&&◌, ℕ, All, IfOk, OnOk, false, length, not, slice_index_or};
ghost use Rattle.annotation_model.specs.Ports.{has};
ghost use Rattle.annotation_finder.specs.Finding.{AreClear, ArePickedOf};

use annotation_index::{Test, pick};
use sg_text::NoMemory;
use std::alloc::Global;

// Unsets the marks of places.
fn unset(marks: &mut [bool], places: &[u32])
    requires { All (λ k. k < length marks.old) places.now }
    ensures { (k : ℕ) → slice_index_or marks.new k false ≡ (slice_index_or marks.old k false && not (has k places.now)) }
{
    for place in places {
        marks[*place as usize] = false;
    }
}

/// The candidates that pass a test, each once. No mark is set before or afterwards.
pub fn pick_each<T: Test>(
    alloc: Global,
    test: &T,
    candidates: &[u32],
    marks: &mut [bool],
) -> Result<Vec<u32>, NoMemory>
    requires ready { T.ready test.now }
    requires within { All (λ k. k < length marks.old) candidates.now }
    requires count { length marks.old ≤ T.count test.now }
    requires clear { AreClear marks.old }
    ensures picked { IfOk result (λ found. ArePickedOf (T.test test.now) candidates.now found.items) }
    ensures clear { OnOk result (AreClear marks.new) }
{
    let mut found = Vec::new(alloc);
    pick(test, candidates, marks, &mut found)?;
    unset(marks, &found);
    Ok(found)
}
