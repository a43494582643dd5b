// Places picked from candidates.
ghost use Rattle.std.specs.Prelude.{◌≡◌, ◌<◌, ◌≤◌, ◌∷◌, ◌++◌, [], ℕ, All, Bool, List, OnOk, length};
ghost use Rattle.annotation_index.specs.Picking.{ArePicked};

use sg_text::NoMemory;

/// A test of places, by their numbers.
pub trait Test {
    ghost test: { Self → ℕ → Bool };

    // What has to be so for a test to be made.
    ghost ready: { Self → Type 0 };

    // So many places there are.
    ghost count: { Self → ℕ };

    fn passes(&self, place: u32) -> bool
        requires ready { ready self.now }
        requires within { place < count self.now }
        ensures { result ≡ test self.now place };
}

// One candidate more.
fn try_pick<T: Test>(
    test: &T,
    place: u32,
    marks: &mut [bool],
    found: &mut Vec<u32>,
) -> Result<(), NoMemory>
    requires ready { T.ready test.now }
    requires within { place < length marks.old }
    requires count { length marks.old ≤ T.count test.now }
    ensures { OnOk result ((seen : List ℕ) → ArePicked (T.test test.now) seen marks.old found.old.items → ArePicked (T.test test.now) (seen ++ place ∷ []) marks.new found.new.items) }
{
    if marks[place as usize] {
        return Ok(());
    }
    if !test.passes(place) {
        return Ok(());
    }
    marks[place as usize] = true;
    found.push(place)?;
    Ok(())
}

/// Candidates more: those that pass are marked and listed, where they weren't yet.
pub fn pick<T: Test>(
    test: &T,
    candidates: &[u32],
    marks: &mut [bool],
    found: &mut Vec<u32>,
) -> Result<(), NoMemory>
    requires ready { T.ready test.now }
    requires within { All (λ k. k < length marks.old) candidates.now }
    requires count { length marks.old ≤ T.count test.now }
    ensures { OnOk result ((seen : List ℕ) → ArePicked (T.test test.now) seen marks.old found.old.items → ArePicked (T.test test.now) (seen ++ candidates.now) marks.new found.new.items) }
{
    for place in candidates {
        try_pick(test, *place, marks, found)?;
    }
    Ok(())
}
