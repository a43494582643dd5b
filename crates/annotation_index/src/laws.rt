// What holds of indexes.
ghost use Rattle.annotation_index.specs.Laws.{IndexIsExact};

/// Picking from what an index gives finds exactly the places that an entry is for.
pub fn index_is_exact()
    ensures { IndexIsExact }
{}
