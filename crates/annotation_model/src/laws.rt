// What holds of annotation.
ghost use Rattle.annotation_model.specs.Laws.{EntriesOneAfterAnother, ValuesStayWithinBounds};

/// The filter over all entries for each place is what comes of applying the entries one after another.
pub fn entries_one_after_another()
    ensures { EntriesOneAfterAnother }
{}

/// Where no entry is too large, delays and limits stay below 2^60 ticks, and reject limits at most as long as error limits.
pub fn values_stay_within_bounds()
    ensures { ValuesStayWithinBounds }
{}
