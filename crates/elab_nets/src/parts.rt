// The row of an instance.
ghost use Rattle.std.specs.Prelude.{◌≡◌, IfSome, length, option_map};
ghost use Rattle.elab_nets.specs.Parts.{IsRow};

/// The row of an instance, of so many numbers.
pub fn row_of<'n, T>(
    starts: &[usize],
    numbers: &'n [T],
    instance: usize,
    count: usize,
) -> Option<&'n [T]>
    ensures row { IsRow starts.now numbers.now instance count (option_map (λ p. p.now) result) }
    ensures count { IfSome result (λ p. length p.now ≡ count) }
{
    let start = *starts.get(instance)?;
    numbers.get(start..)?.get(..count)
}
