// The path of a scope, one open scope after another.
ghost use Rattle.std.specs.Prelude.{◌≡◌, Some};
ghost use Rattle.vcd_stim.specs.Paths.{goes_on, is_whole_front, is_whole_last, last_front, next_front};

// Where a front of a text ends once a piece more is read.
fn goes_on(text: &[u8], at: usize, piece: &[u8]) -> Option<usize>
    ensures { result ≡ goes_on text.now at piece.now }
{
    let rest = text.get(at..)?;
    if rest.starts_with(piece) {
        return Some(at + piece.len());
    }
    None
}

fn inner_front(scope: &[u8], outer: usize, name: &[u8]) -> Option<usize>
    ensures { result ≡ next_front scope.now (Some (Some outer)) name.now }
{
    let at = goes_on(scope, outer, b".")?;
    goes_on(scope, at, name)
}

/// How much of a path is read once a scope of a name is opened within some, of each of which it is known; none where it differs.
pub fn front_with(scope: &[u8], fronts: &[Option<usize>], name: &[u8]) -> Option<usize>
    ensures { result ≡ next_front scope.now (last_front fronts.now) name.now }
{
    match fronts.last() {
        None => goes_on(scope, 0, name),
        Some(outer) => inner_front(scope, (*outer)?, name),
    }
}

/// Whether the whole path is read.
pub fn is_whole(scope: &[u8], front: Option<usize>) -> bool
    ensures { result ≡ is_whole_front scope.now front }
{
    match front {
        Some(read) => read == scope.len(),
        None => false,
    }
}

/// Whether the innermost open scope is that of the path.
pub fn is_within(scope: &[u8], fronts: &[Option<usize>]) -> bool
    ensures { result ≡ is_whole_last scope.now (last_front fronts.now) }
{
    match fronts.last() {
        None => false,
        Some(front) => is_whole(scope, *front),
    }
}
