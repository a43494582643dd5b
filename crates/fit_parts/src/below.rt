// Sets of names.
use indexmap::IndexSet;

/// A set of names: of all that there may be, or of some.
#[derive(Drop)]
pub enum Below<'a> {
    All,
    Names(IndexSet<&'a [u8]>),
}

impl<'a> Below<'a> {
    ghost use Rattle.std.specs.Prelude.{◌≡◌, ℕ, List, true};
    ghost use Rattle.fit_parts.specs.Below.{holds};

    /// Whether it holds a name.
    pub fn holds(&self, name: &[u8]) -> bool
        ensures { result ≡ holds self.now name.now }
    {
        match self {
            Below::All => true,
            Below::Names(names) => names.contains(name),
        }
    }

    // Whether it is that of all names.
    pub fn is_all(&self) -> bool
        ensures { result ≡ true → (n : List ℕ) → holds self.now n ≡ true }
    {
        match self {
            Below::All => true,
            Below::Names(_) => false,
        }
    }
}
