// Which way a text is gone through.

/// From its first byte to its last, or from its last to its first.
#[derive(Clone, Copy, Debug, PartialEq)]
pub enum Way {
    Forwards,
    Backwards,
}

impl Way {
    ghost use Rattle.std.specs.Prelude.{◌≡◌, ◌<◌, length, slice_index_or};
    ghost use Rattle.name_trie.specs.Turned.{turned};

    // The byte that comes behind so many.
    pub fn byte(self, text: &[u8], count: usize) -> u8
        requires { count < length text.now }
        ensures { result ≡ slice_index_or (turned self text.now) count 0 }
    {
        match self {
            Way::Forwards => text[count],
            Way::Backwards => text[text.len() - 1 - count],
        }
    }
}
