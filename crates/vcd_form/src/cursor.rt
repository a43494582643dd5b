// How far the words of a dump's text are read.
ghost use Rattle.std.specs.Prelude.{◌≡◌};
ghost use Rattle.vcd_form.specs.Places.{read_at, IsBetween};

/// The words of a dump's text, of which those before a place are read.
#[derive(Clone, Copy, Debug)]
pub struct Words<'a> {
    pub text: &'a [u8],
    pub at: usize,
    ghost between: { IsBetween text.now at },
}

impl<'a> Words<'a> {
    /// The words of a text, of which none is read.
    #[tactic(auto, using(crate::proofs::PlaceLaws::between_first, crate::proofs::PlaceLaws::read_first))]
    pub fn new(text: &'a [u8]) -> Self
        ensures text { result.text.now ≡ text.now }
        ensures none { read_at text.now result.at ≡ 0 }
    {
        Words { text, at: 0 }
    }
}
