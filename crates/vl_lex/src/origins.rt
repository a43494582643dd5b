// Where a text comes from, and so where its tokens stand.
ghost use Rattle.std.specs.Prelude.{◌≡◌};
ghost use Rattle.vl_lex.specs.Effects.{place_at};

use sg_text::Place;

/// A text is a file's, by its number, or that of a macro, by the place of the outermost use.
#[derive(Clone, Copy, Debug, PartialEq, Eq)]
pub enum Origin {
    File(u32),
    Macro(Place),
}

impl Origin {
    // The place of a byte of the text.
    pub fn place_at(self, at: usize) -> Place
        ensures { result ≡ place_at self at }
    {
        match self {
            Origin::File(file) => Place {
                file,
                byte: at as u64,
            },
            Origin::Macro(place) => place,
        }
    }
}
