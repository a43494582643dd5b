// Where in the netlist the text at hand stands.
use crate::pieces::{cut, feeds};
use vl_pieces::{Class, is_among, is_word};

/// In which module or primitive, and whether in its table or among the words of a directive.
#[derive(Clone, Copy)]
pub struct Part<'t> {
    pub name: &'t [u8],
    // the name comes next
    begins: bool,
    pub in_table: bool,
    pub in_words: bool,
}

impl<'t> Part<'t> {
    /// Outside all modules.
    pub fn outside() -> Part<'t> {
        Part {
            name: b"",
            begins: false,
            in_table: false,
            in_words: false,
        }
    }

    /// Behind a piece.
    pub fn pass(&mut self, class: Class, piece: &'t [u8]) {
        match class {
            Class::Gap if feeds(piece) > 0 => self.in_words = false,
            Class::Escaped if self.begins => self.begin(cut(piece, 1).1),
            Class::Name => self.pass_name(piece),
            _ => {}
        }
    }

    /// A module begins.
    pub fn begin(&mut self, name: &'t [u8]) {
        self.name = name;
        self.begins = false;
    }

    /// Whether its name comes next.
    pub fn begins(&self) -> bool {
        self.begins
    }

    fn pass_name(&mut self, name: &'t [u8]) {
        if self.begins {
            self.begin(name);
        } else if is_among(&["module", "macromodule", "primitive"], name) {
            self.begins = true;
        } else if is_among(&["endmodule", "endprimitive"], name) {
            self.begin(b"");
        } else if is_word(name, "table") {
            self.in_table = true;
        } else if is_word(name, "endtable") {
            self.in_table = false;
        }
    }
}
