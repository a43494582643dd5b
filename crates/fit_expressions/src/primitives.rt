// The primitives that gates are made of.
use fit_items::{Edit, is_name};
use sg_text::{Keyword, NoMemory};
use std::alloc::Global;
use vl_token::{Token, TokenKind};

/// A primitive: its name as an instance begins with it, and its text.
struct Primitive {
    word: &'static str,
    text: &'static str,
}

// They compute what `===`, `!==` and `?:` do (IEEE 1364-2005, 5.1.8, 5.1.13): of x and z, x.
const PRIMITIVES: [Primitive; 5] = [
    Primitive {
        word: "sg_is0",
        text: "primitive sg_is0 (y, a); output y; input a; table 0 : 1; 1 : 0; x : 0; endtable endprimitive ",
    },
    Primitive {
        word: "sg_is1",
        text: "primitive sg_is1 (y, a); output y; input a; table 1 : 1; 0 : 0; x : 0; endtable endprimitive ",
    },
    Primitive {
        word: "sg_isnt0",
        text: "primitive sg_isnt0 (y, a); output y; input a; table 0 : 0; 1 : 1; x : 1; endtable endprimitive ",
    },
    Primitive {
        word: "sg_isnt1",
        text: "primitive sg_isnt1 (y, a); output y; input a; table 1 : 0; 0 : 1; x : 1; endtable endprimitive ",
    },
    Primitive {
        word: "sg_mux",
        text: "primitive sg_mux (y, s, a, b); output y; input s, a, b; table 1 1 ? : 1; 1 0 ? : 0; 0 ? 1 : 1; 0 ? 0 : 0; x 1 1 : 1; x 0 0 : 0; endtable endprimitive ",
    },
];

fn is_edge(b: Option<&u8>) -> bool {
    match b {
        Some(b) => *b == b' ',
        None => true,
    }
}

// Whether a text begins with a word and a blank, or is the word.
fn begins(text: &[u8], word: &[u8]) -> bool {
    text.starts_with(word) && is_edge(text.get(word.len()))
}

// Whether a word stands in a text, with a blank or nothing at each side.
fn has_word(text: &[u8], word: &[u8]) -> bool {
    let mut is_first = true;
    for (at, b) in text.iter().enumerate() {
        if is_first && begins(&text[at..], word) {
            return true;
        }
        is_first = *b == b' ';
    }
    false
}

fn is_used(edits: &[Edit], word: &[u8]) -> bool {
    edits.iter().any(|edit| has_word(&edit.change.text, word))
}

fn begins_part(token: &Token<'_>) -> bool {
    match token.kind {
        TokenKind::Module(_) | TokenKind::Word(Keyword::Primitive) => true,
        _ => false,
    }
}

// Whether a module or primitive has a name.
fn is_there(tokens: &[Token<'_>], name: &[u8]) -> bool {
    let mut is_begun = false;
    for token in tokens {
        if is_begun && is_name(token, name) {
            return true;
        }
        is_begun = begins_part(token);
    }
    false
}

/// The texts of the primitives that edits use and that are no modules or primitives of the netlist, with a blank behind each;
/// empty where there are none. The tokens are those of all files. The texts are to stand before the first byte of the first file.
/// Takes memory.
pub fn primitives_for(
    alloc: Global,
    tokens: &[Token<'_>],
    edits: &[Edit],
) -> Result<Vec<u8>, NoMemory> {
    let mut text = Vec::new(alloc);
    for primitive in &PRIMITIVES {
        let word = primitive.word.as_bytes();
        if is_used(edits, word) && !is_there(tokens, word) {
            text.extend_from_slice(primitive.text.as_bytes())?;
        }
    }
    Ok(text)
}
