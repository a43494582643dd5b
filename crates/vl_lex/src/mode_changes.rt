// The mode behind a piece.
ghost use Rattle.std.specs.Prelude.{◌≡◌};
ghost use Rattle.vl_lex.specs.Effects.{mode_by_name, behind_plain, behind_edge, behind_edges, behind_cell, mode_behind};

use vl_pieces::{Class, Mode, is_word};

fn mode_by_name(bytes: &[u8]) -> Mode
    ensures { result ≡ mode_by_name bytes.now }
{
    if is_word(bytes, "edge") {
        Mode::AfterEdge
    } else if is_word(bytes, "table") {
        Mode::Table
    } else {
        Mode::Plain
    }
}

fn behind_plain(class: Class, bytes: &[u8]) -> Mode
    ensures { result ≡ behind_plain class bytes.now }
{
    match class {
        Class::Name => mode_by_name(bytes),
        _ => Mode::Plain,
    }
}

fn behind_edge(class: Class, bytes: &[u8]) -> Mode
    ensures { result ≡ behind_edge class bytes.now }
{
    match class {
        Class::Gap | Class::Attribute => Mode::AfterEdge,
        Class::Symbol => {
            if is_word(bytes, "[") {
                Mode::Edges
            } else {
                Mode::Plain
            }
        }
        _ => behind_plain(class, bytes),
    }
}

fn behind_edges(class: Class, bytes: &[u8]) -> Mode
    ensures { result ≡ behind_edges class bytes.now }
{
    match class {
        Class::Symbol => {
            if is_word(bytes, "]") {
                Mode::Plain
            } else {
                Mode::Edges
            }
        }
        Class::Name => {
            if is_word(bytes, "table") {
                Mode::EdgesTable
            } else {
                Mode::Edges
            }
        }
        _ => Mode::Edges,
    }
}

// Behind a byte of a table, or the word that ends it.
fn behind_cell(table: Mode, behind: Mode, class: Class) -> Mode
    ensures { result ≡ behind_cell table behind class }
{
    match class {
        Class::Name => behind,
        _ => table,
    }
}

// The mode behind a piece.
pub fn mode_behind(mode: Mode, class: Class, bytes: &[u8]) -> Mode
    ensures { result ≡ mode_behind mode class bytes.now }
{
    match mode {
        Mode::Plain | Mode::Line => behind_plain(class, bytes),
        Mode::AfterEdge => behind_edge(class, bytes),
        Mode::Edges => behind_edges(class, bytes),
        Mode::Table => behind_cell(Mode::Table, Mode::Plain, class),
        Mode::EdgesTable => behind_cell(Mode::EdgesTable, Mode::Edges, class),
    }
}
