// User-defined primitives.
ghost use Rattle.std.specs.Prelude.{◌≡◌, map, OnOk, option_map};
ghost use Rattle.sg_logic.specs.declared.values.Value.TheVariants.{X};
ghost use Rattle.vl_token.specs.Seen.{lexeme};
ghost use Rattle.vl_print.specs.Printing.{put_cell, put_cells, put_column, put_initial_value, put_many, put_optional, put_register_word};

use crate::expressions::whole;
use crate::lists::{Print, print_listed, print_many, print_optional};
use crate::tokens::{NOWHERE, keyword, keyword_at, symbol, table_byte, table_byte_at, token};
use sg_logic::Value;
use sg_text::{Keyword, NoMemory, Place};
use udp_rows::{Cell, RawRow};
use vl_token::{Base, Constant, Symbol, Token, TokenKind};
use vl_tree::{Initial, Primitive, PrimitiveDeclaration};

fn print_register_word(out: &mut Vec<Token<'_>>, is_there: bool) -> Result<(), NoMemory>
    ensures { OnOk result (map lexeme out.new.items ≡ put_register_word is_there (map lexeme out.old.items)) }
{
    if is_there {
        return keyword(out, Keyword::Reg);
    }
    Ok(())
}

impl<'a> Print<'a> for PrimitiveDeclaration<'a> {
    ghost use Rattle.vl_tree.specs.Tree.{PrimitiveDeclaration as TreeSeen};
    ghost use Rattle.vl_tree.specs.Seen.{view_primitive_declaration};
    ghost use Rattle.vl_print.specs.Printing.{put_primitive_declaration};

    ghost Tree = { TreeSeen };

    ghost view = { view_primitive_declaration };

    ghost tokens = { put_primitive_declaration };

    fn print(&self, out: &mut Vec<Token<'a>>) -> Result<(), NoMemory> {
        match self {
            PrimitiveDeclaration::Output {
                place,
                register,
                name,
            } => {
                keyword_at(out, Keyword::Output, *place)?;
                print_register_word(out, *register)?;
                name.print(out)?;
            }
            PrimitiveDeclaration::Register { place, name } => {
                keyword_at(out, Keyword::Reg, *place)?;
                name.print(out)?;
            }
            PrimitiveDeclaration::Inputs { place, names } => {
                keyword_at(out, Keyword::Input, *place)?;
                print_listed(out, names.as_slice())?;
            }
        }
        symbol(out, Symbol::Semicolon)
    }
}

fn print_x(out: &mut Vec<Token<'_>>) -> Result<(), NoMemory>
    ensures { OnOk result (map lexeme out.new.items ≡ put_initial_value X (map lexeme out.old.items)) }
{
    let constant = Constant {
        digits: b"x",
        width: 1,
        base: Base::Binary,
    };
    token(out, TokenKind::Sized(constant), NOWHERE)
}

/// No primitive begins with z, which is printed as x.
fn print_initial_value(out: &mut Vec<Token<'_>>, value: Value) -> Result<(), NoMemory>
    ensures { OnOk result (map lexeme out.new.items ≡ put_initial_value value (map lexeme out.old.items)) }
{
    match value {
        Value::Zero => whole(out, 0),
        Value::One => whole(out, 1),
        Value::X | Value::Z => print_x(out),
    }
}

impl<'a> Print<'a> for Initial<'a> {
    ghost use Rattle.vl_tree.specs.Tree.{Initial as TreeSeen};
    ghost use Rattle.vl_tree.specs.Seen.{view_initial};
    ghost use Rattle.vl_print.specs.Printing.{put_initial};

    ghost Tree = { TreeSeen };

    ghost view = { view_initial };

    ghost tokens = { put_initial };

    fn print(&self, out: &mut Vec<Token<'a>>) -> Result<(), NoMemory> {
        keyword_at(out, Keyword::Initial, self.place)?;
        self.name.print(out)?;
        symbol(out, Symbol::Assign)?;
        print_initial_value(out, self.value)?;
        symbol(out, Symbol::Semicolon)
    }
}

fn print_cell(out: &mut Vec<Token<'_>>, cell: Cell, place: Place) -> Result<(), NoMemory>
    ensures { OnOk result (map lexeme out.new.items ≡ put_cell place cell (map lexeme out.old.items)) }
{
    if cell.second == 0 {
        return table_byte_at(out, cell.first, place);
    }
    table_byte_at(out, b'(', place)?;
    table_byte(out, cell.first)?;
    table_byte(out, cell.second)?;
    table_byte(out, b')')
}

impl<'a> Print<'a> for Cell {
    ghost use Rattle.udp_rows.specs.declared.cells.Cell.{Cell as TreeSeen};
    ghost use Rattle.vl_print.specs.Printing.{nowhere, put_cell};

    ghost Tree = { TreeSeen };

    ghost view = { λ c. c };

    ghost tokens = { put_cell nowhere };

    fn print(&self, out: &mut Vec<Token<'a>>) -> Result<(), NoMemory> {
        print_cell(out, *self, NOWHERE)
    }
}

fn print_cells(out: &mut Vec<Token<'_>>, cells: &[Cell], place: Place) -> Result<(), NoMemory>
    ensures { OnOk result (map lexeme out.new.items ≡ put_cells place cells.now (map lexeme out.old.items)) }
{
    match cells {
        [] => Ok(()),
        [first, rest @ ..] => {
            print_cell(out, *first, place)?;
            print_many(out, rest)
        }
    }
}

fn print_column(out: &mut Vec<Token<'_>>, cell: Cell) -> Result<(), NoMemory>
    ensures { OnOk result (map lexeme out.new.items ≡ put_column cell (map lexeme out.old.items)) }
{
    table_byte(out, b':')?;
    print_cell(out, cell, NOWHERE)
}

fn print_state(out: &mut Vec<Token<'_>>, state: Option<Cell>) -> Result<(), NoMemory>
    ensures { OnOk result (map lexeme out.new.items ≡ put_optional put_column state (map lexeme out.old.items)) }
{
    match state {
        None => Ok(()),
        Some(cell) => print_column(out, cell),
    }
}

impl<'a> Print<'a> for RawRow {
    ghost use Rattle.udp_rows.specs.declared.cells.RawRow.{RawRow as TreeSeen};
    ghost use Rattle.vl_print.specs.Printing.{put_row};

    ghost Tree = { TreeSeen };

    ghost view = { λ r. r };

    ghost tokens = { put_row };

    fn print(&self, out: &mut Vec<Token<'a>>) -> Result<(), NoMemory> {
        print_cells(out, self.inputs.as_slice(), self.place)?;
        print_state(out, self.state)?;
        print_column(out, self.out)?;
        table_byte(out, b';')
    }
}

impl<'a> Print<'a> for Primitive<'a> {
    ghost use Rattle.vl_tree.specs.Tree.{Primitive as TreeSeen};
    ghost use Rattle.vl_tree.specs.Seen.{view_primitive};
    ghost use Rattle.vl_print.specs.Printing.{put_primitive};

    ghost Tree = { TreeSeen };

    ghost view = { view_primitive };

    ghost tokens = { put_primitive };

    fn print(&self, out: &mut Vec<Token<'a>>) -> Result<(), NoMemory> {
        keyword_at(out, Keyword::Primitive, self.place)?;
        self.name.print(out)?;
        symbol(out, Symbol::LeftParen)?;
        print_listed(out, self.ports.as_slice())?;
        symbol(out, Symbol::RightParen)?;
        symbol(out, Symbol::Semicolon)?;
        print_many(out, self.declarations.as_slice())?;
        print_optional(out, &self.initial)?;
        keyword(out, Keyword::Table)?;
        print_many(out, self.rows.as_slice())?;
        keyword(out, Keyword::EndTable)?;
        keyword(out, Keyword::EndPrimitive)
    }
}
