// Items of modules.
ghost use Rattle.std.specs.Prelude.{◌≡◌, map, OnOk, option_map};
ghost use Rattle.vl_token.specs.Seen.{lexeme};
ghost use Rattle.vl_print.specs.Printing.{put_direction, put_gate, put_net_type, put_opening, put_optional, put_supply, put_value};
ghost use Rattle.vl_tree.specs.Seen.{view_expression, view_name};

use crate::expressions::print_value;
use crate::lists::{Print, print_listed, print_optional};
use crate::tokens::{NOWHERE, keyword_at, symbol, symbol_at};
use sg_logic::GateKind;
use sg_text::{Keyword, NoMemory, Place};
use vl_token::{Symbol, Token};
use vl_tree::{
    Connections, Direction, Expression, GateInstance, Instance, Item, Join, Name, NamedConnection,
    NetName, NetType, Supply,
};

pub fn print_direction(
    out: &mut Vec<Token<'_>>,
    direction: Direction,
    place: Place,
) -> Result<(), NoMemory>
    ensures { OnOk result (map lexeme out.new.items ≡ put_direction place direction (map lexeme out.old.items)) }
{
    match direction {
        Direction::Input => keyword_at(out, Keyword::Input, place),
        Direction::Output => keyword_at(out, Keyword::Output, place),
    }
}

fn print_net_type(out: &mut Vec<Token<'_>>, net: NetType, place: Place) -> Result<(), NoMemory>
    ensures { OnOk result (map lexeme out.new.items ≡ put_net_type place net (map lexeme out.old.items)) }
{
    match net {
        NetType::Wire => keyword_at(out, Keyword::Wire, place),
        NetType::Tri => keyword_at(out, Keyword::Tri, place),
    }
}

pub fn print_optional_net_type(
    out: &mut Vec<Token<'_>>,
    net: Option<NetType>,
) -> Result<(), NoMemory>
    ensures { OnOk result (map lexeme out.new.items ≡ put_optional (put_net_type NOWHERE) net (map lexeme out.old.items)) }
{
    match net {
        None => Ok(()),
        Some(net) => print_net_type(out, net, NOWHERE),
    }
}

fn print_supply(out: &mut Vec<Token<'_>>, supply: Supply, place: Place) -> Result<(), NoMemory>
    ensures { OnOk result (map lexeme out.new.items ≡ put_supply place supply (map lexeme out.old.items)) }
{
    match supply {
        Supply::Zero => keyword_at(out, Keyword::Supply0, place),
        Supply::One => keyword_at(out, Keyword::Supply1, place),
    }
}

fn print_gate(out: &mut Vec<Token<'_>>, gate: GateKind, place: Place) -> Result<(), NoMemory>
    ensures { OnOk result (map lexeme out.new.items ≡ put_gate place gate (map lexeme out.old.items)) }
{
    match gate {
        GateKind::And => keyword_at(out, Keyword::And, place),
        GateKind::Nand => keyword_at(out, Keyword::Nand, place),
        GateKind::Or => keyword_at(out, Keyword::Or, place),
        GateKind::Nor => keyword_at(out, Keyword::Nor, place),
        GateKind::Xor => keyword_at(out, Keyword::Xor, place),
        GateKind::Xnor => keyword_at(out, Keyword::Xnor, place),
        GateKind::Buf => keyword_at(out, Keyword::Buf, place),
        GateKind::Not => keyword_at(out, Keyword::Not, place),
        GateKind::Bufif0 => keyword_at(out, Keyword::Bufif0, place),
        GateKind::Bufif1 => keyword_at(out, Keyword::Bufif1, place),
        GateKind::Notif0 => keyword_at(out, Keyword::Notif0, place),
        GateKind::Notif1 => keyword_at(out, Keyword::Notif1, place),
    }
}

fn print_optional_value<'a>(
    out: &mut Vec<Token<'a>>,
    value: &Option<Expression<'a>>,
) -> Result<(), NoMemory>
    ensures { OnOk result (map lexeme out.new.items ≡ put_optional put_value (option_map view_expression value.now) (map lexeme out.old.items)) }
{
    match value {
        None => Ok(()),
        Some(value) => print_value(out, value),
    }
}

impl<'a> Print<'a> for NetName<'a> {
    ghost use Rattle.vl_tree.specs.Tree.{NetName as TreeSeen};
    ghost use Rattle.vl_tree.specs.Seen.{view_net_name};
    ghost use Rattle.vl_print.specs.Printing.{put_net_name};

    ghost Tree = { TreeSeen };

    ghost view = { view_net_name };

    ghost tokens = { put_net_name };

    fn print(&self, out: &mut Vec<Token<'a>>) -> Result<(), NoMemory> {
        self.name.print(out)?;
        print_optional_value(out, &self.value)
    }
}

impl<'a> Print<'a> for Join<'a> {
    ghost use Rattle.vl_tree.specs.Tree.{Join as TreeSeen};
    ghost use Rattle.vl_tree.specs.Seen.{view_join};
    ghost use Rattle.vl_print.specs.Printing.{put_join};

    ghost Tree = { TreeSeen };

    ghost view = { view_join };

    ghost tokens = { put_join };

    fn print(&self, out: &mut Vec<Token<'a>>) -> Result<(), NoMemory> {
        self.left.print(out)?;
        print_value(out, &self.right)
    }
}

/// `[ name ] "("`
fn print_opening<'a>(
    out: &mut Vec<Token<'a>>,
    name: &Option<Name<'a>>,
    place: Place,
) -> Result<(), NoMemory>
    ensures { OnOk result (map lexeme out.new.items ≡ put_opening place (option_map view_name name.now) (map lexeme out.old.items)) }
{
    match name {
        None => symbol_at(out, Symbol::LeftParen, place),
        Some(name) => {
            name.print(out)?;
            symbol(out, Symbol::LeftParen)
        }
    }
}

impl<'a> Print<'a> for GateInstance<'a> {
    ghost use Rattle.vl_tree.specs.Tree.{GateInstance as TreeSeen};
    ghost use Rattle.vl_tree.specs.Seen.{view_gate_instance};
    ghost use Rattle.vl_print.specs.Printing.{put_gate_instance};

    ghost Tree = { TreeSeen };

    ghost view = { view_gate_instance };

    ghost tokens = { put_gate_instance };

    fn print(&self, out: &mut Vec<Token<'a>>) -> Result<(), NoMemory> {
        print_opening(out, &self.name, self.place)?;
        print_listed(out, self.terminals.as_slice())?;
        symbol(out, Symbol::RightParen)
    }
}

impl<'a> Print<'a> for NamedConnection<'a> {
    ghost use Rattle.vl_tree.specs.Tree.{NamedConnection as TreeSeen};
    ghost use Rattle.vl_tree.specs.Seen.{view_named_connection};
    ghost use Rattle.vl_print.specs.Printing.{put_named_connection};

    ghost Tree = { TreeSeen };

    ghost view = { view_named_connection };

    ghost tokens = { put_named_connection };

    fn print(&self, out: &mut Vec<Token<'a>>) -> Result<(), NoMemory> {
        symbol_at(out, Symbol::Point, self.place)?;
        self.port.print(out)?;
        symbol(out, Symbol::LeftParen)?;
        print_optional(out, &self.value)?;
        symbol(out, Symbol::RightParen)
    }
}

impl<'a> Print<'a> for Option<Expression<'a>> {
    ghost use Rattle.std.specs.Prelude.{Option, option_map};
    ghost use Rattle.vl_tree.specs.Tree.{Expression as TreeSeen};
    ghost use Rattle.vl_tree.specs.Seen.{view_expression};
    ghost use Rattle.vl_print.specs.Printing.{put_expression, put_optional};

    ghost Tree = { Option TreeSeen };

    ghost view = { option_map view_expression };

    ghost tokens = { put_optional put_expression };

    fn print(&self, out: &mut Vec<Token<'a>>) -> Result<(), NoMemory> {
        print_optional(out, self)
    }
}

impl<'a> Print<'a> for Connections<'a> {
    ghost use Rattle.vl_tree.specs.Tree.{Connections as TreeSeen};
    ghost use Rattle.vl_tree.specs.Seen.{view_connections};
    ghost use Rattle.vl_print.specs.Printing.{put_connections};

    ghost Tree = { TreeSeen };

    ghost view = { view_connections };

    ghost tokens = { put_connections };

    fn print(&self, out: &mut Vec<Token<'a>>) -> Result<(), NoMemory> {
        match self {
            Connections::Ordered(parts) => print_listed(out, parts.as_slice()),
            Connections::Named(parts) => print_listed(out, parts.as_slice()),
        }
    }
}

impl<'a> Print<'a> for Instance<'a> {
    ghost use Rattle.vl_tree.specs.Tree.{Instance as TreeSeen};
    ghost use Rattle.vl_tree.specs.Seen.{view_instance};
    ghost use Rattle.vl_print.specs.Printing.{put_instance};

    ghost Tree = { TreeSeen };

    ghost view = { view_instance };

    ghost tokens = { put_instance };

    fn print(&self, out: &mut Vec<Token<'a>>) -> Result<(), NoMemory> {
        print_opening(out, &self.name, self.place)?;
        self.connections.print(out)?;
        symbol(out, Symbol::RightParen)
    }
}

impl<'a> Print<'a> for Item<'a> {
    ghost use Rattle.vl_tree.specs.Tree.{Item as TreeSeen};
    ghost use Rattle.vl_tree.specs.Seen.{view_item};
    ghost use Rattle.vl_print.specs.ModulesPrinting.{put_item};

    ghost Tree = { TreeSeen };

    ghost view = { view_item };

    ghost tokens = { put_item };

    fn print(&self, out: &mut Vec<Token<'a>>) -> Result<(), NoMemory> {
        match self {
            Item::Ports {
                place,
                direction,
                net,
                range,
                names,
            } => {
                print_direction(out, *direction, *place)?;
                print_optional_net_type(out, *net)?;
                print_optional(out, range)?;
                print_listed(out, names.as_slice())?;
            }
            Item::Nets {
                place,
                net,
                range,
                names,
            } => {
                print_net_type(out, *net, *place)?;
                print_optional(out, range)?;
                print_listed(out, names.as_slice())?;
            }
            Item::Supplies {
                place,
                supply,
                range,
                names,
            } => {
                print_supply(out, *supply, *place)?;
                print_optional(out, range)?;
                print_listed(out, names.as_slice())?;
            }
            Item::Registers { place, names } => {
                keyword_at(out, Keyword::Reg, *place)?;
                print_listed(out, names.as_slice())?;
            }
            Item::Assigns { place, joins } => {
                keyword_at(out, Keyword::Assign, *place)?;
                print_listed(out, joins.as_slice())?;
            }
            Item::Gates {
                place,
                gate,
                delay,
                instances,
            } => {
                print_gate(out, *gate, *place)?;
                print_optional(out, delay)?;
                print_listed(out, instances.as_slice())?;
            }
            Item::Instances {
                module,
                delay,
                instances,
            } => {
                module.print(out)?;
                print_optional(out, delay)?;
                print_listed(out, instances.as_slice())?;
            }
            Item::Specify(block) => return block.print(out),
        }
        symbol(out, Symbol::Semicolon)
    }
}
