// The bits of terms.
ghost use Rattle.std.specs.Prelude.{◌≡◌, ◌++◌, All, List, IfOk, OnOk, filter_map, map};
ghost use Rattle.vl_tree.specs.Seen.{view_expression, view_term};
ghost use Rattle.elab_bits.specs.Seen.{IsInRow, view_bit};
ghost use Rattle.elab_model.specs.Names.{Variable};
ghost use Rattle.elab_model.specs.Terms as def;
ghost use Rattle.elab_ends.specs.Seen.{bits_seen, AreInRow};

use elab_bits::{Bit, add_bits};
use elab_variables::Table;
use sg_text::NoMemory;
use std::alloc::Global;
use vl_tree::{Expression, Term};

/// A term is an expression of one name.
pub fn expression_of<'a>(term: &Term<'a>) -> Expression<'a>
    ensures { view_expression result ≡ def.expression_of (view_term term.now) }
{
    Expression::Signal {
        name: term.name,
        select: term.select,
    }
}

// The places of bits in the row.
fn add_places(bits: &[Bit], places: &mut Vec<usize>) -> Result<(), NoMemory>
    ensures places { (vs : List Variable) → OnOk result (bits_seen vs places.new.items ≡ bits_seen vs places.old.items ++ filter_map def.net_bit (map (view_bit vs) bits.now)) }
    ensures row { (vs : List Variable) → All (IsInRow vs) bits.now → AreInRow vs places.old.items → AreInRow vs places.new.items }
{
    for bit in bits {
        if let Bit::Net(place) = bit {
            places.push(*place)?;
        }
    }
    Ok(())
}

fn add_term(table: &Table, term: &Term, places: &mut Vec<usize>) -> Result<(), NoMemory>
    ensures places { OnOk result (bits_seen table.now places.new.items ≡ bits_seen table.now places.old.items ++ def.term_bits table.now (view_term term.now)) }
    ensures row { AreInRow table.now places.old.items → AreInRow table.now places.new.items }
{
    let mut bits = Vec::new(*places.allocator());
    add_bits(table, &expression_of(term), &mut bits)?;
    add_places(&bits, places)
}

/// The bits of terms from left to right, as places in the row of bits of the table; a name that the table hasn't and an index out of range have none. Takes memory.
pub fn terms_bits(alloc: Global, table: &Table, terms: &[Term]) -> Result<Vec<usize>, NoMemory>
    ensures bits { IfOk result (λ places. bits_seen table.now places.items ≡ def.terms_bits table.now (map view_term terms.now)) }
    ensures row { IfOk result (λ places. AreInRow table.now places.items) }
{
    let mut places = Vec::new(alloc);
    for term in terms {
        add_term(table, term, &mut places)?;
    }
    Ok(places)
}
