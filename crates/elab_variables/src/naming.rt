// The names of a module's variables, each once.
ghost use Rattle.std.specs.Prelude.{◌≡◌, ◌∷◌, [], ℕ, List, OnOk, IfOk, map, flat_map};
ghost use Rattle.elab_model.specs.Leaves.{leaf_of};
ghost use Rattle.elab_model.specs.Names.{variable_names, whole_name, whole_names};
ghost use Rattle.elab_model.specs.Ports.{net_declarations};
ghost use Rattle.elab_declared.specs.Words.{view_net};
ghost use Rattle.elab_variables.specs.Naming.{key_texts, with_names, names_in, names_where};
ghost use Rattle.vl_tree.specs.Seen.{view_name, view_expression, view_module};

use elab_declared::{NetDeclaration, port_list};
use indexmap::IndexSet;
use sg_text::NoMemory;
use std::alloc::Global;
use vl_tree::{
    Check, Connections, Expression, GateInstance, Instance, Item, Join, Module, Name,
    NamedConnection, NetName, Select, SpecifyItem,
};

/// What names variables: it declares them, or uses them whole.
pub trait Naming<'a> {
    ghost names: { Self → List (List ℕ) };

    fn add_to(&self, known: &mut IndexSet<&'a [u8]>) -> Result<(), NoMemory>
        ensures { OnOk result (key_texts known.new.keys ≡ with_names (key_texts known.old.keys) (names self.now)) };
}

fn add_all<'a, P: Naming<'a>>(parts: &[P], known: &mut IndexSet<&'a [u8]>) -> Result<(), NoMemory>
    ensures { OnOk result (key_texts known.new.keys ≡ with_names (key_texts known.old.keys) (flat_map P.names parts.now)) }
{
    for part in parts {
        part.add_to(known)?;
    }
    Ok(())
}

fn add_name<'a>(name: &'a [u8], known: &mut IndexSet<&'a [u8]>) -> Result<(), NoMemory>
    ensures { OnOk result (key_texts known.new.keys ≡ with_names (key_texts known.old.keys) (name.now ∷ [])) }
{
    known.insert(name)?;
    Ok(())
}

fn add_leaf<'a>(
    name: Name<'a>,
    select: Option<Select>,
    known: &mut IndexSet<&'a [u8]>,
) -> Result<(), NoMemory>
    ensures { OnOk result (key_texts known.new.keys ≡ with_names (key_texts known.old.keys) (whole_name (leaf_of (view_name name.entry) select))) }
{
    match select {
        None => add_name(name.text, known),
        Some(_) => Ok(()),
    }
}

fn add_expression<'a>(
    expression: &Expression<'a>,
    known: &mut IndexSet<&'a [u8]>,
) -> Result<(), NoMemory>
    ensures { OnOk result (key_texts known.new.keys ≡ with_names (key_texts known.old.keys) (names_in (view_expression expression.now))) }
{
    match expression {
        Expression::Signal { name, select } => add_leaf(*name, *select, known),
        Expression::Sized { .. } => Ok(()),
        Expression::Concatenation { parts, .. } => {
            for part in parts {
                add_expression(part, known)?;
            }
            Ok(())
        }
    }
}

/// The names of a module's variables: its ports, then declared nets, then implicit nets by first use. Takes memory.
pub fn variable_names_of<'a>(
    alloc: Global,
    definition: &Module<'a>,
    nets: &[NetDeclaration<'a>],
) -> Result<IndexSet<&'a [u8]>, NoMemory>
    requires { map view_net nets.now ≡ net_declarations (view_module definition.now) }
    ensures { IfOk result (λ known. key_texts known.keys ≡ variable_names (view_module definition.now)) }
{
    let ports = port_list(alloc, definition)?;
    let mut known = IndexSet::new(alloc);
    add_all(&ports, &mut known)?;
    add_all(nets, &mut known)?;
    add_implicit(definition, &mut known)?;
    Ok(known)
}

fn add_implicit<'a>(definition: &Module<'a>, known: &mut IndexSet<&'a [u8]>) -> Result<(), NoMemory>
    ensures { OnOk result (key_texts known.new.keys ≡ with_names (key_texts known.old.keys) (names_where definition.now.mark.implicit (whole_names (view_module definition.now)))) }
{
    if definition.mark.implicit {
        add_all(&definition.items, known)?;
    }
    Ok(())
}

impl<'a> Naming<'a> for Name<'a> {
    ghost use Rattle.std.specs.Prelude.{◌∷◌, []};

    ghost names = { λ n. n.text.now ∷ [] };

    fn add_to(&self, known: &mut IndexSet<&'a [u8]>) -> Result<(), NoMemory> {
        add_name(self.text, known)
    }
}

impl<'a> Naming<'a> for NetDeclaration<'a> {
    ghost use Rattle.std.specs.Prelude.{◌∷◌, []};

    ghost names = { λ d. d.name.text.now ∷ [] };

    fn add_to(&self, known: &mut IndexSet<&'a [u8]>) -> Result<(), NoMemory> {
        add_name(self.name.text, known)
    }
}

impl<'a> Naming<'a> for Expression<'a> {
    ghost use Rattle.vl_tree.specs.Seen.{view_expression};
    ghost use Rattle.elab_variables.specs.Naming.{names_in};

    ghost names = { λ e. names_in (view_expression e) };

    fn add_to(&self, known: &mut IndexSet<&'a [u8]>) -> Result<(), NoMemory> {
        add_expression(self, known)
    }
}

impl<'a> Naming<'a> for Option<Expression<'a>> {
    ghost use Rattle.std.specs.Option.{option_map};
    ghost use Rattle.vl_tree.specs.Seen.{view_expression};
    ghost use Rattle.elab_variables.specs.Naming.{names_if};

    ghost names = { λ e. names_if (option_map view_expression e) };

    fn add_to(&self, known: &mut IndexSet<&'a [u8]>) -> Result<(), NoMemory> {
        match self {
            Some(expression) => add_expression(expression, known),
            None => Ok(()),
        }
    }
}

impl<'a> Naming<'a> for NetName<'a> {
    ghost use Rattle.std.specs.Option.{option_map};
    ghost use Rattle.vl_tree.specs.Seen.{view_expression};
    ghost use Rattle.elab_variables.specs.Naming.{names_at_net};

    ghost names = { λ n. names_at_net n.name.text.now (option_map view_expression n.value) };

    fn add_to(&self, known: &mut IndexSet<&'a [u8]>) -> Result<(), NoMemory> {
        match &self.value {
            Some(value) => {
                add_name(self.name.text, known)?;
                add_expression(value, known)
            }
            None => Ok(()),
        }
    }
}

impl<'a> Naming<'a> for Join<'a> {
    ghost use Rattle.vl_tree.specs.Seen.{view_join};
    ghost use Rattle.elab_model.specs.Members.{assignment};
    ghost use Rattle.elab_variables.specs.Naming.{names_of_member};

    ghost names = { λ j. names_of_member (assignment (view_join j)) };

    fn add_to(&self, known: &mut IndexSet<&'a [u8]>) -> Result<(), NoMemory> {
        add_expression(&self.left, known)?;
        add_expression(&self.right, known)
    }
}

impl<'a> Naming<'a> for GateInstance<'a> {
    ghost use Rattle.std.specs.Prelude.{flat_map};
    ghost use Rattle.vl_tree.specs.Seen.{view_gate_instance};
    ghost use Rattle.elab_variables.specs.Naming.{names_in};

    ghost names = { λ g. flat_map names_in (view_gate_instance g).terminals };

    fn add_to(&self, known: &mut IndexSet<&'a [u8]>) -> Result<(), NoMemory> {
        add_all(&self.terminals, known)
    }
}

impl<'a> Naming<'a> for NamedConnection<'a> {
    ghost use Rattle.std.specs.Option.{option_map};
    ghost use Rattle.vl_tree.specs.Seen.{view_expression};
    ghost use Rattle.elab_variables.specs.Naming.{names_if};

    ghost names = { λ c. names_if (option_map view_expression c.value) };

    fn add_to(&self, known: &mut IndexSet<&'a [u8]>) -> Result<(), NoMemory> {
        self.value.add_to(known)
    }
}

impl<'a> Naming<'a> for Instance<'a> {
    ghost use Rattle.std.specs.Prelude.{flat_map};
    ghost use Rattle.vl_tree.specs.Seen.{view_connections};
    ghost use Rattle.elab_model.specs.Members.{connection_values};
    ghost use Rattle.elab_variables.specs.Naming.{names_in};

    ghost names = { λ i. flat_map names_in (connection_values (view_connections i.connections)) };

    fn add_to(&self, known: &mut IndexSet<&'a [u8]>) -> Result<(), NoMemory> {
        match &self.connections {
            Connections::Ordered(values) => add_all(values, known),
            Connections::Named(values) => add_all(values, known),
        }
    }
}

impl<'a> Naming<'a> for Option<Name<'a>> {
    ghost use Rattle.std.specs.Prelude.{flat_map};
    ghost use Rattle.std.specs.Option.{option_map};
    ghost use Rattle.vl_tree.specs.Seen.{view_name};
    ghost use Rattle.elab_variables.specs.Naming.{names_listed};

    ghost names = { λ n. names_listed (option_map view_name n) };

    fn add_to(&self, known: &mut IndexSet<&'a [u8]>) -> Result<(), NoMemory> {
        match self {
            Some(name) => add_name(name.text, known),
            None => Ok(()),
        }
    }
}

impl<'a> Naming<'a> for Check<'a> {
    ghost use Rattle.vl_tree.specs.Seen.{view_check};
    ghost use Rattle.elab_model.specs.Members.{check};
    ghost use Rattle.elab_variables.specs.Naming.{names_of_member};

    ghost names = { λ c. names_of_member (check (view_check c)) };

    fn add_to(&self, known: &mut IndexSet<&'a [u8]>) -> Result<(), NoMemory> {
        match self {
            Check::TwoLimits {
                delayed_reference,
                delayed_data,
                ..
            } => {
                delayed_reference.add_to(known)?;
                delayed_data.add_to(known)
            }
            Check::OneLimit { .. } => Ok(()),
            Check::Width { .. } => Ok(()),
            Check::Period { .. } => Ok(()),
        }
    }
}

impl<'a> Naming<'a> for SpecifyItem<'a> {
    ghost use Rattle.vl_tree.specs.Seen.{view_specify_item};
    ghost use Rattle.elab_variables.specs.Naming.{names_of_specify};

    ghost names = { λ i. names_of_specify (view_specify_item i) };

    fn add_to(&self, known: &mut IndexSet<&'a [u8]>) -> Result<(), NoMemory> {
        match self {
            SpecifyItem::Check(check) => check.add_to(known),
            SpecifyItem::Specparams { .. } => Ok(()),
            SpecifyItem::Path(_) => Ok(()),
            SpecifyItem::PulseStyle { .. } => Ok(()),
        }
    }
}

impl<'a> Naming<'a> for Item<'a> {
    ghost use Rattle.std.specs.Prelude.{flat_map};
    ghost use Rattle.vl_tree.specs.Seen.{view_item};
    ghost use Rattle.elab_model.specs.Members.{members_of_item};
    ghost use Rattle.elab_variables.specs.Naming.{names_of_member};

    ghost names = { λ i. flat_map names_of_member (members_of_item (view_item i)) };

    fn add_to(&self, known: &mut IndexSet<&'a [u8]>) -> Result<(), NoMemory> {
        match self {
            Item::Nets { names, .. } => add_all(names, known),
            Item::Assigns { joins, .. } => add_all(joins, known),
            Item::Gates { instances, .. } => add_all(instances, known),
            Item::Instances { instances, .. } => add_all(instances, known),
            Item::Ports { .. } => Ok(()),
            Item::Supplies { .. } => Ok(()),
            Item::Registers { .. } => Ok(()),
            Item::Specify(block) => add_all(&block.items, known),
        }
    }
}
