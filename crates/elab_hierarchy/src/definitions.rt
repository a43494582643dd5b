// The definitions of a netlist, found by their names.
ghost use Rattle.std.specs.Prelude.{◌≡◌, [], IfOk, OnOk, IfErr, map};
ghost use Rattle.vl_tree.specs.Seen.{view_name, view_part};
ghost use Rattle.elab_model.specs.Definitions as def;
ghost use Rattle.elab_model.specs.Faults.{RefusesOneOf};
ghost use Rattle.elab_model.specs.HierarchyFaults.{two_definitions};

use elab_model::ElabKind;
use indexmap::IndexSet;
use sg_text::Refused;
use std::alloc::Global;
use std::marker::Model;
use vl_tree::{Name, Part, Source};

/// The modules and primitives of a netlist, each of another name. It is seen as the list of them.
#[derive(Debug, Drop)]
pub struct Definitions<'t, 'a> {
    source: &'t Source<'a>,
    names: IndexSet<&'a [u8]>,
}

impl<'t, 'a> Model for Definitions<'t, 'a> {
    ghost use Rattle.vl_tree.specs.Tree.{Source as Seen};
    ghost use Rattle.vl_tree.specs.Seen.{view_source};
    ghost use Rattle.std.specs.Coded.{codes};
    ghost use Rattle.elab_hierarchy.specs.Codes.{coded_expression};
    ghost use Rattle.elab_hierarchy.specs.Named.{AreNames};

    ghost Value = { Seen };

    ghost coded = { Prim.hlevel (codes, coded_expression) };

    ghost view = { λ d. view_source d.source.now };

    ghost invariant = { λ d. AreNames d.names.keys (view_source d.source.now) };
}

impl<'t, 'a> Definitions<'t, 'a> {
    ghost use Rattle.std.specs.Prelude.{◌≡◌, ◌<◌, [], IfOk, OnOk, IfErr, IfSome, IfNone, length, map, slice_get, Some, None};
    ghost use Rattle.vl_tree.specs.Tree.{Module};
    ghost use Rattle.vl_tree.specs.Seen.{view_source, view_part};
    ghost use Rattle.elab_model.specs.Definitions.{module_of};
    ghost use Rattle.elab_model.specs.Faults.{RefusesOneOf};
    ghost use Rattle.elab_model.specs.HierarchyFaults.{two_definitions};
    ghost use Rattle.elab_hierarchy.specs.Named.{place_of};
    ghost use Rattle.elab_hierarchy.specs.Tops.{StandsAt};

    /// The definitions of a netlist. Two of one name are refused (DuplicateName), at the second. Takes memory in proportion to their number.
    pub fn of(
        alloc: Global,
        source: &'t Source<'a>,
    ) -> Result<Definitions<'t, 'a>, Refused<ElabKind>>
        ensures definitions { IfOk result (λ d. d ≡ view_source source.now) }
        ensures faultless { OnOk result (two_definitions (view_source source.now) ≡ []) }
        ensures refused { IfErr result (RefusesOneOf (two_definitions (view_source source.now))) }
    {
        let names = names_of(alloc, &source.parts)?;
        Ok(Definitions { source, names })
    }

    /// How many there are. No two have one name.
    pub fn len(&self) -> usize
        ensures count { result ≡ length self.now }
        ensures once { two_definitions self.now ≡ [] }
    {
        self.source.parts.len()
    }

    /// The place of the definition of a name.
    pub fn find(&self, name: &[u8]) -> Option<usize>
        ensures { result ≡ place_of self.now name.now }
    {
        self.names.get_index_of(name)
    }

    /// The place of the module of a name.
    pub fn module(&self, name: &[u8]) -> Option<usize>
        ensures found { IfSome result (λ place. (place < length self.now) × ((m : Module) × (module_of self.now name.now ≡ Some m) × StandsAt self.now place m)) }
        ensures none { IfNone result (module_of self.now name.now ≡ None) }
    {
        match self.find(name) {
            Some(place) => match self.part(place) {
                Part::Module(_) => Some(place),
                Part::Primitive(_) => None,
            },
            None => None,
        }
    }

    /// All of them, in text order.
    pub fn parts(&self) -> &'t [Part<'a>]
        ensures { map view_part result.now ≡ self.now }
    {
        &self.source.parts
    }

    /// The definition at a place.
    pub fn part(&self, place: usize) -> &'t Part<'a>
        requires { place < length self.now }
        ensures { slice_get self.now place ≡ Some (view_part result.now) }
    {
        &self.source.parts[place]
    }
}

fn names_of<'a>(alloc: Global, parts: &[Part<'a>]) -> Result<IndexSet<&'a [u8]>, Refused<ElabKind>>
    ensures names { IfOk result (λ set. map (λ n. n.now) set.keys ≡ map (λ p. (def.name_of p).text) (map view_part parts.now)) }
    ensures faultless { OnOk result (two_definitions (map view_part parts.now) ≡ []) }
    ensures refused { IfErr result (RefusesOneOf (two_definitions (map view_part parts.now))) }
{
    let mut names: IndexSet<&[u8]> = IndexSet::new(alloc);
    for part in parts {
        let name = name_of(part);
        if !names.insert(name.text)? {
            return Err(Refused::Fault {
                kind: ElabKind::DuplicateName,
                place: name.place,
            });
        }
    }
    Ok(names)
}

fn name_of<'a>(part: &Part<'a>) -> Name<'a>
    ensures { view_name result ≡ def.name_of (view_part part.now) }
{
    match part {
        Part::Module(module) => module.name,
        Part::Primitive(primitive) => primitive.name,
    }
}
