// The signals of scopes, and their numbers.
ghost use Rattle.std.specs.Prelude.{◌≡◌, ◌<◌, ◌≤◌, ◌++◌, ◌∷◌, ◌^◌, ◌↔◌, [], IfOk, OnOk, IsTrue, length, slice_index};
ghost use Rattle.sg_circuit.specs.Pins.{with_number};
ghost use Rattle.late_limits.specs.Numbering.{ArePlaced, IsLonger};
ghost use Rattle.late_limits.specs.Pairs.{signal_number};

use sg_circuit::NetId;
use sg_text::NoMemory;
use std::alloc::Global;
use std::marker::Model;

fn is_at(nets: &[NetId], place: u32, net: NetId) -> bool
    ensures { IsTrue result ↔ (place < length nets.now) × (slice_index nets.now place ≡ net) }
{
    let place = place as usize;
    place < nets.len() && nets[place] == net
}

// The place of a net among others, or how many they are.
fn place_of(nets: &[NetId], places: &[u32], net: NetId) -> u32
    requires { ArePlaced nets.now places.now }
    ensures { result ≡ signal_number nets.now net }
{
    let count = nets.len() as u32;
    let Some(place) = places.get(net as usize) else {
        return count;
    };
    if is_at(nets, *place, net) {
        *place
    } else {
        count
    }
}

// Makes the places long enough for a net.
fn make_room(places: &mut Vec<u32>, net: NetId) -> Result<(), NoMemory>
    ensures kept { IsLonger places.old.items places.new.items }
    ensures room { OnOk result (net < length places.new.items) }
{
    let needed = net as usize + 1;
    if places.len() < needed {
        places.resize(needed, 0)?;
    }
    Ok(())
}

// Adds a net that isn't among the others.
fn add_net(nets: &mut Vec<NetId>, places: &mut Vec<u32>, net: NetId) -> Result<(), NoMemory>
    requires placed { ArePlaced nets.old.items places.old.items }
    requires new { signal_number nets.old.items net ≡ length nets.old.items }
    ensures placed { ArePlaced nets.new.items places.new.items }
    ensures added { OnOk result (nets.new.items ≡ nets.old.items ++ net ∷ []) }
{
    let number = nets.len() as u32;
    if number == u32::MAX {
        return Err(NoMemory);
    }
    make_room(places, net)?;
    nets.push(net)?;
    places[net as usize] = number;
    Ok(())
}

/// The signals of one scope at a time. They are numbered as they are met.
#[derive(Drop)]
pub(crate) struct Signals {
    nets: Vec<NetId>,
    // at a net's number its place among the nets, if it is one of them, else anything
    places: Vec<u32>,
}

impl Model for Signals {
    ghost use Rattle.std.specs.Prelude.{ℕ, List};
    ghost use Rattle.late_limits.specs.Numbering.{ArePlaced};

    ghost Value = { List ℕ };

    ghost view = { λ s. s.nets.items };

    ghost invariant = { λ s. ArePlaced s.nets.items s.places.items };
}

impl Signals {
    pub fn new(alloc: Global) -> Signals
        ensures { result ≡ [] }
    {
        Signals {
            nets: Vec::new(alloc),
            places: Vec::new(alloc),
        }
    }

    /// Forgets them, in no time.
    pub fn clear(&mut self)
        ensures { self.new ≡ [] }
    {
        self.nets.clear();
    }

    /// Gives a net the next number, if it has none. `NoMemory` too where there are 2^32 - 1 signals.
    pub fn meet(&mut self, net: NetId) -> Result<(), NoMemory>
        ensures { OnOk result (self.new ≡ with_number self.old net) }
    {
        if place_of(&self.nets, &self.places, net) < self.nets.len() as u32 {
            return Ok(());
        }
        add_net(&mut self.nets, &mut self.places, net)
    }

    /// The number of a net; of one that wasn't met it is how many were.
    pub fn number(&self, net: NetId) -> u32
        ensures { result ≡ signal_number self.now net }
    {
        place_of(&self.nets, &self.places, net)
    }

    pub fn count(&self) -> u32
        ensures { result ≡ length self.now }
    {
        self.nets.len() as u32
    }
}
