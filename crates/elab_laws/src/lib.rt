//! Laws of elaboration: what code that builds the circuit from the top downwards rests on.
#![tactic(auto)]

ghost use Rattle.elab_laws.specs.ElementLaws.{DrivesHaveNets, ElementsHaveNets};
ghost use Rattle.elab_laws.specs.LateLaws.{CopiesHaveNets, LatesAreInOrder};
ghost use Rattle.elab_laws.specs.Laws.{BitsHaveNets, InstancesHavePlaces, NetsHavePlaces, NumbersAreHandedDown};
ghost use Rattle.elab_laws.specs.NumberLaws.{DrivenIsNumbered, InnersHaveNets, MemberNetsHavePlaces, TerminalsAreNumbered};

/// The number of an instance is its place among the instances.
pub fn instances_have_places()
    ensures { InstancesHavePlaces }
{}

/// Each bit of each variable of each instance has a net.
pub fn bits_have_nets()
    ensures { BitsHaveNets }
{}

/// Where no module has a fault, the number of a net is its place among the nets.
pub fn nets_have_places()
    ensures { NetsHavePlaces }
{}

/// Where no module has a fault, the numbers of an instance's bits are those that are handed down, and the next that are free.
pub fn numbers_are_handed_down()
    ensures { NumbersAreHandedDown }
{}

/// Where no module has a fault, what an element reads and what it drives are nets.
pub fn elements_have_nets()
    ensures { ElementsHaveNets }
{}

/// What the stimulus drives, and what timing checks may toggle, are nets.
pub fn drives_have_nets()
    ensures { DrivesHaveNets }
{}

/// Where no module has a fault, the nets of a member have the next numbers, in order.
pub fn member_nets_have_places()
    ensures { MemberNetsHavePlaces }
{}

/// The net of each input of a gate or a primitive is that of its bit or, for a constant, the next.
pub fn terminals_are_numbered()
    ensures { TerminalsAreNumbered }
{}

/// What is driven inside in place of an output bit to which specify paths lead is a net.
pub fn inners_have_nets()
    ensures { InnersHaveNets }
{}

/// Where no module has a fault, what is driven inside at a bit is found by the bit's number.
pub fn driven_is_numbered()
    ensures { DrivenIsNumbered }
{}

/// The bit that a delayed copy of an instance copies is a net, and so is what the copy drives (IEEE 1364-2005, 15.8).
pub fn copies_have_nets()
    ensures { CopiesHaveNets }
{}

/// The elements that delay an instance's signals are one for each copy of its module, in the same order.
pub fn lates_are_in_order()
    ensures { LatesAreInOrder }
{}
