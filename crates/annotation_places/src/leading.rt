// What leads to a net.
ghost use Rattle.std.specs.Prelude.{◌≡◌, ◌+◌, ◌-◌, ◌<◌, ◌++◌, All, OnOk, length};
ghost use Rattle.std.specs.List.{range_with_len};
ghost use Rattle.sg_circuit.specs.Closed.{IfElement};
ghost use Rattle.annotation_places.specs.Places.{ArePlaces, led_by, lookups_of};

use crate::places::Places;
use sg_circuit::Driver;
use sg_text::NoMemory;

fn add_numbers(first: u32, end: u32, found: &mut Vec<u32>) -> Result<(), NoMemory>
    ensures { OnOk result (found.new.items ≡ found.old.items ++ range_with_len first (end - first)) }
{
    for number in first..end {
        found.push(number)?;
    }
    Ok(())
}

// Adds the numbers of what leads to the output of an element, the one that drives a net.
fn add_led(firsts: &[u32], driver: Driver, found: &mut Vec<u32>) -> Result<(), NoMemory>
    requires { IfElement driver (λ e. e + 1 < length firsts.now) }
    ensures { OnOk result (found.new.items ≡ found.old.items ++ led_by firsts.now driver) }
{
    match driver {
        Driver::Element(element) => {
            let place = element as usize;
            add_numbers(firsts[place], firsts[place + 1], found)
        }
        _ => Ok(()),
    }
}

impl Places<'_> {
    /// Adds the numbers of the legs and paths that lead to a net.
    pub fn add_leading(&self, net: u32, found: &mut Vec<u32>) -> Result<(), NoMemory>
        requires places { ArePlaces self.now }
        ensures items { OnOk result (found.new.items ≡ found.old.items ++ (lookups_of self.now).leading net) }
        ensures within { All (λ k. k < length self.now.spots.items) ((lookups_of self.now).leading net) }
    {
        let Some(net) = self.parts.nets.get(net as usize) else {
            return Ok(());
        };
        add_led(&self.firsts, net.driver, found)
    }
}
