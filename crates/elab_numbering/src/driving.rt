// The table of first drivers.
ghost use Rattle.std.specs.Prelude.{◌≡◌, ◌<◌, ◌^◌, ◌++◌, ℕ, List, map, take, length, All, OnOk, IfErr, slice_index_or};
ghost use Rattle.std.specs.List.{IsAmong};
ghost use Rattle.elab_numbering.specs.Driving.{NumberedDrive, StandsFor, IsOutside, IsTaken, Notes, says_nobody, by_stimulus, by_elements, IsSecond, DrivesRegs};

use sg_circuit::{Driver, Element, NetId};

/// Notes that something drives a net, unless the net has a driver.
fn note(drivers: &mut Vec<Driver>, net: NetId, driver: Driver) -> bool
    requires within { net < length drivers.old.items }
    requires outside { IsOutside driver }
    ensures nets { length drivers.new.items ≡ length drivers.old.items }
    ensures noted { (ds : List NumberedDrive) → StandsFor drivers.old.items ds → Notes ds (record { driver = driver; net = net }) drivers.new.items result }
{
    let net = net as usize;
    if !is_nobody(drivers[net]) {
        return false;
    }
    drivers[net] = driver;
    true
}

fn is_nobody(driver: Driver) -> bool
    ensures { result ≡ says_nobody driver }
{
    match driver {
        Driver::Nobody => true,
        Driver::Stimulus | Driver::Element(_) | Driver::Notifier => false,
    }
}

/// Notes that the stimulus drives these nets. Else answers the place of the first that has a driver already.
pub fn drive_inputs(inputs: &[NetId], drivers: &mut Vec<Driver>) -> Result<(), usize>
    requires within { All (λ n. n < length drivers.old.items) inputs.now }
    ensures nets { length drivers.new.items ≡ length drivers.old.items }
    ensures noted { OnOk result ((ds : List NumberedDrive) → StandsFor drivers.old.items ds → StandsFor drivers.new.items (ds ++ map by_stimulus inputs.now)) }
    ensures taken { IfErr result (λ i. (ds : List NumberedDrive) → StandsFor drivers.old.items ds → IsTaken (slice_index_or inputs.now i 0) (ds ++ map by_stimulus (take i inputs.now))) }
    ensures place { IfErr result (λ i. i < length inputs.now) }
{
    for (place, input) in inputs.iter().enumerate() {
        if !note(drivers, *input, Driver::Stimulus) {
            return Err(place);
        }
    }
    Ok(())
}

/// Notes that each element drives its output. Else answers the first element that is the second driver of its net.
pub fn drive_outputs(elements: &[Element], drivers: &mut Vec<Driver>) -> Result<(), u32>
    requires few { length elements.now < 2 ^ 32 }
    requires within { All (λ e. e.output < length drivers.old.items) elements.now }
    ensures nets { length drivers.new.items ≡ length drivers.old.items }
    ensures noted { OnOk result ((ds : List NumberedDrive) → StandsFor drivers.old.items ds → StandsFor drivers.new.items (ds ++ by_elements 0 (map (λ e. e.output) elements.now))) }
    ensures second { IfErr result (λ j. (ds : List NumberedDrive) → StandsFor drivers.old.items ds → IsSecond ds (map (λ e. e.output) elements.now) j) }
    ensures place { IfErr result (λ j. j < length elements.now) }
{
    for (place, element) in elements.iter().enumerate() {
        if !note(drivers, element.output, Driver::Element(place as u32)) {
            return Err(place as u32);
        }
    }
    Ok(())
}

/// Notes that timing checks may toggle these nets. Else answers the first that something else drives.
pub fn drive_regs(regs: &[NetId], drivers: &mut Vec<Driver>) -> Result<(), NetId>
    requires within { All (λ n. n < length drivers.old.items) regs.now }
    ensures nets { length drivers.new.items ≡ length drivers.old.items }
    ensures noted { OnOk result ((ds : List NumberedDrive) → StandsFor drivers.old.items ds → DrivesRegs drivers.new.items ds regs.now) }
    ensures taken { IfErr result (λ n. (ds : List NumberedDrive) → StandsFor drivers.old.items ds → IsTaken n ds) }
    ensures among { IfErr result (λ n. IsAmong regs.now n) }
{
    for reg in regs {
        let net = *reg as usize;
        match drivers[net] {
            Driver::Nobody => drivers[net] = Driver::Notifier,
            Driver::Notifier => {}
            Driver::Stimulus | Driver::Element(_) => return Err(*reg),
        }
    }
    Ok(())
}
