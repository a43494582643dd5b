// Nets and violations by how they are written.
ghost use Rattle.std.specs.Prelude.{◌≡◌, ◌<◌, IfOk, IfSome, bytes_eq, length, map};
ghost use Rattle.time_checks.specs.Seen.{violation_seen};
ghost use Rattle.run_report.specs.Report.{net_text, violation_line};
ghost use Rattle.why_text.specs.Finding.{net_called, violation_called};

use run_report::{push_net, push_violation};
use sg_circuit::{Circuit, NetId};
use sg_text::NoMemory;
use std::alloc::Global;
use time_checks::Violation;

fn is_net_called(
    alloc: Global,
    circuit: &Circuit,
    net: NetId,
    name: &[u8],
) -> Result<bool, NoMemory>
    ensures { IfOk result (λ is. is ≡ bytes_eq (net_text circuit.now net) name.now) }
{
    let mut text = Vec::new(alloc);
    push_net(alloc, &mut text, circuit, net)?;
    Ok(text.as_slice() == name)
}

fn count_nets(circuit: &Circuit) -> u32
    ensures count { result ≡ length circuit.now.nets }
{
    circuit.parts().nets.len() as u32
}

/// The first net whose path is a name.
pub fn find_net(alloc: Global, circuit: &Circuit, name: &[u8]) -> Result<Option<NetId>, NoMemory>
    ensures found { IfOk result (λ net. net ≡ net_called circuit.now name.now) }
    ensures within { IfOk result (λ net. IfSome net (λ n. n < length circuit.now.nets)) }
{
    for net in 0..count_nets(circuit) {
        if is_net_called(alloc, circuit, net, name)? {
            return Ok(Some(net));
        }
    }
    Ok(None)
}

fn is_violation_called(
    alloc: Global,
    circuit: &Circuit,
    violation: &Violation,
    wanted: &[u8],
) -> Result<bool, NoMemory>
    ensures { IfOk result (λ is. is ≡ bytes_eq (violation_line circuit.now (violation_seen violation.now)) wanted.now) }
{
    let mut text = Vec::new(alloc);
    push_violation(alloc, &mut text, circuit, violation)?;
    Ok(text.as_slice() == wanted)
}

/// The place of the first violation whose line of the report, without its end, is a text.
pub fn find_violation(
    alloc: Global,
    circuit: &Circuit,
    violations: &[Violation],
    name: &[u8],
) -> Result<Option<usize>, NoMemory>
    ensures found { IfOk result (λ place. place ≡ violation_called circuit.now (map (λ v. violation_seen v) violations.now) name.now) }
    ensures within { IfOk result (λ place. IfSome place (λ p. p < length violations.now)) }
{
    let mut wanted = Vec::from_slice(alloc, name)?;
    wanted.push(b'\n')?;
    for (place, violation) in violations.iter().enumerate() {
        if is_violation_called(alloc, circuit, violation, &wanted)? {
            return Ok(Some(place));
        }
    }
    Ok(None)
}
