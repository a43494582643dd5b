// Circuits as lines: the tick as a power of ten of a second, nets, elements, timing checks and scopes by their numbers.
use anyhow::Context;
use sg_circuit::{
    Check, CheckConditions, CheckTiming, Circuit, Driver, Element, ElementKind, Event, Net, Parts,
    Path, PathCondition, Scope, Terminal, Variable,
};
use sg_delay::Limit;
use sg_logic::Edge;
use sg_text::Text;

/// Adds a circuit's lines to a text.
pub fn show_circuit(circuit: &Circuit, out: &mut String) -> anyhow::Result<()> {
    let parts = circuit.parts();
    let tick = parts.tick.power;
    writeln!(out, "tick {tick}")?;
    for (number, net) in parts.nets.iter().enumerate() {
        write!(out, "net {number} ")?;
        show_net(net, out)?;
    }
    for (number, element) in parts.elements.iter().enumerate() {
        write!(out, "element {number} ")?;
        show_element(parts, element, out)?;
    }
    for (number, check) in parts.checks.iter().enumerate() {
        write!(out, "check {number} ")?;
        show_check(check, out)?;
        show_what_it_looks_for(parts, number, out)?;
    }
    for zero in &parts.zeroed {
        let check = zero.check;
        let part = zero.part;
        let value = zero.value;
        writeln!(out, "zeroed {check} {part} {value}")?;
    }
    for (number, scope) in parts.scopes.iter().enumerate() {
        write!(out, "scope {number} ")?;
        show_scope(scope, out)?;
    }
    Ok(())
}

fn show_text(text: &Text, out: &mut String) -> anyhow::Result<()> {
    let text = std::str::from_utf8(text.bytes()).unwrap_or("?");
    write!(out, "{text}")?;
    Ok(())
}

fn show_net(net: &Net, out: &mut String) -> anyhow::Result<()> {
    show_text(&net.name, out)?;
    if let Some(bit) = net.bit {
        write!(out, "[{bit}]")?;
    }
    let scope = net.scope;
    write!(out, " of {scope} by ")?;
    match net.driver {
        Driver::Nobody => writeln!(out, "nobody")?,
        Driver::Stimulus => writeln!(out, "stimulus")?,
        Driver::Element(element) => writeln!(out, "{element}")?,
        Driver::Notifier => writeln!(out, "checks")?,
    }
    Ok(())
}

fn show_delays(parts: &Parts, place: u32, out: &mut String) -> anyhow::Result<()> {
    if let Some(delays) = parts.gate_delays.get(place as usize) {
        for delay in delays.at.iter().take(usize::from(delays.count)) {
            write!(out, " #{delay}")?;
        }
    }
    Ok(())
}

fn show_element(parts: &Parts, element: &Element, out: &mut String) -> anyhow::Result<()> {
    match element.kind {
        ElementKind::Gate { kind, delays } => {
            write!(out, "{kind:?}")?;
            show_delays(parts, delays, out)?;
        }
        ElementKind::Udp { udp, delays } => {
            write!(out, "Udp {udp}")?;
            show_delays(parts, delays, out)?;
        }
        ElementKind::Pass { constant: None } => write!(out, "Pass")?,
        ElementKind::Pass {
            constant: Some(value),
        } => write!(out, "{value:?}")?,
        ElementKind::Leg { timing } => write!(out, "Leg {timing}")?,
        ElementKind::Path { style, .. } => write!(out, "Path {style:?}")?,
        ElementKind::Late { delay } => write!(out, "Late #{delay}")?,
    }
    for input in &element.inputs {
        write!(out, " {input}")?;
    }
    let output = element.output;
    let scope = element.scope;
    writeln!(out, " -> {output} in {scope}")?;
    if let ElementKind::Path { paths, .. } = element.kind {
        let span = paths.start as usize..paths.end as usize;
        for path in parts.paths.get(span).context("no such paths")? {
            show_path(parts, path, out)?;
        }
    }
    Ok(())
}

// A path: its input, which of the six changes of an edge it is for, the place of its condition, and its delays, with the limits of the first transition where a text gives them.
fn show_path(parts: &Parts, path: &Path, out: &mut String) -> anyhow::Result<()> {
    let input = path.input;
    write!(out, "  from {input}")?;
    show_edge(path.edge, out)?;
    match &path.condition {
        PathCondition::Always => {}
        PathCondition::If { written, .. } => write!(out, " if {written}")?,
        PathCondition::IfNone => write!(out, " ifnone")?,
    }
    if let Some(timing) = parts.leg_timings.get(path.timing) {
        write!(out, ":")?;
        for delay in timing.delays.at {
            write!(out, " {delay}")?;
        }
        if let Limit::Own(widths) = timing.limits.at[0] {
            write!(out, " limits {} {}", widths.reject, widths.error)?;
        }
    }
    writeln!(out, "")?;
    Ok(())
}

fn show_edge(edge: Option<Edge>, out: &mut String) -> anyhow::Result<()> {
    if let Some(edge) = edge {
        write!(out, " edge")?;
        for has in edge.has {
            write!(out, " {}", u8::from(has))?;
        }
    }
    Ok(())
}

fn show_terminal(terminal: &Terminal, out: &mut String) -> anyhow::Result<()> {
    show_text(&terminal.name, out)?;
    if let Some(bit) = terminal.bit {
        write!(out, "[{bit}]")?;
    }
    Ok(())
}

fn show_check(check: &Check, out: &mut String) -> anyhow::Result<()> {
    let kind = check.kind;
    let scope = check.scope;
    write!(out, "{kind:?} in {scope}: ")?;
    show_terminal(&check.refer, out)?;
    if let Some(datum) = &check.datum {
        write!(out, " ")?;
        show_terminal(datum, out)?;
    }
    if let Some(notifier) = check.notifier {
        write!(out, ", notifier {notifier}")?;
    }
    writeln!(out, "")?;
    Ok(())
}

fn show_what_it_looks_for(parts: &Parts, number: usize, out: &mut String) -> anyhow::Result<()> {
    if let Some(timing) = parts.check_timings.get(number) {
        if let Some(written) = parts.check_conditions.get(number) {
            show_timing(timing, written, out)?;
        }
    }
    Ok(())
}

fn show_timing(
    timing: &CheckTiming,
    written: &CheckConditions,
    out: &mut String,
) -> anyhow::Result<()> {
    write!(out, "  limits")?;
    for limit in timing.limits {
        write!(out, " {limit}")?;
    }
    let threshold = timing.threshold;
    write!(out, " threshold {threshold}")?;
    if let Some(lates) = timing.late {
        let [refer, datum] = lates;
        write!(out, " late {refer} {datum}")?;
    }
    writeln!(out, "")?;
    show_event(&timing.refer, written.refer, out)?;
    if let Some(event) = &timing.datum {
        show_event(event, written.datum, out)?;
    }
    Ok(())
}

// An event: its net, which of the six changes it is, and the place of its condition.
fn show_event(event: &Event, written: Option<usize>, out: &mut String) -> anyhow::Result<()> {
    let net = event.net;
    write!(out, "  on {net}")?;
    show_edge(event.edge, out)?;
    if let Some(written) = written {
        write!(out, " if {written}")?;
    }
    writeln!(out, "")?;
    Ok(())
}

fn show_scope(scope: &Scope, out: &mut String) -> anyhow::Result<()> {
    show_text(&scope.name, out)?;
    write!(out, " is ")?;
    show_text(&scope.module, out)?;
    if let Some(parent) = scope.parent {
        write!(out, " in {parent}")?;
    }
    if scope.leaf {
        write!(out, ", a leaf")?;
    }
    let unit = scope.scale.unit.power;
    let precision = scope.scale.precision.power;
    writeln!(out, ", {unit} {precision}")?;
    for variable in &scope.variables {
        show_variable(variable, out)?;
    }
    Ok(())
}

fn show_variable(variable: &Variable, out: &mut String) -> anyhow::Result<()> {
    write!(out, "  ")?;
    show_text(&variable.name, out)?;
    if let Some(range) = variable.range {
        let left = range.left;
        let right = range.right;
        write!(out, "[{left}:{right}]")?;
    }
    let port = variable.port;
    let reg = if variable.reg { " reg" } else { "" };
    write!(out, " {port:?}{reg}:")?;
    for bit in &variable.bits {
        write!(out, " {bit}")?;
    }
    writeln!(out, "")?;
    Ok(())
}
