// The header of a dump.
ghost use Rattle.std.specs.Prelude.{◌≡◌, ◌++◌, ◌+◌, ◌<◌, ◌^◌, ◌∷◌, ℕ, All, List, IfOk, OnOk, codes, decimal, length, map};
ghost use Rattle.sg_circuit.specs.Seen.{circuit_seen, scope_seen, variable_seen};
ghost use Rattle.wave_out.specs.Scopes.{visits};
ghost use Rattle.wave_out.specs.Texts.{by_number, written_name};
ghost use Rattle.wave_out.specs.Vcd.{code, declaration, header, range_text, scope_line, type_text, visit_lines};
ghost use Rattle.wave_out.specs.Walk.{IsVisit};

use crate::scopes::Visit;
use crate::words::{push_code, push_name, push_number, push_range, push_tick};
use sg_circuit::{Circuit, Parts, Scope, Variable};
use sg_text::NoMemory;
use std::alloc::{AllocError, Global};

fn type_word(reg: bool) -> &'static str
    ensures { result.now ≡ type_text reg }
{
    if reg { "$var reg " } else { "$var wire " }
}

// The type, the width and the code of the k-th variable.
fn push_type(text: &mut Vec<u8>, k: usize, variable: &Variable) -> Result<(), AllocError>
    ensures { OnOk result (text.new.items ≡ text.old.items ++ (type_text variable.now.reg ++ decimal (length variable.now.bits.items) ++ codes " " ++ code k ++ codes " ")) }
{
    text.extend_from_slice(type_word(variable.reg).as_bytes())?;
    push_number(text, variable.bits.len() as u64)?;
    text.push(b' ')?;
    push_code(text, k)?;
    text.push(b' ')?;
    Ok(())
}

// Its name and its range.
fn push_reference(text: &mut Vec<u8>, variable: &Variable) -> Result<(), AllocError>
    ensures { OnOk result (text.new.items ≡ text.old.items ++ (written_name variable.now.name ++ range_text variable.now.range ++ codes " $end\n")) }
{
    push_name(text, variable.name.bytes())?;
    push_range(text, variable.range)?;
    text.extend_from_slice(b" $end\n")?;
    Ok(())
}

fn push_declaration(text: &mut Vec<u8>, k: usize, variable: &Variable) -> Result<(), AllocError>
    ensures { OnOk result (text.new.items ≡ text.old.items ++ declaration k (variable_seen variable.now)) }
{
    push_type(text, k, variable)?;
    push_reference(text, variable)
}

// The declarations of variables, from the k-th on.
fn push_declarations(text: &mut Vec<u8>, k: usize, variables: &[Variable]) -> Result<(), AllocError>
    requires { k + length variables.now < 2 ^ 64 }
    ensures { OnOk result (text.new.items ≡ text.old.items ++ by_number declaration k (map (λ v. variable_seen v) variables.now)) }
{
    for (i, variable) in variables.iter().enumerate() {
        push_declaration(text, k + i, variable)?;
    }
    Ok(())
}

fn push_scope(text: &mut Vec<u8>, name: &[u8]) -> Result<(), AllocError>
    ensures { OnOk result (text.new.items ≡ text.old.items ++ scope_line name.now) }
{
    text.extend_from_slice(b"$scope module ")?;
    push_name(text, name)?;
    text.extend_from_slice(b" $end\n")?;
    Ok(())
}

// The lines of a scope that is entered, where k variables were declared before; and how many are then.
fn push_entered(text: &mut Vec<u8>, k: usize, scope: &Scope) -> Result<usize, NoMemory>
    ensures text { OnOk result (text.new.items ≡ text.old.items ++ (scope_line scope.now.name ++ by_number declaration k (map (λ v. variable_seen v) scope.now.variables.items))) }
    ensures count { IfOk result (λ next. next ≡ k + length scope.now.variables.items) }
{
    let next = k.checked_add(scope.variables.len()).ok_or(NoMemory)?;
    push_scope(text, scope.name.bytes())?;
    push_declarations(text, k, &scope.variables)?;
    Ok(next)
}

// The lines of a visit, where k variables were declared before; and how many are then.
fn push_visit(text: &mut Vec<u8>, parts: &Parts, k: usize, visit: Visit) -> Result<usize, NoMemory>
    requires { IsVisit (length parts.now.scopes.items) visit }
    ensures { IfOk result (λ next. (rest : List Visit) → text.new.items ++ visit_lines (circuit_seen parts.now) next rest ≡ text.old.items ++ visit_lines (circuit_seen parts.now) k (visit ∷ rest)) }
{
    match visit {
        Visit::Enters(scope) => push_entered(text, k, &parts.scopes[scope as usize]),
        Visit::Leaves => {
            text.extend_from_slice(b"$upscope $end\n")?;
            Ok(k)
        }
    }
}

fn push_visits(text: &mut Vec<u8>, parts: &Parts, visits: &[Visit]) -> Result<(), NoMemory>
    requires { All (λ v. IsVisit (length parts.now.scopes.items) v) visits.now }
    ensures { OnOk result (text.new.items ≡ text.old.items ++ visit_lines (circuit_seen parts.now) 0 visits.now) }
{
    let mut k: usize = 0;
    for visit in visits {
        k = push_visit(text, parts, k, *visit)?;
    }
    Ok(())
}

/// The header of a circuit's dump, whose scopes are visited so.
pub fn header_of(alloc: Global, circuit: &Circuit, order: &[Visit]) -> Result<Vec<u8>, NoMemory>
    requires { order.now ≡ visits circuit.now }
    ensures { IfOk result (λ v. v.items ≡ header circuit.now) }
{
    let parts = circuit.parts();
    let mut text = Vec::new(alloc);
    text.extend_from_slice(b"$version signoff 1 $end\n$timescale ")?;
    push_tick(&mut text, parts.tick)?;
    text.extend_from_slice(b" $end\n")?;
    push_visits(&mut text, parts, order)?;
    text.extend_from_slice(b"$enddefinitions $end\n")?;
    Ok(text)
}
