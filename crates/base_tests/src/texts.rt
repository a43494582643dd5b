// Texts, and errors as they are written.
use cond_expr::{BindFault, CondFault};
use grammar::ReadFault;
use sg_delay::DelayError;
use sg_text::{NoMemory, Place, Refused, Text};
use sg_time::TimeError;
use std::alloc::{AllocError, AllocFailed};
use std::test::Fail;

#[test]
fn a_text_is_its_bytes(rt: HostRuntime) -> Result<(), Fail> {
    let text = Text::copy(rt.alloc(), b"U1.Y")?;
    assert_eq!(rt; text.bytes(), b"U1.Y".as_slice());
    assert!(rt; text == Text::copy(rt.alloc(), b"U1.Y")?);
    assert!(rt; text != Text::copy(rt.alloc(), b"U1.y")?);
    let empty = Text::copy(rt.alloc(), b"")?;
    assert_eq!(rt; empty.bytes(), b"".as_slice());
    Ok(())
}

#[test]
fn want_of_memory_is_a_fault_of_reading(rt: HostRuntime) {
    assert_eq!(rt; ReadFault::from(AllocError), ReadFault::Memory);
    assert_eq!(rt;
        ReadFault::from(AllocFailed { value: 7 }),
        ReadFault::Memory
    );
}

#[test]
fn errors_of_numbers(rt: HostRuntime) -> Result<(), Fail> {
    let alloc = rt.alloc();
    for (error, want) in [
        (TimeError::NotANumber, "not a number"),
        (TimeError::TooManyDigits, "more than 18 digits"),
        (TimeError::TooLarge, "2^60 ticks or more"),
    ] {
        assert_eq!(rt; format!(in alloc; "{error}")?.as_str(), want);
    }
    let text = format!(in alloc; "{}", DelayError::BadCount)?;
    assert_eq!(rt; text.as_str(), "not 1, 2, 3, 6 or 12 delays");
    Ok(())
}

#[test]
fn errors_of_files(rt: HostRuntime) -> Result<(), Fail> {
    let place = Place { file: 2, byte: 30 };
    let fault = Refused::Fault { kind: 'k', place };
    let fault = format!(in rt.alloc(); "{fault}")?;
    assert_eq!(rt; fault.as_str(), "'k' at byte 30 of file 2");
    let no_memory: Refused<char> = Refused::NoMemory;
    let no_memory = format!(in rt.alloc(); "{no_memory}, {NoMemory}")?;
    assert_eq!(rt; no_memory.as_str(), "no memory, no memory");
    let read = format!(in rt.alloc(); "{}, {}", ReadFault::At(3), ReadFault::Memory)?;
    assert_eq!(rt; read.as_str(), "token 3 fails, no memory");
    Ok(())
}

#[test]
fn errors_of_conditions(rt: HostRuntime) -> Result<(), Fail> {
    for (fault, want) in [
        (
            CondFault::Syntax { at: 7 },
            "no condition goes on at token 7",
        ),
        (
            CondFault::TooDeep,
            "parentheses and unary operators nest more than 64 deep",
        ),
        (CondFault::NoMemory, "no memory"),
    ] {
        assert_eq!(rt; format!(in rt.alloc(); "{fault}")?.as_str(), want);
    }
    let unknown = BindFault::Unknown { at: 7 };
    let text = format!(in rt.alloc(); "{unknown}, {}", BindFault::NoMemory)?;
    assert_eq!(rt;
        text.as_str(),
        "no net of the operand at token 7, no memory"
    );
    Ok(())
}
