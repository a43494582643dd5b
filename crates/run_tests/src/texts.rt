// Errors as they are written.
use sg_io::{ReadError, ShelfError};
use std::test::Fail;

#[test]
fn errors_as_they_are_written(rt: HostRuntime) -> Result<(), Fail> {
    for (error, want) in [
        (ReadError::Missing, "there is no such file"),
        (ReadError::Failed, "the call failed"),
        (ReadError::NoMemory, "no memory"),
    ] {
        assert_eq!(rt; format!(in rt.alloc(); "{error}")?.as_str(), want);
    }
    let text = format!(in rt.alloc(); "{}, {}", ShelfError::Failed, ShelfError::NoMemory)?;
    assert_eq!(rt; text.as_str(), "the call failed, no memory");
    Ok(())
}
