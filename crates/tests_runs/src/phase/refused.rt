//! Refusals by their numbers.
use sp_phase::RunError;
use std::test::Fail;

// Each refusal is shown by its number.
#[test]
fn refusals_have_numbers(rt: HostRuntime) -> Result<(), Fail> {
    let alloc = rt.alloc();
    let memory = format!(in alloc; "{}", RunError::Memory)?;
    let too_far = format!(in alloc; "{}", RunError::TooFar(18))?;
    let no_vertex = format!(in alloc; "{}", RunError::NoSuchVertex)?;
    assert_eq!(rt; memory.as_str(), "1 Memory");
    assert_eq!(rt; too_far.as_str(), "2 TooFar 18");
    assert_eq!(rt; no_vertex.as_str(), "3 NoSuchVertex");
    Ok(())
}
