//! The checker's verdict on a tree, as it is printed. `tests/commands.py` compares the verdicts of worked examples.

use sp_cert::{CheckError, Rule};
use std::test::Fail;

#[test]
fn number_and_message(rt: HostRuntime) -> Result<(), Fail> {
    let fault = CheckError::Fault {
        vertex: 7,
        rule: Rule::Size,
    };
    let message = format!(in rt.alloc(); "{fault}, {}", CheckError::Memory)?;
    assert_eq!(rt; message.as_str(), "rule 1 fails at vertex 7, memory");
    assert_eq!(rt; Rule::OnlyTooFar.number(), 5);
    Ok(())
}
