//! What refusals say that the other tests don't see.
use std::test::Fail;
use typst_session::Refusal;

#[test]
fn refusals_say_why(rt: HostRuntime) -> Result<(), Fail> {
    let rows = [
        (Refusal::Memory, "2: out of memory"),
        (Refusal::Overflow, "6: the tree is too large"),
    ];
    for (refusal, wanted) in rows {
        let said = format!(in rt.alloc(); "{}: {refusal}", refusal.code())?;
        assert_eq!(rt; said.as_str(), wanted);
    }
    Ok(())
}
