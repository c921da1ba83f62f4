//! What is answered where memory is refused.
use crate::guide::editing::numbered;
use crate::rows::assert_text;
use std::alloc::Global;
use std::test::Fail;
use typst_tree::session::Reply;
use typst_tree::{InnerError, ReplaceError, Span};

/// Whether an answer says that memory was refused. The tree is then as it was, and the request can be made again.
fn wants_memory(reply: &Reply) -> bool {
    match reply {
        // The list of children could not grow.
        Reply::Refused(ReplaceError::Memory) => true,
        // The path of a node that was found could not be kept.
        Reply::NoMemory => true,
        _ => false,
    }
}

/// What a search answers whose node is found.
fn found(alloc: Global) -> Result<Reply, Fail> {
    let tree = numbered(alloc, Span::FULL)?;
    Ok(tree.find(alloc, tree.root().span()))
}

#[test]
fn memory_has_answers_of_its_own(rt: HostRuntime) -> Result<(), Fail> {
    assert!(rt; wants_memory(&Reply::NoMemory));
    assert!(rt; wants_memory(&Reply::Refused(ReplaceError::Memory)));
    assert!(rt; !wants_memory(&found(rt.alloc())?));
    let said = format!(in rt.alloc(); "{}", InnerError::Memory)?;
    assert_text(&rt, "an error", "text", &said, "out of memory");
    Ok(())
}
