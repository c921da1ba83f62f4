//! Nodes over the children of a list.
use crate::rows::assert_row;
use std::test::Fail;
use typst_base::SyntaxKind;
use typst_drawn::{drawn, drawn_all};
use typst_node::SyntaxNode;

/// Two leaves, eleven leaves and no node: few children, many and none.
const CHILDREN: [&str; 3] = [
    "Text:ab Text:c",
    "Text:a Text:b Text:c Text:d Text:e Text:f Text:g Text:h Text:i Text:j Text:k",
    "",
];

#[test]
fn wrapping_takes_the_children_out_of_their_list(rt: HostRuntime) -> Result<(), Fail> {
    let alloc = rt.alloc();
    for drawing in CHILDREN {
        let mut children = drawn_all(alloc, drawing)?;
        let node = SyntaxNode::wrap(alloc, SyntaxKind::Markup, &mut children)?;
        let wanted = drawn(alloc, &format!(in alloc; "Markup[ {drawing} ]")?)?;
        assert_row(&rt, "the node has the children", node == wanted);
        assert_row(&rt, "the list is empty", children.is_empty());
    }
    Ok(())
}
