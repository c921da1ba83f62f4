//! Accessors that answer a node.
ghost use Rattle.std.specs.Prelude.{◌≡◌, Some};
ghost use Rattle.std.specs.Option.{option_copied};
ghost use Rattle.typst_accessors.specs.NodeAccessors.{node_view};
ghost use Rattle.typst_accessors.specs.Nodes.{node_answered};
ghost use Rattle.typst_node.specs.Views.{node_kind};

use crate::node_accessor::NodeAccessor;
use typst_node::SyntaxNode;

impl NodeAccessor {
    /// The node that the accessor answers of a node of its view, if the tree has it.
    pub(crate) fn read<'a>(self, node: &'a SyntaxNode) -> Option<&'a SyntaxNode>
        requires { node_kind node.now ≡ node_view self }
        ensures { option_copied result ≡ node_answered self (Some node.now) }
    {
        match self {
            NodeAccessor::Markup(accessor) => accessor.read(node),
            NodeAccessor::Math(accessor) => accessor.read(node),
            NodeAccessor::Code(accessor) => accessor.read(node),
            NodeAccessor::Control(accessor) => accessor.read(node),
            NodeAccessor::Module(accessor) => accessor.read(node),
        }
    }
}
