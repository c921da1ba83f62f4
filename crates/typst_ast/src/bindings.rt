//! The names that patterns and let bindings bind.
ghost use Rattle.std.specs.Prelude.{◌≡◌, map, option_to_list, IfOk};
ghost use Rattle.typst_ast.specs.BindingRule.{ByRule};
ghost use Rattle.typst_ast.specs.Bindings.{destructuring_names, destructuring_names_by, expr_names, let_names, let_names_by, pattern_names, pattern_names_by};
ghost use Rattle.typst_ast.specs.View.{node_of};
ghost use Rattle.typst_atoms.specs.View.{atom_node};

use crate::expr::Expr;
use crate::lets::LetBindingKind;
use crate::pattern::Pattern;
use crate::views::{Destructuring, Ident};
use std::alloc::{AllocError, Global};
use typst_atoms::bindings::{first_pattern, push_items, push_name, push_pattern};
use typst_atoms::nodes::children;

/// The identifier, if the expression is one.
fn ident_of<'a>(expr: Expr<'a>) -> Option<Ident<'a>>
    ensures { map atom_node (option_to_list result) ≡ expr_names expr.entry }
{
    match expr {
        Expr::Ident(name) => Some(name),
        _ => None,
    }
}

impl<'a> Pattern<'a> {
    /// The names that the pattern binds, in order. An identifier binds itself. A parenthesized pattern and a
    /// destructuring bind the names of the patterns in them. Any other pattern binds nothing.
    ///
    /// It takes time in proportion to the nodes below, and memory for the names.
    #[tactic(auto, using(crate::proofs::NamesByRule::pattern_by_rule))]
    pub fn bindings(self, alloc: Global) -> Result<Vec<Ident<'a>>, AllocError>
        ensures names { IfOk result (λ names. map atom_node names.items ≡ pattern_names self.entry) }
        ensures rule { IfOk result (λ bound. ByRule (λ names. map atom_node bound.items
            ≡ pattern_names_by names self.entry)) }
    {
        let mut names = Vec::new(alloc);
        match self {
            Pattern::Normal(expr) => push_name(&mut names, ident_of(expr))?,
            Pattern::Placeholder(_) => {}
            Pattern::Parenthesized(group) => push_pattern(&mut names, first_pattern(group.node()))?,
            Pattern::Destructuring(parts) => push_items(&mut names, children(parts.node()))?,
        }
        Ok(names)
    }
}

impl<'a> Destructuring<'a> {
    /// The names that the items bind, in order: the names of their patterns, and the names of sinks.
    ///
    /// It takes time in proportion to the nodes below, and memory for the names.
    #[tactic(auto, using(crate::proofs::NamesByRule::parts_by_rule))]
    pub fn bindings(self, alloc: Global) -> Result<Vec<Ident<'a>>, AllocError>
        ensures names { IfOk result (λ names. map atom_node names.items ≡ destructuring_names (node_of self.entry)) }
        ensures rule { IfOk result (λ bound. ByRule (λ names. map atom_node bound.items
            ≡ destructuring_names_by names (node_of self.entry))) }
    {
        let mut names = Vec::new(alloc);
        push_items(&mut names, children(self.node()))?;
        Ok(names)
    }
}

impl<'a> LetBindingKind<'a> {
    /// The names that the binding binds, in order: the names of its pattern, or the name of its closure.
    ///
    /// It takes time in proportion to the nodes below, and memory for the names.
    #[tactic(auto, using(crate::proofs::NamesByRule::let_by_rule))]
    pub fn bindings(self, alloc: Global) -> Result<Vec<Ident<'a>>, AllocError>
        ensures names { IfOk result (λ names. map atom_node names.items ≡ let_names self.entry) }
        ensures rule { IfOk result (λ bound. ByRule (λ names. map atom_node bound.items
            ≡ let_names_by names self.entry)) }
    {
        match self {
            LetBindingKind::Normal(pattern) => pattern.bindings(alloc),
            LetBindingKind::Closure(name) => Ok(vec![in alloc; name]?),
        }
    }
}
