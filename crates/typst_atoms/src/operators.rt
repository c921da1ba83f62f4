//! Unary and binary operators.
ghost use Rattle.std.specs.Prelude.{◌≡◌, ◌↔◌, is_some};
ghost use Rattle.typst_atoms.specs.BinaryOperators.{binary_operator_of, binary_precedence, binary_text};
ghost use Rattle.typst_atoms.specs.UnaryOperators.{unary_operator_of, unary_precedence, unary_text};
ghost use Rattle.typst_atoms.specs.declared.operators.Assoc.TheVariants.{Right};
ghost use Rattle.typst_base.specs.NamedSets.{binary_op_set, unary_op_set};

use typst_base::SyntaxKind;

/// The order in which operators of one precedence group.
#[derive(Clone, Copy, Debug, PartialEq, Eq, Hash)]
pub enum Assoc {
    /// From the left: `a + b + c` is `(a + b) + c`.
    Left,
    /// From the right: `a = b = c` is `a = (b = c)`.
    Right,
}

/// A unary operator.
#[derive(Clone, Copy, Debug, PartialEq, Eq, Hash)]
pub enum UnOp {
    /// The plus operator: `+`.
    Pos,
    /// The negation operator: `-`.
    Neg,
    /// The boolean `not`.
    Not,
}

impl UnOp {
    /// The operator of a token of this kind. The kinds of `typst_base::named_sets::unary_op` have one, and no others.
    pub fn from_kind(kind: SyntaxKind) -> Option<Self>
        ensures operator { result ≡ unary_operator_of kind }
        ensures named { unary_op_set kind ≡ is_some result }
    {
        match kind {
            SyntaxKind::Plus => Some(UnOp::Pos),
            SyntaxKind::Minus => Some(UnOp::Neg),
            SyntaxKind::Not => Some(UnOp::Not),
            _ => None,
        }
    }

    /// The precedence of the operator, from 4 to 7. An operator with a larger number binds tighter.
    pub fn precedence(self) -> u8
        ensures { result ≡ unary_precedence self }
    {
        match self {
            UnOp::Pos | UnOp::Neg => 7,
            UnOp::Not => 4,
        }
    }

    /// The text of the operator.
    pub fn as_str(self) -> &'static str
        ensures { result.now ≡ unary_text self }
    {
        match self {
            UnOp::Pos => "+",
            UnOp::Neg => "-",
            UnOp::Not => "not",
        }
    }
}

/// A binary operator.
#[derive(Clone, Copy, Debug, PartialEq, Eq, Hash)]
pub enum BinOp {
    /// The addition operator: `+`.
    Add,
    /// The subtraction operator: `-`.
    Sub,
    /// The multiplication operator: `*`.
    Mul,
    /// The division operator: `/`.
    Div,
    /// The short-circuiting boolean `and`.
    And,
    /// The short-circuiting boolean `or`.
    Or,
    /// The equality operator: `==`.
    Eq,
    /// The inequality operator: `!=`.
    Neq,
    /// The less-than operator: `<`.
    Lt,
    /// The less-than or equal operator: `<=`.
    Leq,
    /// The greater-than operator: `>`.
    Gt,
    /// The greater-than or equal operator: `>=`.
    Geq,
    /// The assignment operator: `=`.
    Assign,
    /// The containment operator: `in`.
    In,
    /// The inverse containment operator: `not in`, which is no single token.
    NotIn,
    /// The add-assign operator: `+=`.
    AddAssign,
    /// The subtract-assign operator: `-=`.
    SubAssign,
    /// The multiply-assign operator: `*=`.
    MulAssign,
    /// The divide-assign operator: `/=`.
    DivAssign,
}

impl BinOp {
    /// The operator of a token of this kind. The kinds of `typst_base::named_sets::binary_op` have one, and no others.
    pub fn from_kind(kind: SyntaxKind) -> Option<Self>
        ensures operator { result ≡ binary_operator_of kind }
        ensures named { binary_op_set kind ≡ is_some result }
    {
        Some(match kind {
            SyntaxKind::Plus => BinOp::Add,
            SyntaxKind::Minus => BinOp::Sub,
            SyntaxKind::Star => BinOp::Mul,
            SyntaxKind::Slash => BinOp::Div,
            SyntaxKind::And => BinOp::And,
            SyntaxKind::Or => BinOp::Or,
            SyntaxKind::EqEq => BinOp::Eq,
            SyntaxKind::ExclEq => BinOp::Neq,
            SyntaxKind::Lt => BinOp::Lt,
            SyntaxKind::LtEq => BinOp::Leq,
            SyntaxKind::Gt => BinOp::Gt,
            SyntaxKind::GtEq => BinOp::Geq,
            SyntaxKind::Eq => BinOp::Assign,
            SyntaxKind::In => BinOp::In,
            SyntaxKind::PlusEq => BinOp::AddAssign,
            SyntaxKind::HyphEq => BinOp::SubAssign,
            SyntaxKind::StarEq => BinOp::MulAssign,
            SyntaxKind::SlashEq => BinOp::DivAssign,
            _ => return None,
        })
    }

    /// The precedence of the operator, from 1 to 6. An operator with a larger number binds tighter.
    pub fn precedence(self) -> u8
        ensures { result ≡ binary_precedence self }
    {
        match self {
            BinOp::Mul | BinOp::Div => 6,
            BinOp::Add | BinOp::Sub => 5,
            BinOp::Eq | BinOp::Neq | BinOp::Lt | BinOp::Leq => 4,
            BinOp::Gt | BinOp::Geq | BinOp::In | BinOp::NotIn => 4,
            BinOp::And => 3,
            BinOp::Or => 2,
            BinOp::Assign | BinOp::AddAssign | BinOp::SubAssign => 1,
            BinOp::MulAssign | BinOp::DivAssign => 1,
        }
    }

    /// How the operator groups: assignments from the right, all others from the left.
    pub fn assoc(self) -> Assoc
        ensures { (result ≡ Right) ↔ (binary_precedence self ≡ 1) }
    {
        if self.precedence() == 1 {
            Assoc::Right
        } else {
            Assoc::Left
        }
    }

    /// The text of the operator.
    pub fn as_str(self) -> &'static str
        ensures { result.now ≡ binary_text self }
    {
        match self {
            BinOp::Add => "+",
            BinOp::Sub => "-",
            BinOp::Mul => "*",
            BinOp::Div => "/",
            BinOp::And => "and",
            BinOp::Or => "or",
            BinOp::Eq => "==",
            BinOp::Neq => "!=",
            BinOp::Lt => "<",
            BinOp::Leq => "<=",
            BinOp::Gt => ">",
            BinOp::Geq => ">=",
            BinOp::Assign => "=",
            BinOp::In => "in",
            BinOp::NotIn => "not in",
            BinOp::AddAssign => "+=",
            BinOp::SubAssign => "-=",
            BinOp::MulAssign => "*=",
            BinOp::DivAssign => "/=",
        }
    }
}
