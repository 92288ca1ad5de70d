//! The tree of a kernel.

use crate::fault::Binding;
use crate::name::Name;
use crate::ops::{BinaryOp, CompareOp, Ty, UnaryOp, UpdateOp};

/// An expression.
#[derive(Drop)]
pub enum Expr {
    /// A literal. The text of a kernel spells one from -(2^127 - 1) to 2^127 - 1.
    Lit(i128),
    Var(Name),
    /// The element of an array.
    Read {
        array: Name,
        index: Box<Expr>,
    },
    Unary {
        op: UnaryOp,
        arg: Box<Expr>,
    },
    Binary {
        op: BinaryOp,
        left: Box<Expr>,
        right: Box<Expr>,
    },
    /// A shift by a constant number of bits.
    Shift {
        left_shift: bool,
        arg: Box<Expr>,
        count: i128,
    },
    Cast {
        arg: Box<Expr>,
        ty: Ty,
    },
    /// `yes` where the condition holds, else `no`.
    Select {
        cond: Box<Expr>,
        yes: Box<Expr>,
        no: Box<Expr>,
    },
    Compare {
        op: CompareOp,
        left: Box<Expr>,
        right: Box<Expr>,
    },
    And {
        left: Box<Expr>,
        right: Box<Expr>,
    },
    Or {
        left: Box<Expr>,
        right: Box<Expr>,
    },
    Not {
        arg: Box<Expr>,
    },
}

/// A statement.
#[derive(Drop)]
pub enum Stmt {
    Let {
        name: Name,
        ty: Option<Ty>,
        value: Expr,
    },
    Store {
        array: Name,
        index: Expr,
        value: Expr,
    },
    /// An update of an accumulator.
    Update {
        name: Name,
        op: UpdateOp,
        value: Expr,
    },
    If {
        cond: Expr,
        then_part: Vec<Stmt>,
        else_part: Option<Vec<Stmt>>,
    },
    /// The end of the loop where the condition holds.
    Break {
        cond: Expr,
    },
}

/// What a parameter is.
#[derive(Clone, Copy, PartialEq, Eq, Debug)]
pub enum Shape {
    Scalar(Ty),
    /// An array with elements of this type.
    Array(Ty),
}

impl Shape {
    ghost use Rattle.std.specs.Prelude.{◌≡◌};
    ghost use Rattle.kernel_tree.specs.Typing.{binding_of_shape};

    /// What the name of a parameter of this shape stands for.
    pub fn binding(self) -> Binding
        ensures { result ≡ binding_of_shape self }
    {
        match self {
            Shape::Scalar(ty) => Binding::Scalar(ty),
            Shape::Array(ty) => Binding::Array(ty),
        }
    }
}

/// A parameter: a scalar, or an array with elements of a type.
#[derive(Drop)]
pub struct Param {
    pub name: Name,
    pub shape: Shape,
}

/// An accumulator and its initial value.
#[derive(Drop)]
pub struct Var {
    pub name: Name,
    pub ty: Ty,
    pub init: Expr,
}

/// A loop over 0, 1, up to the bound.
#[derive(Drop)]
pub struct Loop {
    pub index: Name,
    pub bound: Name,
    pub body: Vec<Stmt>,
}

/// The value that a kernel returns.
#[derive(Drop)]
pub struct Answer {
    pub ty: Ty,
    pub value: Expr,
}

/// A kernel.
#[derive(Drop)]
pub struct Kernel {
    pub name: Name,
    pub params: Vec<Param>,
    pub vars: Vec<Var>,
    pub body: Option<Loop>,
    pub answer: Option<Answer>,
}
