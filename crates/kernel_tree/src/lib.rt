//! The syntax tree of the kernel language: its types, its tokens, its grammar, its typing, and
//! what its canonical text is.
#![tactic(auto)]

pub mod ast;
pub mod checked;
pub mod fault;
pub mod laws;
pub mod lexeme;
pub mod make;
pub mod mark;
pub mod name;
pub mod ops;
mod part;
pub mod place;
mod take_apart;
pub mod token;

pub use ast::{Answer, Expr, Kernel, Loop, Param, Shape, Stmt, Var};
pub use checked::Checked;
pub use name::Name;
pub use ops::{BinaryOp, CompareOp, Ty, UnaryOp, UpdateOp};
pub use part::Part;
pub use take_apart::parts;
