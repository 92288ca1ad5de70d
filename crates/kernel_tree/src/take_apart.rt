//! Takes statements apart.

ghost use Rattle.std.specs.Prelude.{◌≡◌};
ghost use Rattle.kernel_tree.specs.Plain.{action_of};
ghost use Rattle.kernel_tree.specs.Parts.{part_action};

use crate::ast::Stmt;
use crate::part::Part;

/// The parts of a statement.
pub fn parts(stmt: &Stmt) -> Part<'_>
    ensures { part_action result ≡ action_of stmt.now }
{
    match stmt {
        Stmt::Let { name, ty, value } => Part::Let {
            name,
            ty: *ty,
            value,
        },
        Stmt::Store {
            array,
            index,
            value,
        } => Part::Store {
            array,
            index,
            value,
        },
        Stmt::Update { name, op, value } => Part::Update {
            name,
            op: *op,
            value,
        },
        Stmt::If {
            cond,
            then_part,
            else_part,
        } => match else_part {
            None => Part::If {
                cond,
                block: then_part,
            },
            Some(other) => Part::IfElse {
                cond,
                block: then_part,
                other,
            },
        },
        Stmt::Break { cond } => Part::Break { cond },
    }
}
