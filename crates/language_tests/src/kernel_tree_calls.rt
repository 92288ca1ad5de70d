use kernel_print::print_kernel;
use kernel_syntax::read_kernel;
use kernel_tree::ast::{Expr, Loop, Stmt};
use kernel_tree::name::Name;
use kernel_tree::ops::{BinaryOp, CompareOp, UnaryOp};
use std::alloc::Global;
use std::test::Fail;

fn name(alloc: Global, text: &str) -> Result<Name, Fail> {
    let name = Name::new(alloc, text)?.ok_or("no name")?;
    Ok(name)
}

fn variable(alloc: Global, text: &str) -> Result<Box<Expr>, Fail> {
    let boxed = Box::new(alloc, Expr::Var(name(alloc, text)?))?;
    Ok(boxed)
}

fn literal(alloc: Global, value: i128) -> Result<Box<Expr>, Fail> {
    let boxed = Box::new(alloc, Expr::Lit(value))?;
    Ok(boxed)
}

// a[i + 1] = a[i];
fn spread(alloc: Global) -> Result<Stmt, Fail> {
    let index = Expr::Binary {
        op: BinaryOp::Add,
        left: variable(alloc, "i")?,
        right: literal(alloc, 1)?,
    };
    let value = Expr::Read {
        array: name(alloc, "a")?,
        index: variable(alloc, "i")?,
    };
    Ok(Stmt::Store {
        array: name(alloc, "a")?,
        index,
        value,
    })
}

// Puts a statement into a loop.
fn put(for_loop: &mut Option<Loop>, stmt: Stmt) -> Result<(), Fail> {
    match for_loop {
        Some(for_loop) => Ok(for_loop.body.push(stmt)?),
        None => Err(Fail::new("no loop")),
    }
}

// The text of a kernel whose loop has one statement.
fn printed(alloc: Global, stmt: Stmt) -> Result<String, Fail> {
    let text = b"kernel spread(a: [u8], n: u64) { for i in 0..n { } }";
    let mut kernel = read_kernel(alloc, text)?;
    put(&mut kernel.body, stmt)?;
    Ok(print_kernel(alloc, &kernel)?)
}

#[test]
fn prints_a_kernel(rt: HostRuntime) -> Result<(), Fail> {
    let text = printed(rt.alloc(), spread(rt.alloc())?)?;
    let want =
        "kernel spread ( a : [ u8 ] , n : u64 ) { for i in 0 .. n { a [ i + 1 ] = a [ i ] ; } }";
    assert!(rt; text.as_str() == want, "{text}");
    Ok(())
}

// break if -(5) <= -7;
fn leave(alloc: Global) -> Result<Stmt, Fail> {
    let negated = Expr::Unary {
        op: UnaryOp::Neg,
        arg: literal(alloc, 5)?,
    };
    let cond = Expr::Compare {
        op: CompareOp::Le,
        left: Box::new(alloc, negated)?,
        right: literal(alloc, -7)?,
    };
    Ok(Stmt::Break { cond })
}

#[test]
fn puts_operands_in_parentheses(rt: HostRuntime) -> Result<(), Fail> {
    let text = printed(rt.alloc(), leave(rt.alloc())?)?;
    let want =
        "kernel spread ( a : [ u8 ] , n : u64 ) { for i in 0 .. n { break if ( - ( 5 ) ) <= ( - 7 ) ; } }";
    assert!(rt; text.as_str() == want, "{text}");
    Ok(())
}

#[test]
fn takes_names_alone(rt: HostRuntime) -> Result<(), Fail> {
    let alloc = rt.alloc();
    assert!(rt; name(alloc, "_v2")?.text() == "_v2");
    for text in ["kernel", "2v", ""] {
        assert!(rt; Name::new(alloc, text)?.is_none(), "{text}");
    }
    Ok(())
}
