//! Expressions that are read, which no command prints, and the deepest tree.

use kernel_print::print_kernel;
use kernel_syntax::{ReadFault, read_kernel};
use std::alloc::{AllocError, Global};
use std::test::Fail;

// Expressions, and their canonical texts: levels, association, signs and numbers.
static EXPRESSIONS: [(&str, &str); 6] = [
    ("a - b - c * d", "( a - b ) - ( c * d )"),
    (
        "a | b ^ c & d << 0x1f >> 2",
        "a | ( b ^ ( c & ( ( d << 31 ) >> 2 ) ) )",
    ),
    (
        "a < b && !c == d || ~e > 1",
        "( ( a < b ) && ( ( ! c ) == d ) ) || ( ( ~ e ) > 1 )",
    ),
    (
        "- - 5 + -(7) - -x",
        "( ( - ( - 5 ) ) + ( - ( 7 ) ) ) - ( - x )",
    ),
    (
        "select(a != 0, abs(a), max(1, -2))",
        "select ( a != 0 , abs ( a ) , max ( 1 , - 2 ) )",
    ),
    ("a as i8 as u64 * ((b))", "( ( a as i8 ) as u64 ) * b"),
];

// The canonical text of a kernel that returns an expression.
fn printed(alloc: Global, expression: &str) -> Result<String, ReadFault> {
    let text = format!(in alloc; "kernel f() -> u8 {{ return {expression}; }}")?;
    let kernel = read_kernel(alloc, text.as_bytes())?;
    Ok(print_kernel(alloc, &kernel)?)
}

#[test]
fn expressions_print_as_their_canonical_text(rt: HostRuntime) -> Result<(), Fail> {
    for (text, canonical) in &EXPRESSIONS {
        let found = printed(rt.alloc(), text)?;
        let want = format!(in rt.alloc(); "kernel f ( ) -> u8 {{ return {canonical} ; }}")?;
        assert!(rt; found.as_str() == want.as_str(), "{found}");
    }
    Ok(())
}

// The text of rows of signs within brackets, which has the deepest tree.
fn deepest_text(alloc: Global) -> Result<String, AllocError> {
    let signs = "!~~~~~~~~~~~~~~~~~~~~~~~~~~~~~~~~~~~~~~~~~~~~~~~~~~~~~~~~~~~~~~(";
    let open = signs.repeat(alloc, 62)?;
    let close = ")".repeat(alloc, 62)?;
    Ok(format!(in alloc; "kernel f() -> u64 {{ return {open}x{close}; }}")?)
}

#[test]
fn deepest(rt: HostRuntime) -> Result<(), Fail> {
    let text = deepest_text(rt.alloc())?;
    assert!(rt; read_kernel(rt.alloc(), text.as_bytes()).is_ok());
    Ok(())
}
