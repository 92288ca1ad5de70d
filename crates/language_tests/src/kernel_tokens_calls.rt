//! Calls of `kernel_tokens`: texts with the number of their tokens, and a token of each kind.

use kernel_tokens::{TokenFault, read_tokens};
use kernel_tree::UpdateOp;
use kernel_tree::mark::Mark;
use kernel_tree::token::Token;
use std::alloc::Global;
use std::test::Fail;

// Texts with the number of their tokens, or the place of the first bad byte.
static COUNTS: [(&str, Result<usize, TokenFault>); 17] = [
    ("", Ok(0)),
    ("a<=b", Ok(3)),
    ("a<<=b", Ok(4)),
    ("x min=1", Ok(3)),
    ("min =1", Ok(3)),
    ("minx=1", Ok(3)),
    ("0x", Ok(2)),
    ("0xAf", Ok(1)),
    ("a//b\nc", Ok(2)),
    ("//", Ok(0)),
    ("1/", Err(TokenFault::BadByte { at: 1 })),
    ("...", Err(TokenFault::BadByte { at: 2 })),
    ("a\x0b", Err(TokenFault::BadByte { at: 1 })),
    ("0x7fffffffffffffffffffffffffffffff", Ok(1)),
    (
        " 0x80000000000000000000000000000000",
        Err(TokenFault::BadByte { at: 1 }),
    ),
    ("000170141183460469231731687303715884105727", Ok(1)),
    (
        "(170141183460469231731687303715884105728",
        Err(TokenFault::BadByte { at: 1 }),
    ),
];

fn count(alloc: Global, text: &str) -> Result<usize, TokenFault> {
    let tokens = read_tokens(alloc, text.as_bytes())?;
    Ok(tokens.len())
}

#[test]
fn counts(rt: HostRuntime) {
    for (text, want) in &COUNTS {
        assert!(rt; count(rt.alloc(), text) == *want, "{text}");
    }
}

#[test]
fn kinds(rt: HostRuntime) -> Result<(), Fail> {
    let tokens = read_tokens(rt.alloc(), b"kernel i64 s_1 max= 0x1F ..".as_slice())?;
    assert!(rt;
        matches!(
            tokens.as_slice(),
            [
                Token::Mark(Mark::Kernel),
                Token::Type(_),
                Token::Name(_),
                Token::Update(UpdateOp::Max),
                Token::Number(_),
                Token::Mark(Mark::Range)
            ]
        )
    );
    Ok(())
}
