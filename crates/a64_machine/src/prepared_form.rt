//! A64 instructions made ready for the places of their words.

ghost use Rattle.std.specs.Prelude.{◌<◌};

use a64_code::{BitfieldOp, LoadStoreByteOp, LoadStoreOp, LogicalOp, Reg};
use word_rows::Bits;

/// The number of a general register that is X0 to X30.
#[derive(Clone, Copy)]
pub struct General {
    pub number: u32,
    ghost in_range: { number < 31 },
}

/// An A64 instruction made ready for the place of its word: most of its registers are X0 to X30, its numbers are whole, and a
/// branch has the place that it goes to.
#[derive(Clone, Copy)]
pub enum Prepared {
    /// Rn plus a number.
    AddNumber {
        rd: General,
        rn: General,
        number: u64,
    },
    /// Rn less a number, and the flags.
    LessNumber {
        rd: General,
        rn: General,
        number: u64,
    },
    /// The flags of Rn less a number.
    CompareNumber {
        rn: General,
        number: u64,
    },
    /// Rn plus Rm shifted left.
    Add {
        rd: General,
        rn: General,
        rm: General,
        by: Bits<6>,
    },
    /// Rn less Rm shifted left.
    Subtract {
        rd: General,
        rn: General,
        rm: General,
        by: Bits<6>,
    },
    /// The flags of Rn less Rm shifted left.
    Compare {
        rn: General,
        rm: General,
        by: Bits<6>,
    },
    /// Rn and Rm shifted left, bit by bit.
    Logical {
        op: LogicalOp,
        rd: General,
        rn: Reg,
        rm: General,
        by: Bits<6>,
    },
    /// A bit field of Rn.
    Field {
        op: BitfieldOp,
        rd: General,
        rn: General,
        imms: Bits<6>,
        immr: Bits<6>,
    },
    /// Ra plus Rn times Rm.
    MultiplyAdd {
        rd: General,
        rn: General,
        ra: Reg,
        rm: General,
    },
    /// A number.
    Constant {
        rd: General,
        number: u64,
    },
    /// A branch.
    Jump {
        place: u64,
    },
    /// A branch by the flags: bit k of `taken` is 1 where it is taken by the flags that are the number k.
    JumpWhere {
        taken: u16,
        place: u64,
    },
    /// A branch where Rt is zero.
    JumpAtZero {
        rt: General,
        place: u64,
    },
    /// A branch where Rt is not zero.
    JumpElse {
        rt: General,
        place: u64,
    },
    /// Rn less a number, and the flags, before a branch by them.
    LessNumberJump {
        taken: u16,
        rd: General,
        rn: General,
        number: u32,
        place: u64,
    },
    /// The flags of Rn less a number, before a branch by them.
    CompareNumberJump {
        taken: u16,
        rn: General,
        number: u32,
        place: u64,
    },
    /// The flags of Rn less Rm shifted left, before a branch by them.
    CompareJump {
        taken: u16,
        rn: General,
        rm: General,
        by: Bits<6>,
        place: u64,
    },
    /// A load or a store of one byte, at Rn plus Rm.
    ByteAtRegister {
        op: LoadStoreByteOp,
        rt: Reg,
        rn: General,
        rm: General,
    },
    /// A load or a store of one byte, at Rn plus a number.
    ByteAtNumber {
        op: LoadStoreByteOp,
        rt: Reg,
        rn: General,
        number: u64,
    },
    /// A load or a store of more bytes, at Rn plus Rm shifted left.
    WideAtRegister {
        op: LoadStoreOp,
        rt: Reg,
        rn: General,
        rm: General,
        by: Bits<2>,
    },
    /// A load or a store of more bytes, at Rn plus a number.
    WideAtNumber {
        op: LoadStoreOp,
        rt: Reg,
        rn: General,
        number: u64,
    },
}
