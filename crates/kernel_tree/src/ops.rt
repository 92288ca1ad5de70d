//! The types of values, and the operators.

ghost use Rattle.std.specs.Prelude.{◌≡◌, ◌<◌, ◌⊎◌};
ghost use Rattle.kernel_tree.specs.Wrap.{bits_of, byte_count, log_bytes, is_signed};
ghost use Rattle.kernel_tree.specs.Printing.{type_text};

/// The type of a value: a signed or unsigned integer of 8, 16, 32 or 64 bits.
#[derive(Clone, Copy, PartialEq, Eq, Debug)]
pub enum Ty {
    I8,
    I16,
    I32,
    I64,
    U8,
    U16,
    U32,
    U64,
}

impl Ty {
    /// The bits of a value.
    #[inline(always)]
    pub fn bits(self) -> u32
        ensures value { result ≡ bits_of self }
        ensures size { (result ≡ 8) ⊎ (result ≡ 16) ⊎ (result ≡ 32) ⊎ (result ≡ 64) }
    {
        match self {
            Ty::I8 | Ty::U8 => 8,
            Ty::I16 | Ty::U16 => 16,
            Ty::I32 | Ty::U32 => 32,
            Ty::I64 | Ty::U64 => 64,
        }
    }

    /// The bytes of a value.
    #[inline(always)]
    pub fn bytes(self) -> u32
        ensures value { result ≡ byte_count self }
        ensures size { (result ≡ 1) ⊎ (result ≡ 2) ⊎ (result ≡ 4) ⊎ (result ≡ 8) }
    {
        match self {
            Ty::I8 | Ty::U8 => 1,
            Ty::I16 | Ty::U16 => 2,
            Ty::I32 | Ty::U32 => 4,
            Ty::I64 | Ty::U64 => 8,
        }
    }

    /// The logarithm of the bytes of a value, to the base 2.
    #[inline(always)]
    pub fn log_bytes(self) -> u32
        ensures value { result ≡ log_bytes self }
        ensures within { result < 4 }
    {
        match self {
            Ty::I8 | Ty::U8 => 0,
            Ty::I16 | Ty::U16 => 1,
            Ty::I32 | Ty::U32 => 2,
            Ty::I64 | Ty::U64 => 3,
        }
    }

    /// Whether values may be negative.
    #[inline(always)]
    pub fn is_signed(self) -> bool
        ensures { result ≡ is_signed self }
    {
        matches!(self, Ty::I8 | Ty::I16 | Ty::I32 | Ty::I64)
    }

    /// The reserved word that the type is.
    pub fn word(self) -> &'static str
        ensures { result.now ≡ type_text self }
    {
        match self {
            Ty::I8 => "i8",
            Ty::I16 => "i16",
            Ty::I32 => "i32",
            Ty::I64 => "i64",
            Ty::U8 => "u8",
            Ty::U16 => "u16",
            Ty::U32 => "u32",
            Ty::U64 => "u64",
        }
    }
}

/// An operator with one value operand.
#[derive(Clone, Copy, PartialEq, Eq, Debug)]
pub enum UnaryOp {
    /// `-`
    Neg,
    /// `~`
    Flip,
    /// `abs`
    Abs,
}

/// An operator with two value operands.
#[derive(Clone, Copy, PartialEq, Eq, Debug)]
pub enum BinaryOp {
    Add,
    Sub,
    Mul,
    And,
    Or,
    Xor,
    Min,
    Max,
}

/// A comparison of two values.
#[derive(Clone, Copy, PartialEq, Eq, Debug)]
pub enum CompareOp {
    Eq,
    Ne,
    Lt,
    Le,
    Gt,
    Ge,
}

/// How an update changes its accumulator.
#[derive(Clone, Copy, PartialEq, Eq, Debug)]
pub enum UpdateOp {
    Add,
    And,
    Or,
    Xor,
    Min,
    Max,
}
