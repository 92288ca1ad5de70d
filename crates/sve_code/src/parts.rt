//! The operands of SVE instructions that admit only some numbers.
ghost use Rattle.std.specs.Prelude.{◌≡◌, ◌≤◌, ◌<◌, ◌+◌, ◌-◌, ◌*◌, ◌/◌, ◌%◌, MatchOption};
ghost use Rattle.word_rows.specs.Field.{bits};
ghost use Rattle.sve_code.specs.Numbers.{size_number, size_from_h_number, size_from_s_number, dtype_number, element_width, memory_size, element_size, is_signed, shift_size, left_amount, right_amount};

use word_rows::field;

/// The size of an element: 8, 16, 32 or 64 bits. The fields "size" and "msz".
#[derive(Clone, Copy, Debug, PartialEq, Eq)]
pub enum Size {
    B,
    H,
    S,
    D,
}

/// A size of at least 16 bits, of instructions that extend bytes.
#[derive(Clone, Copy, Debug, PartialEq, Eq)]
pub enum SizeFromH {
    H = 1,
    S = 2,
    D = 3,
}

/// A size of at least 32 bits, of instructions that extend halfwords.
#[derive(Clone, Copy, Debug, PartialEq, Eq)]
pub enum SizeFromS {
    S = 2,
    D = 3,
}

/// What a contiguous load reads from memory and makes of it: the field "dtype". The names say the
/// memory access and then the element's size; `Signed` accesses are sign-extended, all others
/// zero-extended.
#[derive(Clone, Copy, Debug, PartialEq, Eq)]
pub enum Dtype {
    ByteToB,
    ByteToH,
    ByteToS,
    ByteToD,
    SignedWordToD,
    HalfwordToH,
    HalfwordToS,
    HalfwordToD,
    SignedHalfwordToD,
    SignedHalfwordToS,
    WordToS,
    WordToD,
    SignedByteToD,
    SignedByteToS,
    SignedByteToH,
    DoublewordToD,
}

/// The register of an offset, where 31 is reserved.
#[derive(Clone, Copy, Debug, PartialEq, Eq)]
pub struct OffsetReg {
    pub number: u32,
    ghost in_range: { number < 31 },
}

/// The size of the elements and the amount of a shift by a constant, in the one number that the
/// fields tszh, tszl and imm3 make. Below 8 it is reserved.
#[derive(Clone, Copy, Debug, PartialEq, Eq)]
pub struct ShiftAmount {
    pub value: u32,
    ghost least: { 8 ≤ value },
    ghost most: { value < 128 },
}

/// The sizes of a contiguous store, where no element is wider in memory (`msz`) than in the
/// register (`size`).
#[derive(Clone, Copy, Debug, PartialEq, Eq)]
pub struct StoreSizes {
    pub msz: Size,
    pub size: Size,
    ghost in_range: { size_number msz ≤ size_number size },
}

impl Size {
    /// The size in the two bits from `low` on.
    pub fn at(word: u32, low: u32) -> Self
        requires { low ≤ 30 }
        ensures { size_number result ≡ bits word low 2 }
    {
        match field(word, low, 2) {
            0 => Size::B,
            1 => Size::H,
            2 => Size::S,
            _ => Size::D,
        }
    }

    /// The bits of an element.
    pub fn width(self) -> u32
        ensures { result ≡ element_width (size_number self) }
    {
        match self {
            Size::B => 8,
            Size::H => 16,
            Size::S => 32,
            Size::D => 64,
        }
    }
}

impl SizeFromH {
    /// The size of a number of the field.
    pub fn of(number: u32) -> Option<Self>
        requires { number < 4 }
        ensures { MatchOption result (number < 1) (λ x. size_from_h_number x ≡ number) }
    {
        match number {
            1 => Some(SizeFromH::H),
            2 => Some(SizeFromH::S),
            3 => Some(SizeFromH::D),
            _ => None,
        }
    }

    /// The same as a size of any elements.
    pub fn size(self) -> Size
        ensures { size_number result ≡ size_from_h_number self }
    {
        match self {
            SizeFromH::H => Size::H,
            SizeFromH::S => Size::S,
            SizeFromH::D => Size::D,
        }
    }
}

impl SizeFromS {
    /// The size of a number of the field.
    pub fn of(number: u32) -> Option<Self>
        requires { number < 4 }
        ensures { MatchOption result (number < 2) (λ x. size_from_s_number x ≡ number) }
    {
        match number {
            2 => Some(SizeFromS::S),
            3 => Some(SizeFromS::D),
            _ => None,
        }
    }

    /// The same as a size of any elements.
    pub fn size(self) -> Size
        ensures { size_number result ≡ size_from_s_number self }
    {
        match self {
            SizeFromS::S => Size::S,
            SizeFromS::D => Size::D,
        }
    }
}

impl Dtype {
    /// The type in a word's bits 24 to 21.
    pub fn at(word: u32) -> Self
        ensures { dtype_number result ≡ bits word 21 4 }
    {
        match field(word, 21, 4) {
            0 => Dtype::ByteToB,
            1 => Dtype::ByteToH,
            2 => Dtype::ByteToS,
            3 => Dtype::ByteToD,
            4 => Dtype::SignedWordToD,
            5 => Dtype::HalfwordToH,
            6 => Dtype::HalfwordToS,
            7 => Dtype::HalfwordToD,
            8 => Dtype::SignedHalfwordToD,
            9 => Dtype::SignedHalfwordToS,
            10 => Dtype::WordToS,
            11 => Dtype::WordToD,
            12 => Dtype::SignedByteToD,
            13 => Dtype::SignedByteToS,
            14 => Dtype::SignedByteToH,
            _ => Dtype::DoublewordToD,
        }
    }

    /// The size in memory.
    pub fn memory(self) -> Size
        ensures { size_number result ≡ memory_size (dtype_number self) }
    {
        match self {
            Dtype::ByteToB
            | Dtype::ByteToH
            | Dtype::ByteToS
            | Dtype::ByteToD
            | Dtype::SignedByteToD
            | Dtype::SignedByteToS
            | Dtype::SignedByteToH => Size::B,
            Dtype::HalfwordToH
            | Dtype::HalfwordToS
            | Dtype::HalfwordToD
            | Dtype::SignedHalfwordToD
            | Dtype::SignedHalfwordToS => Size::H,
            Dtype::SignedWordToD | Dtype::WordToS | Dtype::WordToD => Size::S,
            Dtype::DoublewordToD => Size::D,
        }
    }

    /// The size of the elements.
    pub fn element(self) -> Size
        ensures { size_number result ≡ element_size (dtype_number self) }
    {
        match self {
            Dtype::ByteToB => Size::B,
            Dtype::ByteToH | Dtype::HalfwordToH | Dtype::SignedByteToH => Size::H,
            Dtype::ByteToS
            | Dtype::HalfwordToS
            | Dtype::SignedHalfwordToS
            | Dtype::WordToS
            | Dtype::SignedByteToS => Size::S,
            Dtype::ByteToD
            | Dtype::SignedWordToD
            | Dtype::HalfwordToD
            | Dtype::SignedHalfwordToD
            | Dtype::WordToD
            | Dtype::SignedByteToD
            | Dtype::DoublewordToD => Size::D,
        }
    }

    /// Whether what is loaded is sign-extended.
    pub fn is_signed(self) -> bool
        ensures { result ≡ is_signed (dtype_number self) }
    {
        match self {
            Dtype::SignedWordToD
            | Dtype::SignedHalfwordToD
            | Dtype::SignedHalfwordToS
            | Dtype::SignedByteToD
            | Dtype::SignedByteToS
            | Dtype::SignedByteToH => true,
            _ => false,
        }
    }
}

impl OffsetReg {
    /// The register of a number, where it is not 31.
    pub fn of(number: u32) -> Option<Self>
        ensures { MatchOption result (31 ≤ number) (λ x. x.number ≡ number) }
    {
        if number >= 31 {
            return None;
        }
        Some(OffsetReg { number })
    }
}

impl ShiftAmount {
    /// The size and the amount in a word, where they are not reserved.
    pub fn at(word: u32) -> Option<Self>
        ensures { MatchOption result (32 * bits word 22 2 + 8 * bits word 19 2 + bits word 16 3 < 8)
            (λ x. (x.value % 8 ≡ bits word 16 3) × (x.value / 8 % 4 ≡ bits word 19 2)
            × (x.value / 32 ≡ bits word 22 2)) }
    {
        let value = 32 * field(word, 22, 2) + 8 * field(word, 19, 2) + field(word, 16, 3);
        if value < 8 {
            return None;
        }
        Some(ShiftAmount { value })
    }

    /// A shift to the left, by fewer bits than an element has.
    pub fn left(size: Size, amount: u32) -> Self
        requires { amount < element_width (size_number size) }
        ensures sized { shift_size result.value ≡ size_number size }
        ensures by { left_amount result.value ≡ amount }
    {
        let value = size.width() + amount;
        ShiftAmount { value }
    }

    /// A shift to the right, by at least 1 and at most as many bits as an element has.
    pub fn right(size: Size, amount: u32) -> Self
        requires some { 1 ≤ amount }
        requires most { amount ≤ element_width (size_number size) }
        ensures sized { shift_size result.value ≡ size_number size }
        ensures by { right_amount result.value ≡ amount }
    {
        let value = 2 * size.width() - amount;
        ShiftAmount { value }
    }

    /// The size of the elements.
    pub fn size(self) -> Size
        ensures { size_number result ≡ shift_size self.value }
    {
        if self.value < 16 {
            Size::B
        } else if self.value < 32 {
            Size::H
        } else if self.value < 64 {
            Size::S
        } else {
            Size::D
        }
    }

    /// The bits of a shift to the left, in LSL.
    pub fn left_amount(self) -> u32
        ensures { result ≡ left_amount self.value }
    {
        self.value - self.size().width()
    }

    /// The bits of a shift to the right, in LSR and ASR.
    pub fn right_amount(self) -> u32
        ensures { result ≡ right_amount self.value }
    {
        2 * self.size().width() - self.value
    }
}

impl StoreSizes {
    /// The store of these sizes, where an element is not wider in memory.
    pub fn of(msz: Size, size: Size) -> Option<Self>
        ensures { MatchOption result (size_number size < size_number msz) (λ x. (x.msz ≡ msz) × (x.size ≡ size)) }
    {
        if msz as u32 > size as u32 {
            return None;
        }
        Some(StoreSizes { msz, size })
    }
}
