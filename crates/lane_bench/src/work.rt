//! What is timed.

use guest_types::operation::{LaneCompare, LaneOp, LaneUnary, PredOp, ReduceOp, ShiftOp};

/// A kernel that needs no memory.
#[derive(Clone, Copy)]
pub enum Work {
    Dup,
    Index,
    Select,
    Shift(ShiftOp),
    Negate,
    Absolute,
    Binary(LaneOp),
    Merge(LaneOp),
    Reduce(ReduceOp),
    AllTrue,
    WhileLo,
    Logic(PredOp),
    Break,
    Count,
    Compare(LaneCompare),
    PredTest,
}

/// A kernel that reads or writes a page.
#[derive(Clone, Copy)]
pub enum Access {
    Load,
    FirstFaultLoad,
    NonFaultLoad,
    Gather,
    Store,
}

/// Each of them in the order of the table.
pub const WORKS: [Work; 42] = [
    Work::Dup,
    Work::Index,
    Work::Select,
    Work::Shift(ShiftOp::Lsl),
    Work::Shift(ShiftOp::Lsr),
    Work::Shift(ShiftOp::Asr),
    Work::Negate,
    Work::Absolute,
    Work::Binary(LaneOp::Add),
    Work::Binary(LaneOp::Sub),
    Work::Binary(LaneOp::Mul),
    Work::Binary(LaneOp::And),
    Work::Binary(LaneOp::Or),
    Work::Binary(LaneOp::Xor),
    Work::Binary(LaneOp::Bic),
    Work::Binary(LaneOp::SMin),
    Work::Binary(LaneOp::SMax),
    Work::Binary(LaneOp::UMin),
    Work::Binary(LaneOp::UMax),
    Work::Merge(LaneOp::Add),
    Work::Merge(LaneOp::Mul),
    Work::Merge(LaneOp::SMin),
    Work::Merge(LaneOp::UMax),
    Work::Reduce(ReduceOp::UAdd),
    Work::Reduce(ReduceOp::SMax),
    Work::Reduce(ReduceOp::UMax),
    Work::Reduce(ReduceOp::SMin),
    Work::Reduce(ReduceOp::UMin),
    Work::Reduce(ReduceOp::Or),
    Work::Reduce(ReduceOp::Xor),
    Work::Reduce(ReduceOp::And),
    Work::AllTrue,
    Work::WhileLo,
    Work::Logic(PredOp::And),
    Work::Logic(PredOp::Eor),
    Work::Break,
    Work::Count,
    Work::Compare(LaneCompare::Eq),
    Work::Compare(LaneCompare::Hi),
    Work::Compare(LaneCompare::Ge),
    Work::Compare(LaneCompare::Gt),
    Work::PredTest,
];

/// Each access.
pub const ACCESSES: [Access; 5] = [
    Access::Load,
    Access::FirstFaultLoad,
    Access::NonFaultLoad,
    Access::Gather,
    Access::Store,
];

impl Work {
    /// Whether a predicate governs it.
    pub fn is_masked(self) -> bool {
        !matches!(
            self,
            Work::Dup
                | Work::Index
                | Work::Shift(_)
                | Work::Binary(_)
                | Work::AllTrue
                | Work::WhileLo
        )
    }

    /// What a line calls it.
    pub fn name(self) -> &'static str {
        match self {
            Work::Dup => "dup",
            Work::Index => "index",
            Work::Select => "select",
            Work::Shift(ShiftOp::Lsl) => "shift lsl",
            Work::Shift(ShiftOp::Lsr) => "shift lsr",
            Work::Shift(ShiftOp::Asr) => "shift asr",
            Work::Negate => "merge_one neg",
            Work::Absolute => "merge_one abs",
            Work::Binary(op) => binary_name(op),
            Work::Merge(op) => merge_name(op),
            Work::Reduce(op) => reduce_name(op),
            Work::AllTrue => "all_true",
            Work::WhileLo => "while_lo",
            Work::Logic(PredOp::And) => "logic and",
            Work::Logic(_) => "logic eor",
            Work::Break => "brk",
            Work::Count => "count",
            Work::Compare(op) => compare_name(op),
            Work::PredTest => "pred_test",
        }
    }
}

impl Access {
    /// What a line calls it.
    pub fn name(self) -> &'static str {
        match self {
            Access::Load => "load ld1",
            Access::FirstFaultLoad => "load ldff1",
            Access::NonFaultLoad => "load ldnf1",
            Access::Gather => "gather ld1",
            Access::Store => "store st1",
        }
    }
}

fn binary_name(op: LaneOp) -> &'static str {
    match op {
        LaneOp::Add => "binary add",
        LaneOp::Sub => "binary sub",
        LaneOp::Mul => "binary mul",
        LaneOp::And => "binary and",
        LaneOp::Or => "binary or",
        LaneOp::Xor => "binary xor",
        LaneOp::Bic => "binary bic",
        LaneOp::SMin => "binary smin",
        LaneOp::SMax => "binary smax",
        LaneOp::UMin => "binary umin",
        LaneOp::UMax => "binary umax",
    }
}

fn merge_name(op: LaneOp) -> &'static str {
    match op {
        LaneOp::Add => "merge add",
        LaneOp::Mul => "merge mul",
        LaneOp::SMin => "merge smin",
        LaneOp::UMax => "merge umax",
        _ => "merge",
    }
}

fn reduce_name(op: ReduceOp) -> &'static str {
    match op {
        ReduceOp::UAdd => "reduce uadd",
        ReduceOp::SMax => "reduce smax",
        ReduceOp::UMax => "reduce umax",
        ReduceOp::SMin => "reduce smin",
        ReduceOp::UMin => "reduce umin",
        ReduceOp::Or => "reduce or",
        ReduceOp::Xor => "reduce xor",
        ReduceOp::And => "reduce and",
    }
}

fn compare_name(op: LaneCompare) -> &'static str {
    match op {
        LaneCompare::Hs => "compare hs",
        LaneCompare::Hi => "compare hi",
        LaneCompare::Ge => "compare ge",
        LaneCompare::Gt => "compare gt",
        LaneCompare::Eq => "compare eq",
        LaneCompare::Ne => "compare ne",
    }
}
