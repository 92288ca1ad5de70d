//! A worked kernel through this crate and the forms of loops below it, which have no reader of kernels.

use check_text::check_text;
use dependence::reason::{Class, Why};
use guest_types::length::Width;
use kernel_front::accept;
use kernel_tree::{BinaryOp, Checked, Ty};
use loop_class::class;
use loop_form::need::Needs;
use loop_form::{Item, ItemKind, LoopOp, Operand, Stream};
use loop_items::loop_items;
use loop_lists::{index_reach, intervals, lane_width, listing, needs, streams};
use reg_assign::{Interval, RegClass};
use std::alloc::{AllocError, Global};
use std::test::Fail;

const AXPY: &str =
    "kernel axpy(y: [i32], x: [i32], k: i32, n: u64) { for i in 0..n { y[i] = y[i] + k * x[i]; } }";

const SPREAD: &str = "kernel spread(a: [u8], n: u64) { for i in 0..n { a[i + 1] = a[i]; } }";

const LOOKED_UP: &str =
    "kernel f(t: [u8], x: [u16], a: [u64], n: u64) { for i in 0..n { a[i] = (t[x[i]] + t[a[i]] + t[i]) as u64; } }";

fn item(kind: ItemKind, ty: Option<Ty>, last_use: Option<u32>) -> Item {
    Item {
        kind,
        ty,
        x_last_use: last_use,
        z_last_use: last_use,
        p_last_use: None,
    }
}

// The loop is item 4, y[i] item 5, k item 6, x[i] item 7, the product item 8, the sum item 9, and the store item 10.
#[test]
fn items_and_values(rt: HostRuntime) -> Result<(), Fail> {
    let kernel = accept(rt.alloc(), AXPY.as_bytes())?;
    let items = listing(rt.alloc(), &kernel)?;
    let int = Some(Ty::I32);
    let last = [
        item(ItemKind::For, None, None),
        item(ItemKind::Read, int, Some(9)),
        item(ItemKind::Name, int, None),
        item(ItemKind::Read, int, Some(8)),
        item(ItemKind::Binary, int, Some(9)),
        item(ItemKind::Binary, int, Some(10)),
        item(ItemKind::Store, None, None),
    ];
    assert!(rt; items.len() == 11 && items.as_slice().ends_with(&last));
    Ok(())
}

fn stream(param: u32, store: bool, item: u32) -> Stream {
    Stream {
        param,
        offset: 0,
        store,
        item,
    }
}

#[test]
fn accesses_in_their_order(rt: HostRuntime) -> Result<(), Fail> {
    let kernel = accept(rt.alloc(), AXPY.as_bytes())?;
    let streams = streams(rt.alloc(), &kernel)?;
    let want = [
        stream(0, false, 5),
        stream(1, false, 7),
        stream(0, true, 10),
    ];
    assert!(rt; streams.as_slice() == want.as_slice());
    Ok(())
}

// t[x[i]] is item 6, with x[i] before it, t[a[i]] item 8, and t[i] item 10.
#[test]
fn reaches_of_indexes(rt: HostRuntime) -> Result<(), Fail> {
    let kernel = accept(rt.alloc(), LOOKED_UP.as_bytes())?;
    let found = [
        index_reach(&kernel, 5),
        index_reach(&kernel, 6),
        index_reach(&kernel, 8),
        index_reach(&kernel, 10),
    ];
    assert!(rt; found == [None, Some(65_536), None, None]);
    Ok(())
}

fn interval(from: u32, last_use: u32) -> Interval {
    Interval { from, last_use }
}

// How many values stand in predicate registers and in general ones.
fn counts(alloc: Global, kernel: &Checked) -> Result<[usize; 2], AllocError> {
    let p = intervals(alloc, kernel, RegClass::P)?;
    let x = intervals(alloc, kernel, RegClass::X)?;
    Ok([p.len(), x.len()])
}

// k is held throughout, and each value until the item that uses it.
#[test]
fn intervals_of_values(rt: HostRuntime) -> Result<(), Fail> {
    let kernel = accept(rt.alloc(), AXPY.as_bytes())?;
    let want = [
        interval(0, 11),
        interval(5, 9),
        interval(7, 8),
        interval(8, 9),
        interval(9, 10),
    ];
    let z = intervals(rt.alloc(), &kernel, RegClass::Z)?;
    assert!(rt; z.as_slice() == want.as_slice() && counts(rt.alloc(), &kernel)? == [0, 4]);
    Ok(())
}

#[test]
fn items_of_the_loop(rt: HostRuntime) -> Result<(), Fail> {
    let kernel = accept(rt.alloc(), AXPY.as_bytes())?;
    let items = loop_items(rt.alloc(), &kernel)?;
    let [first, _, product, _, last] = items.as_slice() else {
        return Err("not five items".into());
    };
    assert!(rt; [first.item, last.item] == [5, 10]);
    assert!(rt;
        matches!(
            product.op,
            LoopOp::Binary {
                op: BinaryOp::Mul,
                ty: Some(Ty::I32),
                left: Operand::Outer(2),
                right: Operand::Made(7),
            }
        )
    );
    Ok(())
}

#[test]
fn needs_of_a_kernel(rt: HostRuntime) -> Result<(), Fail> {
    let axpy = accept(rt.alloc(), AXPY.as_bytes())?;
    let needed = Needs {
        size: 11,
        z: 3,
        p: 0,
        x: 2,
    };
    assert!(rt; needs(rt.alloc(), &axpy)? == needed && lane_width(&axpy) == Width::S);
    Ok(())
}

fn class_of(alloc: Global, text: &str) -> Result<Class, Fail> {
    let kernel = accept(alloc, text.as_bytes())?;
    Ok(class(&kernel))
}

#[test]
fn classes(rt: HostRuntime) -> Result<(), Fail> {
    let found = [class_of(rt.alloc(), AXPY)?, class_of(rt.alloc(), SPREAD)?];
    let carried = Class::Scalar { why: Why::Carried };
    assert!(rt; found == [Class::Vector, carried]);
    Ok(())
}

#[test]
fn text_of_a_kernel(rt: HostRuntime) -> Result<(), Fail> {
    let kernel = accept(rt.alloc(), SPREAD.as_bytes())?;
    let text = check_text(rt.alloc(), &kernel)?;
    let lines =
        b"kernel spread ( a : [ u8 ] , n : u64 ) { for i in 0 .. n { a [ i + 1 ] = a [ i ] ; } }\nsize 5\nclass scalar carried\nneed x 1\n";
    assert!(rt; text.as_slice() == lines.as_slice());
    Ok(())
}
