//! Fragments that are made, copied and looked at.

use grain_module::{Fragment, FragmentItem, Items};
use grain_value::{MOST_LEVELS, OutOfMemory};
use std::alloc::Global;
use std::process::Abort;

/// A block with an item of each kind.
fn block(alloc: Global) -> Result<Items, OutOfMemory> {
    let mut items = Items::new(alloc);
    items.push(FragmentItem::Let(3, Fragment::Literal(7)))?;
    items.push(FragmentItem::Eval(Fragment::Name(3)))?;
    items.push(FragmentItem::Eval(Fragment::This))?;
    items.push(FragmentItem::Eval(Fragment::Block(Items::new(alloc))))?;
    Ok(items)
}

fn is_empty_block(item: Option<&FragmentItem>) -> bool {
    match item {
        Some(FragmentItem::Eval(Fragment::Block(items))) => items.is_empty(),
        _ => false,
    }
}

fn check_items(rt: &impl Abort, items: &Items) {
    assert!(rt; items.len() == 4);
    assert!(rt;
        matches!(
            items.get(0),
            Some(FragmentItem::Let(3, Fragment::Literal(7)))
        )
    );
    assert!(rt; matches!(items.get(1), Some(FragmentItem::Eval(Fragment::Name(3)))));
    assert!(rt; matches!(items.get(2), Some(FragmentItem::Eval(Fragment::This))));
    assert!(rt; is_empty_block(items.get(3)));
}

#[test]
fn blocks_hold_items(rt: HostRuntime) {
    let items = block(rt.alloc()).expect(&rt, "memory");
    let copy = items.copy(rt.alloc()).expect(&rt, "memory");
    check_items(&rt, &copy);
}

/// A fragment within `levels` blocks.
fn nested(alloc: Global, levels: usize) -> Result<Fragment, OutOfMemory> {
    let mut fragment = Fragment::This;
    for _ in 0..levels {
        let mut items = Items::new(alloc);
        items.push(FragmentItem::Eval(fragment))?;
        fragment = Fragment::Block(items);
    }
    Ok(fragment)
}

/// Whether a block takes this fragment.
fn block_takes(alloc: Global, fragment: Fragment) -> bool {
    let mut items = Items::new(alloc);
    let refused = items.push(FragmentItem::Let(0, fragment)).is_err();
    !refused || !items.is_empty()
}

#[test]
fn blocks_nest_so_deep_and_no_deeper(rt: HostRuntime) {
    assert!(rt; nested(rt.alloc(), MOST_LEVELS + 1).is_err());
    let deepest = nested(rt.alloc(), MOST_LEVELS).expect(&rt, "memory");
    let copy = deepest.copy(rt.alloc()).expect(&rt, "memory");
    assert!(rt; !block_takes(rt.alloc(), copy));
}
