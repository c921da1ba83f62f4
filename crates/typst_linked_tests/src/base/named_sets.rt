//! Tests of sets of kinds against their lists.
use crate::rows::{assert_at, assert_row, assert_text};
use std::process::Abort;
use std::test::Fail;
use typst_base::{SyntaxKind, SyntaxSet, named_sets};

/// Whether a set has exactly the kinds with these numbers.
fn has_exactly(set: SyntaxSet, numbers: &[u8]) -> bool {
    for number in 0..137u8 {
        let Some(kind) = SyntaxKind::from_u8(number) else {
            return false;
        };
        if set.contains(kind) != numbers.contains(&number) {
            return false;
        }
    }
    true
}

#[test]
fn a_set_prints_its_kinds_in_order(rt: HostRuntime) -> Result<(), Fail> {
    let alloc = rt.alloc();
    let set = SyntaxSet::new()
        .add(SyntaxKind::Text)
        .add(SyntaxKind::Space);
    let shown = format!(in alloc; "{:?} {:?}", set, SyntaxSet::new())?;
    assert_text(&rt, "two sets", &shown, "{Text, Space} {}");
    Ok(())
}

#[test]
fn sets_are_equal_by_their_kinds(rt: HostRuntime) {
    let one = SyntaxSet::new()
        .add(SyntaxKind::Text)
        .add(SyntaxKind::DestructAssignment);
    let same = SyntaxSet::new()
        .add(SyntaxKind::DestructAssignment)
        .add(SyntaxKind::Text);
    assert_row(&rt, "the same kinds", one == same);
    let fewer = same.remove(SyntaxKind::Text);
    assert_row(&rt, "fewer below 128", one != fewer);
    let fewer = same.remove(SyntaxKind::DestructAssignment);
    assert_row(&rt, "fewer from 128 on", one != fewer);
}

/// Asserts that a set has exactly the kinds with these numbers, and says which set.
fn assert_has(rt: &impl Abort, shows: &str, set: SyntaxSet, numbers: &[u8]) {
    assert_row(rt, shows, has_exactly(set, numbers));
}

/// The numbers of the kinds of expressions of math.
const MATH: &[u8] = &[
    45, 34, 35, 62, 52, 53, 46, 47, 50, 51, 33, 36, 8, 37, 42, 10, 104, 76, 77,
];

/// Those of the expressions of code that have no operator.
const ATOMIC: &[u8] = &[
    99, 46, 48, 50, 57, 83, 84, 85, 86, 87, 91, 89, 95, 96, 92, 93, 94, 81, 82, 101, 102, 100, 103,
    104, 20, 15,
];

/// Those of binary operators.
const BINARY: &[u8] = &[
    58, 59, 55, 60, 79, 80, 64, 65, 66, 67, 68, 69, 63, 90, 70, 71, 72, 73,
];

/// Those of expressions of code.
const CODE: &[u8] = &[
    99, 46, 48, 50, 57, 83, 84, 85, 86, 87, 91, 89, 95, 96, 92, 93, 94, 81, 82, 101, 102, 100, 103,
    104, 20, 15, 58, 59, 78, 56,
];

/// Those of items of arrays, dictionaries and arguments.
const ITEM: &[u8] = &[
    99, 46, 48, 50, 57, 83, 84, 85, 86, 87, 91, 89, 95, 96, 92, 93, 94, 81, 82, 101, 102, 100, 103,
    104, 20, 15, 58, 59, 78, 56, 74,
];

/// Those of patterns.
const PATTERN: &[u8] = &[
    99, 46, 48, 50, 57, 83, 84, 85, 86, 87, 91, 89, 95, 96, 92, 93, 94, 81, 82, 101, 102, 100, 103,
    104, 20, 15, 56,
];

/// Those of parameters and of items of patterns.
const PARAM: &[u8] = &[
    99, 46, 48, 50, 57, 83, 84, 85, 86, 87, 91, 89, 95, 96, 92, 93, 94, 81, 82, 101, 102, 100, 103,
    104, 20, 15, 56, 74,
];

#[test]
fn named_sets_have_exactly_their_kinds(rt: HostRuntime) {
    assert_has(&rt, "stmt", named_sets::stmt(), &[83, 84, 85, 95, 96, 94]);
    assert_has(&rt, "math_expr", named_sets::math_expr(), MATH);
    assert_has(
        &rt,
        "atomic_code_expr",
        named_sets::atomic_code_expr(),
        ATOMIC,
    );
    assert_has(&rt, "pattern_leaf", named_sets::pattern_leaf(), ATOMIC);
    assert_has(&rt, "unary_op", named_sets::unary_op(), &[58, 59, 78]);
    assert_has(&rt, "binary_op", named_sets::binary_op(), BINARY);
    assert_has(&rt, "code_expr", named_sets::code_expr(), CODE);
    assert_has(
        &rt,
        "array_or_dict_item",
        named_sets::array_or_dict_item(),
        ITEM,
    );
    assert_has(&rt, "arg", named_sets::arg(), ITEM);
    assert_has(&rt, "pattern", named_sets::pattern(), PATTERN);
    assert_has(&rt, "param", named_sets::param(), PARAM);
    assert_has(
        &rt,
        "destructuring_item",
        named_sets::destructuring_item(),
        PARAM,
    );
}

/// Whether the kind with a number can be in a set, and the set of it alone has no other.
fn is_held(number: u8) -> bool {
    match SyntaxKind::from_u8(number) {
        Some(kind) => SyntaxSet::fits(kind) && has_exactly(SyntaxSet::new().add(kind), &[number]),
        None => false,
    }
}

#[test]
fn sets_hold_kinds_on_both_sides_of_128(rt: HostRuntime) {
    let low = SyntaxSet::new().add(SyntaxKind::Let);
    assert_has(&rt, "one below", low, &[83]);
    assert_row(
        &rt,
        "none from 128 on",
        !low.contains(SyntaxKind::ImportItems),
    );
    let both = low.add(SyntaxKind::ImportItems);
    assert_has(&rt, "both", both, &[83, 128]);
    let without = both.remove(SyntaxKind::ImportItems);
    assert_has(&rt, "one removed", without, &[83]);
    let without = both.remove(SyntaxKind::Let);
    assert_has(&rt, "the other removed", without, &[128]);
    let last = SyntaxSet::new().add(SyntaxKind::DestructAssignment);
    let three = both.union(last);
    assert_has(&rt, "a union", three, &[83, 128, 136]);
    let and_or = SyntaxSet::new().add(SyntaxKind::And).add(SyntaxKind::Or);
    assert_has(&rt, "two below", and_or, &[79, 80]);
    let empty: SyntaxSet = Default::default();
    assert_has(&rt, "none", empty, &[]);
    for number in 0..137u8 {
        assert_at(&rt, "kind", number as usize, is_held(number));
    }
}
