//! Tests of the walk over the kinds of a set.
use crate::rows::{assert_row, assert_text};
use std::alloc::{AllocError, Global};
use std::test::Fail;
use typst_base::{SyntaxKind, SyntaxKinds, SyntaxSet, named_sets};

/// Kinds on both sides of 128, in an order of their own.
const ADDED: [SyntaxKind; 6] = [
    SyntaxKind::DestructAssignment,
    SyntaxKind::Let,
    SyntaxKind::ImportItems,
    SyntaxKind::End,
    SyntaxKind::ModuleImport,
    SyntaxKind::Let,
];

/// The same kinds in order.
const ORDERED: [SyntaxKind; 5] = [
    SyntaxKind::End,
    SyntaxKind::Let,
    SyntaxKind::ModuleImport,
    SyntaxKind::ImportItems,
    SyntaxKind::DestructAssignment,
];

/// Those of them from 128 on.
const HIGH: [SyntaxKind; 2] = [SyntaxKind::ImportItems, SyntaxKind::DestructAssignment];

/// The set of these kinds.
fn set_of(kinds: &[SyntaxKind]) -> SyntaxSet {
    let mut set = SyntaxSet::new();
    for kind in kinds {
        set = set.add(*kind);
    }
    set
}

/// Whether a walk over a set gives these kinds in this order.
fn gives(alloc: Global, set: SyntaxSet, wanted: &[SyntaxKind]) -> Result<bool, AllocError> {
    let kinds: Vec<SyntaxKind> = set.kinds().collect(alloc)?;
    Ok(kinds.as_slice() == wanted)
}

#[test]
fn a_walk_gives_kinds_on_both_sides_of_128_in_order(rt: HostRuntime) -> Result<(), Fail> {
    let set = set_of(&ADDED);
    assert_row(&rt, "all", gives(rt.alloc(), set, &ORDERED)?);
    let high = set
        .remove(SyntaxKind::End)
        .remove(SyntaxKind::Let)
        .remove(SyntaxKind::ModuleImport);
    assert_row(&rt, "those from 128 on", gives(rt.alloc(), high, &HIGH)?);
    Ok(())
}

#[test]
fn a_walk_over_the_empty_set_gives_nothing(rt: HostRuntime) {
    let mut kinds = SyntaxSet::new().kinds();
    assert_row(&rt, "none is left", kinds.len() == 0);
    assert_row(&rt, "none comes", kinds.next().is_none());
    assert_row(&rt, "none comes then", kinds.next().is_none());
}

/// How a walk is shown.
fn shown(alloc: Global, kinds: &SyntaxKinds) -> Result<String, AllocError> {
    format!(in alloc; "{kinds:?}")
}

/// Whether a walk over three kinds tells that they are left, and gives a plus first.
fn begins(kinds: &mut SyntaxKinds) -> bool {
    kinds.size_hint() == (3, Some(3)) && kinds.next() == Some(SyntaxKind::Plus)
}

/// Whether the walk then gives a minus, and tells that one kind is left.
fn goes_on(kinds: &mut SyntaxKinds) -> bool {
    kinds.next() == Some(SyntaxKind::Minus) && kinds.len() == 1
}

/// Whether it then gives `not`, and ends.
fn ends(kinds: &mut SyntaxKinds) -> bool {
    kinds.next() == Some(SyntaxKind::Not) && kinds.next().is_none()
}

#[test]
fn a_walk_tells_how_many_kinds_are_left(rt: HostRuntime) -> Result<(), Fail> {
    let mut kinds = named_sets::unary_op().kinds();
    assert_row(&rt, "three are left", begins(&mut kinds));
    let mut copy = kinds.clone()?;
    assert_row(&rt, "one is left", goes_on(&mut kinds));
    let left = "SyntaxKinds { left: {Not} }";
    assert_text(&rt, "it is shown", &shown(rt.alloc(), &kinds)?, left);
    assert_row(&rt, "none is left", ends(&mut kinds));
    assert_row(&rt, "a copy goes on alike", goes_on(&mut copy));
    Ok(())
}

/// The set of the kinds that a walk over a set gives, if it gives each once and only kinds of the set.
fn walked(set: SyntaxSet) -> Option<SyntaxSet> {
    let mut seen = SyntaxSet::new();
    for kind in set {
        if !set.contains(kind) || seen.contains(kind) {
            return None;
        }
        seen = seen.add(kind);
    }
    Some(seen)
}

#[test]
fn a_for_over_a_set_gives_each_kind_once(rt: HostRuntime) {
    let code = named_sets::code_expr();
    assert_row(&rt, "each once", walked(code) == Some(code));
    assert_row(&rt, "30 of code", code.kinds().count() == 30);
    let math = named_sets::math_expr();
    assert_row(&rt, "19 of math", math.kinds().count() == 19);
}

#[test]
fn a_walk_over_all_kinds_gives_their_numbers_in_order(rt: HostRuntime) {
    let mut all = SyntaxSet::new();
    for number in 0..137u8 {
        all = all.add(SyntaxKind::from_u8(number).expect(&rt, "a kind"));
    }
    let mut kinds = all.kinds();
    for number in 0..137u8 {
        let same = kinds.next() == SyntaxKind::from_u8(number);
        assert_row(&rt, "a kind in order", same);
    }
    assert_row(&rt, "none comes then", kinds.next().is_none());
}
