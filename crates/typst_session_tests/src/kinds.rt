//! Kinds by their numbers and names, for which no session is needed.
use crate::answers::{Answer, value, written};
use crate::calls::Call::Kind;
use crate::calls::{Call, follow};
use KindCall::{Classes, KindOfName, SetHolds, WriteName};
use std::alloc::Global;
use std::test::Fail;
use typst_session::kinds;

/// A call that looks up a kind.
#[derive(Clone, Copy)]
pub(crate) enum KindCall {
    /// By a number, into a buffer of this length.
    WriteName(u32, usize),
    /// By a name.
    KindOfName(&'static [u8]),
    /// By a number.
    Classes(u32),
    /// By the number of a set and of a kind.
    SetHolds(u32, u32),
}

/// What the call answers.
pub(crate) fn answer(alloc: Global, call: KindCall) -> Answer {
    match call {
        KindCall::WriteName(number, room) => name(alloc, number, room),
        KindCall::KindOfName(name) => value(alloc, kinds::kind_of_name(name)),
        KindCall::Classes(number) => classes(alloc, number),
        KindCall::SetHolds(set, kind) => value(alloc, kinds::set_holds(set, kind)),
    }
}

/// The name of a kind in a buffer.
fn name(alloc: Global, number: u32, room: usize) -> Answer {
    let (mut out, mut len) = (vec![in alloc; b'#'; room]?, 77);
    let outcome = kinds::write_name(number, &mut out, &mut len);
    written(alloc, outcome, len, &out)
}

/// Grouping, terminator, block, statement, keyword and trivia, a digit each.
fn classes(alloc: Global, number: u32) -> Answer {
    match kinds::classes(number) {
        Ok(one) => {
            let first = format!(in alloc; "{}{}{}", one.grouping, one.terminator, one.block)?;
            Ok(format!(in alloc; "{first}{}{}{}", one.stmt, one.keyword, one.trivia)?)
        }
        Err(refusal) => Err(refusal),
    }
}

/// Calls that need no session.
const KINDS: &[(Call, &str)] = &[
    (Kind(WriteName(0, 14)), "done: 13 end of tokens#"),
    (
        Kind(WriteName(0, 12)),
        "the buffer is too short: 13 ############",
    ),
    (Kind(WriteName(1, 12)), "done: 12 syntax error"),
    (
        Kind(WriteName(137, 2)),
        "no leaf or inner node can have this kind: 77 ##",
    ),
    (
        Kind(WriteName(256, 2)),
        "no leaf or inner node can have this kind: 77 ##",
    ),
    (Kind(KindOfName(b"syntax error")), "1"),
    (Kind(KindOfName(b"keyword `let`")), "83"),
    (Kind(KindOfName(b"no kind")), "there is no such node"),
    (Kind(Classes(47)), "110000"),
    (Kind(Classes(105)), "001000"),
    (Kind(Classes(120)), "000100"),
    (Kind(Classes(83)), "000010"),
    (Kind(Classes(7)), "000001"),
    (
        Kind(Classes(137)),
        "no leaf or inner node can have this kind",
    ),
    (Kind(SetHolds(0, 83)), "true"),
    (Kind(SetHolds(3, 83)), "false"),
    (Kind(SetHolds(4, 58)), "true"),
    (Kind(SetHolds(12, 0)), "no set of kinds has this number"),
    (
        Kind(SetHolds(11, 137)),
        "no leaf or inner node can have this kind",
    ),
];

#[test]
fn kinds_are_looked_up(rt: HostRuntime) -> Result<(), Fail> {
    follow(&rt, rt.alloc(), "", KINDS)
}
