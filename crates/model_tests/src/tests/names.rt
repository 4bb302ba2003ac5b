//! The bits of status words, and the numbers and names of faults of boards.

use super::expected::same;
use bitflags::Flags;
use board::{FaultKind, Key};
use pmbus_table::StatusWord;
use std::test::*;

#[test]
fn status_bits(rt: HostRuntime) {
    let word = StatusWord::from_bits_retain(0x0842);
    let set = StatusWord::POWER_GOOD_N | StatusWord::OFF | StatusWord::CML;
    let has = (word.contains(set), word.contains(StatusWord::BUSY));
    same(&rt, (has, word.bits()), ((true, false), 0x0842));
}

#[test]
fn faults_of_boards(rt: HostRuntime) {
    same(&rt, FaultKind::Memory.number(), 1);
    same(&rt, FaultKind::UnknownCommand.number(), 10);
    same(&rt, FaultKind::BadKey.number(), 16);
    same(&rt, FaultKind::SelfNeed.name(), "SelfNeed");
    same(&rt, Key::LimitUv.name(), "limit_uv");
}
