// Lent numbers: what they hold before a trial, and whether a call left them alone.
use crate::messages::{Message, say};
use layout::offsets::MAX_SESSION;

// The numbers that a trial has for a session: one more than the largest needs.
pub const SPACE: usize = MAX_SESSION + 1;

// What every lent number holds before a trial.
pub const LENT: u32 = u32::MAX;

// What every lent total of 64 bits holds before a trial.
pub const LENT_TOTAL: u64 = u64::MAX;

// The first numbers or totals of a space, to be lent; that it has not so many is said.
pub fn first<'a, T>(rt: &impl Print, space: &'a mut [T], n: usize) -> Option<&'a mut [T]> {
    let lent = space.get_mut(..n);
    if lent.is_none() {
        say(rt, Message::TooLong);
    }
    lent
}

// Stores a number; that there is no place for it is said.
pub(crate) fn damage(rt: &impl Print, place: Option<&mut u32>, number: u32) {
    match place {
        Some(place) => *place = number,
        None => say(rt, Message::NoSuchPlace),
    }
}

// Numbers that must be as they were kept; that they are not is said.
pub fn compare(rt: &impl Print, numbers: &[u32], kept: &[u32]) {
    if numbers != kept {
        say(rt, Message::Changed);
    }
}

// Numbers or totals that must hold from a place on what they held when they were lent; that they do not is said.
pub fn untouched<T: PartialEq>(rt: &impl Print, lent: &[T], from: usize, held: &T) {
    if lent.iter().skip(from).any(|x| x != held) {
        say(rt, Message::Changed);
    }
}
