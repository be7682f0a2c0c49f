//! A call for each element of a slice, all at once.
ghost use Rattle.std.specs.Prelude.{◌+◌, ◌^◌, ◌<◌, length};
ghost use denote.Param.Send.{IsSync, IsSend};
ghost use Rattle.std.specs.Fork.{AcceptsAt, ChangesAt, AcceptsEach, ChangesEach};
ghost use Rattle.own_stacks.specs.Places.{AtEach, AcrossEach};

use crate::joining::join_mut_with_stack;
use std::marker::{Send, Sync};
use std::sync::Wait;
use std::thread::Threads;

/// Calls f(i, &mut s[i]) at each place.
pub fn for_each_mut_with_stack<R: Threads + Wait + Sync, T: Send, F: Fn(usize, &mut T) + Sync>(
    rt: &R,
    stack_bytes: usize,
    s: &mut [T],
    f: &F,
)
    requires { AcceptsEach F.Fn f.now s.old }
    ensures { ChangesEach F.Fn f.now s.old s.new }
{
    if !s.is_empty() {
        calls_from(rt, f, &stack_bytes, 0, s);
    }
}

// The slice is the last parameter because the borrow checker doesn't cover a closure that reads a
// captured `&` after it lends a captured `&mut`.
#[cycle(halves)]
fn calls_from<R: Threads + Wait + Sync, T: Send, F: Fn(usize, &mut T) + Sync>(
    rt: &R,
    f: &F,
    stack_bytes: &usize,
    base: usize,
    s: &mut [T],
)
    requires some { 0 < length s.old }
    requires room { base + length s.old < 2 ^ 64 }
    requires accepts { AtEach (AcceptsAt F.Fn f.now) base s.old }
    ensures { AcrossEach (ChangesAt F.Fn f.now) base s.old s.new }
{
    if s.len() == 1 {
        call_at(f, base, &mut s[0]);
        return;
    }
    let low = s.len() / 2;
    let (front, back) = s.split_at_mut(low);
    both_halves(rt, f, stack_bytes, base, front, base + low, back);
}

// A function of its own, so that what the closures require is what it is given.
#[cycle(halves)]
fn both_halves<R: Threads + Wait + Sync, T: Send, F: Fn(usize, &mut T) + Sync>(
    rt: &R,
    f: &F,
    stack_bytes: &usize,
    base: usize,
    left: &mut [T],
    up: usize,
    right: &mut [T],
)
    requires front_some { 0 < length left.old }
    requires front_room { base + length left.old < 2 ^ 64 }
    requires front_accepts { AtEach (AcceptsAt F.Fn f.now) base left.old }
    requires back_some { 0 < length right.old }
    requires back_room { up + length right.old < 2 ^ 64 }
    requires back_accepts { AtEach (AcceptsAt F.Fn f.now) up right.old }
    ensures front { AcrossEach (ChangesAt F.Fn f.now) base left.old left.new }
    ensures back { AcrossEach (ChangesAt F.Fn f.now) up right.old right.new }
{
    let mut front = ||
        requires { IsSync R.row × IsSync F.row × IsSend T.row × (0 < length left.now)
            × (base + length left.now < 2 ^ 64) × (AtEach (AcceptsAt F.Fn f.now) base left.now) }
        ensures { AcrossEach (ChangesAt F.Fn f.entry.now) base left.entry.now left.exit.now }
    { calls_from(rt, f, stack_bytes, base, left) };
    let mut back = ||
        requires { IsSync R.row × IsSync F.row × IsSend T.row × (0 < length right.now)
            × (up + length right.now < 2 ^ 64) × (AtEach (AcceptsAt F.Fn f.now) up right.now) }
        ensures { AcrossEach (ChangesAt F.Fn f.entry.now) up right.entry.now right.exit.now }
    { calls_from(rt, f, stack_bytes, up, right) };
    join_mut_with_stack(rt, *stack_bytes, &mut front, &mut back);
}

fn call_at<T, F: Fn(usize, &mut T)>(f: &F, i: usize, it: &mut T)
    requires { AcceptsAt F.Fn f.now i it.old }
    ensures { ChangesAt F.Fn f.now i it.old it.new }
{
    f(i, it);
}
