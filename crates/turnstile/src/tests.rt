ghost use Rattle.std.specs.Prelude.{◌≡◌, ℕ, ◌<◌, ◌≤◌, Some, IfOk, IfSome, vec_len, slice_get};
ghost use Rattle.turnstile.specs.Passes.{IsOf, IsReady};

use crate::numbers::Numbers;
use crate::pass::Pass;
use crate::turns::Turns;
use crate::turnstile::Turnstile;
use std::alloc::{AllocError, Global};
use std::sync::Wait;
use std::test::Fail;
use std::thread::{Threads, join};

// A turn that adds the pass's number.
fn add_own<R: Wait>(rt: &R, turnstile: &Turnstile<Numbers>, pass: &mut Pass<Numbers>)
    requires of { IsOf turnstile.now pass.old }
    requires ready { IsReady pass.old }
    ensures of { IsOf turnstile.now pass.new }
    ensures ready { IsReady pass.new }
{
    let number = u64::from(pass.number());
    let mut held = turnstile.turn(rt, pass);
    let _ = held.value().add(number);
    held.done();
}

// A turn that changes nothing, and finds how many turns there are.
fn look<R: Wait>(rt: &R, turnstile: &Turnstile<Numbers>, pass: &mut Pass<Numbers>) -> u64
    requires of { IsOf turnstile.now pass.old }
    requires ready { IsReady pass.old }
    ensures of { IsOf turnstile.now pass.new }
    ensures ready { IsReady pass.new }
{
    let mut held = turnstile.turn(rt, pass);
    let count = held.value().count();
    held.done();
    count
}

// As many turns as `times` says that add, and as many that change nothing.
fn work<R: Wait>(
    rt: &R,
    turnstile: &Turnstile<Numbers>,
    mut pass: Pass<Numbers>,
    times: u32,
) -> Pass<Numbers>
    requires of { IsOf turnstile.now pass }
    requires ready { IsReady pass }
    ensures of { IsOf turnstile.now result }
    ensures ready { IsReady result }
{
    for _ in 0..times {
        add_own(rt, turnstile, &mut pass);
        look(rt, turnstile, &mut pass);
    }
    pass
}

// The lock over an empty list.
fn begun(alloc: Global, seats: u32) -> Result<(Turnstile<Numbers>, Vec<Pass<Numbers>>), AllocError>
    requires { (0 < seats) × (seats ≤ 256) }
    ensures count { IfOk result (λ r. vec_len r.1 ≡ seats) }
    ensures ready { IfOk result (λ r. (i : ℕ) (p : _) → slice_get r.1.items i ≡ Some p → IsOf r.0 p × IsReady p) }
{
    match Turnstile::begin(alloc, Numbers::new(alloc, 7), seats) {
        Ok(made) => Ok(made),
        Err((error, numbers)) => {
            drop(numbers.into_list());
            Err(error)
        }
    }
}

// The last of the passes.
fn last(turnstile: &Turnstile<Numbers>, passes: &mut Vec<Pass<Numbers>>) -> Option<Pass<Numbers>>
    requires { (i : ℕ) (p : _) → slice_get passes.old.items i ≡ Some p → IsOf turnstile.now p × IsReady p }
    ensures ready { (i : ℕ) (p : _) → slice_get passes.new.items i ≡ Some p → IsOf turnstile.now p × IsReady p }
    ensures last { IfSome result (λ p. IsOf turnstile.now p × IsReady p) }
{
    passes.pop()
}

// Takes two passes' turns in two threads, and joins the passes.
fn both<R: Threads + Wait + Sync>(
    rt: &R,
    turnstile: &Turnstile<Numbers>,
    a: Pass<Numbers>,
    b: Pass<Numbers>,
    times: u32,
) -> Pass<Numbers>
    requires a { IsOf turnstile.now a × IsReady a }
    requires b { IsOf turnstile.now b × IsReady b }
    ensures { IsOf turnstile.now result × IsReady result }
{
    let (mut kept, other) = join(
        rt,
        || -> Pass<Numbers>
            requires { IsOf turnstile.now a × IsReady a }
            ensures { IsOf turnstile.entry.now result × IsReady result }
        { work(rt, turnstile, a, times) },
        || -> Pass<Numbers>
            requires { IsOf turnstile.now b × IsReady b }
            ensures { IsOf turnstile.entry.now result × IsReady result }
        { work(rt, turnstile, b, times) },
    );
    turnstile.join(&mut kept, other);
    kept
}

fn count_of(list: &[u64], number: u64) -> usize {
    list.iter().filter(|n| **n == number).count()
}

#[test]
fn two_threads_of_a_thousand_turns(rt: HostRuntime) -> Result<(), Fail> {
    let (turnstile, mut passes) = begun(rt.alloc(), 2)?;
    let one = last(&turnstile, &mut passes);
    let two = last(&turnstile, &mut passes);
    let mut found = 0;
    if let (Some(one), Some(two)) = (one, two) {
        let mut kept = both(&rt, &turnstile, two, one, 1000);
        found = look(&rt, &turnstile, &mut kept);
    }
    let ended = turnstile.end();
    let Some(numbers) = ended else {
        panic!(rt; "the slot is empty")
    };
    let list = numbers.into_list();
    assert!(rt; found == 2000 && list.len() == 2000);
    assert!(rt; count_of(&list, 0) == 1000 && count_of(&list, 1) == 1000);
    Ok(())
}

#[test]
fn four_threads_with_turns_that_change_nothing(rt: HostRuntime) -> Result<(), Fail> {
    let (turnstile, mut passes) = begun(rt.alloc(), 4)?;
    let (a, b) = (last(&turnstile, &mut passes), last(&turnstile, &mut passes));
    let (c, d) = (last(&turnstile, &mut passes), last(&turnstile, &mut passes));
    if let (Some(a), Some(b), Some(c), Some(d)) = (a, b, c, d) {
        join(
            &rt,
            || drop(both(&rt, &turnstile, a, b, 50)),
            || drop(both(&rt, &turnstile, c, d, 50)),
        );
    }
    let ended = turnstile.end();
    let Some(numbers) = ended else {
        panic!(rt; "the slot is empty")
    };
    let list = numbers.into_list();
    assert!(rt; list.len() == 200);
    for number in 0..4 {
        assert!(rt; count_of(&list, number) == 50);
    }
    Ok(())
}

#[test]
fn numbers_go_from_0_to_255(rt: HostRuntime) -> Result<(), Fail> {
    let (turnstile, passes) = begun(rt.alloc(), 256)?;
    for (place, pass) in passes.iter().enumerate() {
        assert!(rt; pass.number() as usize == place);
    }
    let ended = turnstile.end();
    let Some(numbers) = ended else {
        panic!(rt; "the slot is empty")
    };
    let list = numbers.into_list();
    assert!(rt; passes.len() == 256 && list.is_empty());
    Ok(())
}

#[test]
fn one_seat_alone(rt: HostRuntime) -> Result<(), Fail> {
    let (turnstile, mut passes) = begun(rt.alloc(), 1)?;
    let only = last(&turnstile, &mut passes);
    if let Some(mut pass) = only {
        add_own(&rt, &turnstile, &mut pass);
        assert!(rt; look(&rt, &turnstile, &mut pass) == 1);
    }
    let ended = turnstile.end();
    let Some(numbers) = ended else {
        panic!(rt; "the slot is empty")
    };
    let list = numbers.into_list();
    assert!(rt; passes.is_empty() && list.len() == 1 && list[0] == 0);
    Ok(())
}
