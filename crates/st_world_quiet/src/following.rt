//! What becomes of a Send, event by event.

ghost use Rattle.std.specs.Prelude.{◌≡◌, suc, ◌+◌, ◌<◌, ◌≤◌, ◌^◌, ◌∷◌, [], IfErr, OnOk};
ghost use Rattle.st_world_quiet.specs.Worlds.{Met};
ghost use Rattle.st_world_quiet.specs.LostWorlds as worlds;
ghost use Rattle.st_world_quiet.specs.LostWorlds.{course_at, following, gives_by, going_by, losing_by, puts_by, stranding_by};
ghost use Rattle.st_world_quiet.specs.Playing.{Stops};
ghost use Rattle.st_world_quiet.specs.Fates.{courses_of};

use crate::fate::{Fate, fate_at};
use crate::steps::take;
use crate::stop::Stop;
use st_ilp::Moment;
use st_world::{Event, World};
use st_world_parts::Way;
use std::alloc::Allocator;

/// How many Prepares the first `sends` Sends put on a link.
fn puts_before(fates: &[Fate], sends: usize, link: usize) -> usize
    ensures count { result ≡ puts_by (course_at (courses_of fates.now)) sends link }
    ensures few { result ≤ sends }
{
    let mut count: usize = 0;
    for send in 0..sends {
        count += fate_at(fates, send).prepares(link);
    }
    count
}

/// How many answers were given on a link of a chain of `all` hops for the first `sends` Sends.
fn answers_before(fates: &[Fate], all: usize, sends: usize, link: usize) -> usize
    ensures count { result ≡ gives_by all (course_at (courses_of fates.now)) sends link }
    ensures few { result ≤ sends }
{
    let mut count: usize = 0;
    for send in 0..sends {
        count += fate_at(fates, send).gives(all, link);
    }
    count
}

/// The number of the Prepare that the Send after `sends` others prepares on a link.
fn prepare(fates: &[Fate], sends: usize, link: usize) -> usize
    requires { sends + 1 < 2 ^ 64 }
    ensures { result ≡ suc (puts_by (course_at (courses_of fates.now)) sends link) }
{
    puts_before(fates, sends, link) + 1
}

/// The number of the answer that is given on a link for that Send.
fn answer(fates: &[Fate], all: usize, sends: usize, link: usize) -> usize
    requires { sends + 1 < 2 ^ 64 }
    ensures { result ≡ suc (gives_by all (course_at (courses_of fates.now)) sends link) }
{
    answers_before(fates, all, sends, link) + 1
}

/// A Prepare crosses a link and the `hops` hops after it, and its answer returns to the first of them.
fn go<A: Allocator + Copy>(
    world: &mut World<A>,
    fates: &[Fate],
    all: usize,
    sends: usize,
    link: usize,
    hops: usize,
    now: Moment,
) -> Result<(), Stop>
    requires numbers { sends + 1 < 2 ^ 64 }
    requires links { link + hops < 2 ^ 64 }
    ensures met { OnOk result (Met world.old (going_by
        (puts_by (course_at (courses_of fates.now)) sends) (gives_by all (course_at (courses_of fates.now)) sends) link hops now) world.new) }
    ensures stops { IfErr result (λ e. Stops ⊥ ⊥ e world.old world.new) }
{
    let put = prepare(fates, sends, link);
    take(world, &Event::Arrive(link, Way::ToServer, put, now))?;
    if hops == 0 {
        return Ok(());
    }
    go(world, fates, all, sends, link + 1, hops - 1, now)?;
    let given = answer(fates, all, sends, link + 1);
    take(
        world,
        &Event::AnswerArrives(link + 1, Way::ToServer, given, now),
    )
}

/// A Prepare is lost after `past` of the `hops` hops that follow a link: each of those forwards it, and meets a fault.
fn lose<A: Allocator + Copy>(
    world: &mut World<A>,
    fates: &[Fate],
    sends: usize,
    link: usize,
    past: usize,
    hops: usize,
    now: Moment,
) -> Result<(), Stop>
    requires numbers { sends + 1 < 2 ^ 64 }
    requires links { link + hops < 2 ^ 64 }
    ensures met { OnOk result (Met world.old (losing_by (puts_by (course_at (courses_of fates.now)) sends) link past hops now) world.new) }
    ensures stops { IfErr result (λ e. Stops ⊥ ⊥ e world.old world.new) }
{
    if past == 0 {
        return Ok(());
    }
    if hops == 0 {
        return Ok(());
    }
    let put = prepare(fates, sends, link);
    take(world, &Event::Arrive(link, Way::ToServer, put, now))?;
    lose(world, fates, sends, link + 1, past - 1, hops - 1, now)?;
    let next = prepare(fates, sends, link + 1);
    take(world, &Event::Fault(link + 1, Way::ToServer, next, now))
}

/// A Prepare crosses a link and all `hops` hops after it. Its answer does not reach the first `past` of them, which
/// meet a fault: it returns to those after that.
fn strand<A: Allocator + Copy>(
    world: &mut World<A>,
    fates: &[Fate],
    all: usize,
    sends: usize,
    link: usize,
    past: usize,
    hops: usize,
    now: Moment,
) -> Result<(), Stop>
    requires numbers { sends + 1 < 2 ^ 64 }
    requires links { link + hops < 2 ^ 64 }
    ensures met { OnOk result (Met world.old (stranding_by
        (puts_by (course_at (courses_of fates.now)) sends) (gives_by all (course_at (courses_of fates.now)) sends) link past hops now) world.new) }
    ensures stops { IfErr result (λ e. Stops ⊥ ⊥ e world.old world.new) }
{
    if past == 0 {
        return go(world, fates, all, sends, link, hops, now);
    }
    let put = prepare(fates, sends, link);
    take(world, &Event::Arrive(link, Way::ToServer, put, now))?;
    if hops == 0 {
        return Ok(());
    }
    strand(world, fates, all, sends, link + 1, past - 1, hops - 1, now)?;
    let next = prepare(fates, sends, link + 1);
    take(world, &Event::Fault(link + 1, Way::ToServer, next, now))
}

/// The client receives the answer that the first link carries.
fn arrive<A: Allocator + Copy>(
    world: &mut World<A>,
    fates: &[Fate],
    all: usize,
    sends: usize,
    now: Moment,
) -> Result<(), Stop>
    requires { sends + 1 < 2 ^ 64 }
    ensures met { OnOk result (Met world.old (following worlds.Arrives
        (puts_by (course_at (courses_of fates.now)) sends) (gives_by all (course_at (courses_of fates.now)) sends) all now) world.new) }
    ensures stops { IfErr result (λ e. Stops ⊥ ⊥ e world.old world.new) }
{
    go(world, fates, all, sends, 0, all, now)?;
    let given = answer(fates, all, sends, 0);
    take(world, &Event::AnswerArrives(0, Way::ToServer, given, now))
}

/// The Prepare is lost on a link, and the client meets a fault.
fn lose_prepare<A: Allocator + Copy>(
    world: &mut World<A>,
    fates: &[Fate],
    all: usize,
    sends: usize,
    at: usize,
    now: Moment,
) -> Result<(), Stop>
    requires { sends + 1 < 2 ^ 64 }
    ensures met { OnOk result (Met world.old (following (worlds.PrepareLost at)
        (puts_by (course_at (courses_of fates.now)) sends) (gives_by all (course_at (courses_of fates.now)) sends) all now) world.new) }
    ensures stops { IfErr result (λ e. Stops ⊥ ⊥ e world.old world.new) }
{
    lose(world, fates, sends, 0, at, all, now)?;
    let put = prepare(fates, sends, 0);
    take(world, &Event::Fault(0, Way::ToServer, put, now))
}

/// The answer is lost on a link, and the client meets a fault.
fn lose_answer<A: Allocator + Copy>(
    world: &mut World<A>,
    fates: &[Fate],
    all: usize,
    sends: usize,
    at: usize,
    now: Moment,
) -> Result<(), Stop>
    requires { sends + 1 < 2 ^ 64 }
    ensures met { OnOk result (Met world.old (following (worlds.AnswerLost at)
        (puts_by (course_at (courses_of fates.now)) sends) (gives_by all (course_at (courses_of fates.now)) sends) all now) world.new) }
    ensures stops { IfErr result (λ e. Stops ⊥ ⊥ e world.old world.new) }
{
    strand(world, fates, all, sends, 0, at, all, now)?;
    let put = prepare(fates, sends, 0);
    take(world, &Event::Fault(0, Way::ToServer, put, now))
}

/// What becomes of the Send after `sends` others, on a chain of `all` hops.
pub(crate) fn follow<A: Allocator + Copy>(
    world: &mut World<A>,
    fates: &[Fate],
    all: usize,
    sends: usize,
    now: Moment,
) -> Result<(), Stop>
    requires { sends + 1 < 2 ^ 64 }
    ensures met { OnOk result (Met world.old (following (course_at (courses_of fates.now) sends)
        (puts_by (course_at (courses_of fates.now)) sends) (gives_by all (course_at (courses_of fates.now)) sends) all now) world.new) }
    ensures stops { IfErr result (λ e. Stops ⊥ ⊥ e world.old world.new) }
{
    match fate_at(fates, sends) {
        Fate::Delivered => arrive(world, fates, all, sends, now),
        Fate::PrepareLost(at) => lose_prepare(world, fates, all, sends, at, now),
        Fate::AnswerLost(at) => lose_answer(world, fates, all, sends, at, now),
    }
}
