//! A world of one router, whose moves are made at once: `lsr play` makes each by itself.

use crate::bench::{Bench, again};
use lab_world::{Move, World};
use lsr_config::Config;
use std::alloc::{AllocError, Global};

/// The world of the built-in router alone. The only error is out of memory.
fn open(alloc: Global) -> Result<World, AllocError> {
    let Ok(config) = Config::two_links(alloc) else {
        return Err(AllocError);
    };
    let configs = vec![in alloc; config]?;
    match World::new(alloc, configs, &[]) {
        Ok(world) => Ok(world),
        Err(_) => Err(AllocError),
    }
}

/// The moment that the world's router was told last. The only error is out of memory, since the router is there.
fn moment_in(alloc: Global, world: &World) -> Result<u64, AllocError> {
    match world.facts(alloc, 0) {
        Ok(state) => Ok(state.facts.moment),
        Err(_) => Err(AllocError),
    }
}

/// Makes moves at once, the first at moment 1, and tells the last moment. Where one of them finds no memory those before it stand, and
/// what is left is made at once.
fn make_at_once(bench: &Bench<'_>) -> Result<(), AllocError> {
    let alloc = bench.alloc;
    let mut world = open(alloc)?;
    let moves = [Move::Tick(0, 1), Move::Tick(0, 2), Move::Tick(0, 3)];
    let moves = moves.as_slice();
    if world.run(alloc, moves).is_err() {
        let made = moment_in(alloc, &world)? as usize;
        let left = moves.get(made..).unwrap_or(&[]);
        if world.run(alloc, left).is_err() {
            return Err(AllocError);
        }
    }
    let moment = moment_in(alloc, &world)?;
    bench.tell_filled("moves at once, up to moment #\n", &[moment]);
    Ok(())
}

/// Makes the moves, in a new world where there was no memory to begin. The only error is that memory ran out twice.
pub fn run(bench: &Bench<'_>) -> Result<(), AllocError> {
    bench.tell("== worlds\n");
    again!(make_at_once(bench), AllocError, {})
}
