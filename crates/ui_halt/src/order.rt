//! In which order the processes of a cut are shown.

use causal_world::World;
use dbg_base::{Cut, Pid};
use std::alloc::{AllocError, Global};

// Whether a process sent another one a message in the cut.
fn sends(world: &World, cut: &Cut, source: u32, target: u32) -> bool {
    world
        .tally()
        .sent(Pid(source), Pid(target), cut.count(Pid(source)))
        > 0
}

// How many processes at this distance a process sent a message to in the cut.
fn receivers(world: &World, cut: &Cut, distances: &[u32], source: u32, distance: u32) -> u32 {
    let mut count = 0u32;
    for (target, own) in (0u32..).zip(distances) {
        if *own == distance && sends(world, cut, source, target) {
            count = count.saturating_add(1);
        }
    }
    count
}

// Finds which processes are one message farther from a part than this distance.
fn spread(world: &World, cut: &Cut, distances: &mut [u32], distance: u32) {
    let processes = world.tally().processes();
    for p in 0..processes {
        let is_new = distances
            .get(p as usize)
            .is_some_and(|own| *own > processes);
        if is_new && receivers(world, cut, distances, p, distance) > 0 {
            if let Some(own) = distances.get_mut(p as usize) {
                *own = distance.saturating_add(1);
            }
        }
    }
}

// By how many messages each process is from one of these. One that is not connected has a distance of more than the number of processes.
fn distances(
    alloc: Global,
    world: &World,
    cut: &Cut,
    near: &[Pid],
) -> Result<Vec<u32>, AllocError> {
    let processes = world.tally().processes();
    let mut distances = vec![in alloc; u32::MAX; processes as usize]?;
    for pid in near {
        if let Some(own) = distances.get_mut(pid.0 as usize) {
            *own = 0;
        }
    }
    for distance in 0..processes {
        spread(world, cut, distances.as_mut_slice(), distance);
    }
    Ok(distances)
}

// What a process is ordered by: its distance, and among those of one distance how many nearer ones it sent to.
fn rank(world: &World, cut: &Cut, distances: &[u32], pid: u32) -> (u32, u32) {
    let own = distances.get(pid as usize).copied().unwrap_or(u32::MAX);
    match own.checked_sub(1) {
        Some(nearer) => (
            own,
            u32::MAX.saturating_sub(receivers(world, cut, distances, pid, nearer)),
        ),
        None => (0, 0),
    }
}

/// The processes in order: these first, then the others by how many messages they are from one of these.
pub(crate) fn ordered(
    alloc: Global,
    world: &World,
    cut: &Cut,
    first: &[Pid],
) -> Result<Vec<Pid>, AllocError> {
    let distances = distances(alloc, world, cut, first)?;
    let mut ranked = Vec::new(alloc);
    for p in 0..world.tally().processes() {
        if !first.contains(&Pid(p)) {
            let (distance, few) = rank(world, cut, distances.as_slice(), p);
            ranked.push((distance, few, p))?;
        }
    }
    ranked.sort()?;
    let mut order = Vec::from_slice(alloc, first)?;
    for (_, _, p) in &ranked {
        order.push(Pid(*p))?;
    }
    Ok(order)
}
