//! What is printed of the flows that move.
use crate::flows::{FLOWS, Moves, PATHS_MAX, moves_of};
use bench_kit::{Draws, Fault, printed, tenths};

/// Where the draws begin.
const SEED: u64 = 1;

/// Draws so many groups of each size, lets a path of each leave, and prints how many flows move.
pub(crate) fn report_flows<R: Print + AllocGlobal>(rt: &R, groups: u32) -> Result<(), Fault> {
    let mut draws = Draws::new(SEED);
    for paths in 2..=PATHS_MAX {
        let moves = moves_of(rt.alloc(), &mut draws, paths, groups)?;
        print_moves(rt, paths, groups, &moves)?;
    }
    Ok(())
}

/// Prints how many flows of a group went by the path that leaves, and how many move in each
/// profile, on the average of the groups.
fn print_moves<R: Print>(rt: &R, paths: u32, groups: u32, moves: &Moves) -> Result<(), Fault> {
    let groups = u128::from(groups);
    let (gone, gone_tenths) = tenths(u128::from(moves.gone), groups);
    let (plain, plain_tenths) = tenths(u128::from(moves.plain), groups);
    let (resilient, resilient_tenths) = tenths(u128::from(moves.resilient), groups);
    printed(println!(rt;
        "flows {groups}: {paths} paths, of {FLOWS} flows {gone}.{gone_tenths} by the path that leaves, {plain}.{plain_tenths} move in profile 1, {resilient}.{resilient_tenths} in profile 2"
    ))
}
