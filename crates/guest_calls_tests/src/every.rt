//! What each import breaks: above its highest level rule 5, whatever its words are, and then rule 9
//! where a word is missing.

use crate::replies::Comes;
use crate::steps::{Step, is_taken};
use crate::worlds::world;
use guest_world::World;
use log_fields::Handler;
use std::alloc::Global;

/// How many words each import takes.
const WORDS: [usize; 64] = [
    4, 2, 3, 1, 1, 5, 3, 5, 1, 4, 4, 4, 7, 1, 3, 4, 2, 2, 2, 1, 3, 3, 4, 1, 3, 1, 3, 1, 5, 1, 2, 3,
    1, 1, 1, 1, 1, 1, 3, 1, 3, 3, 2, 2, 4, 1, 8, 1, 5, 3, 4, 5, 1, 1, 2, 2, 3, 3, 3, 3, 1, 3, 3, 1,
];

/// The highest level at which an import may be called.
fn highest(import: u8) -> u8 {
    match import {
        1..=3 | 6..=14 | 20 | 51 => 0,
        4 | 5 | 53..=64 => 26,
        _ => 2,
    }
}

const ZEROS: &[u32] = &[0; 7];

/// Whether an import that lacks its last word breaks rule 9, and above its highest level rule 5.
fn is_judged(alloc: Global, world: &mut World, import: u8, words: usize) -> bool {
    let Some(fewer) = ZEROS.get(..words.saturating_sub(1)) else {
        return false;
    };
    let level = highest(import);
    let cut = Step::Call(level, import, fewer, Comes::Breaks(9));
    let high = Step::Call(level.saturating_add(1), import, fewer, Comes::Breaks(5));
    is_taken(alloc, world, Handler::Initialize, &cut)
        && is_taken(alloc, world, Handler::Initialize, &high)
}

fn are_judged(alloc: Global, world: &mut World) -> bool {
    for import in 1..65u8 {
        if !is_judged(alloc, world, import, WORDS[import as usize - 1]) {
            return false;
        }
    }
    true
}

fn judges(alloc: Global) -> bool {
    match world(alloc, b"") {
        Some(mut world) => are_judged(alloc, &mut world),
        None => false,
    }
}

#[test]
fn levels_and_words_are_judged_first(rt: HostRuntime) {
    assert!(rt; judges(rt.alloc()));
}
