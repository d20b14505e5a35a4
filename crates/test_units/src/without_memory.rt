//! Helpers for a test that needs all memory to be taken.

use std::alloc::Global;

// The size of a block to ask for after one that was refused.
fn smaller(size: usize) -> usize {
    if size > 4096 {
        size / 2
    } else {
        size.saturating_sub(8)
    }
}

// Takes a block, and gives the size of the next one.
fn take_block(alloc: Global, size: usize, held: &mut Vec<Vec<u8>>) -> usize {
    match Vec::with_capacity(alloc, size) {
        Ok(block) => if held.push(block).is_ok() { size } else { 0 },
        Err(_) => smaller(size),
    }
}

/// Takes all the memory that there is, down to blocks of eight bytes. An allocator keeps what was freed by its size, so
/// every small size is asked for, not only the powers of two. Under `rt try` this takes too little: its tests run with
/// an allocator that has set room aside for each size.
pub(crate) fn take_all(alloc: Global, held: &mut Vec<Vec<u8>>) {
    let mut size = 1usize << 46;
    for _ in 0..400_000u32 {
        if size < 8 {
            break;
        }
        size = take_block(alloc, size, held);
    }
}
