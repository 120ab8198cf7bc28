//! Room for what workers make.

use std::alloc::Global;

/// So many words are asked for at once: 16 MiB.
const WORDS: usize = 1 << 21;

/// Has the system's allocator get room for this thread at once, for speed alone: what is asked for is given back, untouched, and stays at hand. Else an allocator such as that
/// of glibc gets memory for a thread a page at a time, by calls of the system that hold up all threads of the process. It is asked twice, since the first block that is so large
/// is one of its own, and only the next is taken from what stays. Where the room is refused, the work goes on without it.
pub(crate) fn make_room(alloc: Global) {
    for _ in 0..2 {
        let _room = Vec::<u64>::with_capacity(alloc, WORDS);
    }
}
