//! A reader, and the bytes that were read from it and are still to be taken.
ghost use Rattle.std.specs.Prelude.{◌≡◌, ◌-◌, ◌^◌, ◌≤◌, length};

pub mod calls;

/// The most bytes that are read at a time.
pub(crate) const CHUNK: usize = 4096;

/// A reader that is read in chunks: of the newest, the bytes from `start` up to `end` are still to be taken.
#[derive(Drop)]
pub(crate) struct Source<R> {
    reader: R,
    chunk: [u8; CHUNK],
    start: usize,
    end: usize,
    /// How often a line may still be looked for: nothing says that a reader ends.
    pub(crate) turns: u64,
    // a number behind a reference has no range of its own
    ghost lasting: { turns ≤ 2 ^ 64 - 1 },
    ghost size: { length chunk ≡ 4096 },
    ghost ordered: { start ≤ end },
    ghost fits: { end ≤ 4096 },
}
