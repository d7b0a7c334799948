// A mark that is being written: at most eight bytes, with no store of the caller's.
ghost use Rattle.std.specs.Prelude.{◌≤◌};

pub mod calls;

// An array with its length, since `ArrayVec` is not `Copy` and an `ArrayString` holds text alone.
#[derive(Clone, Copy)]
pub struct Mark {
    bytes: [u8; 8],
    length: usize,
    ghost room: { length ≤ 8 },
}
