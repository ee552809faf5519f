ghost use Rattle.std.specs.Prelude.{◌≡◌, ◌≤◌, ◌++◌, length, take, drop};

/// The bytes from `at` on.
pub fn rest_of(bytes: &[u8], at: usize) -> &[u8]
    requires { at ≤ length bytes.now }
    ensures { result.now ≡ drop at bytes.now }
{
    &bytes[at..]
}

/// Copies the first `count` bytes of `from` to the front of `room`.
pub fn copy_front(room: &mut [u8], from: &[u8], count: usize)
    requires room { count ≤ length room.old }
    requires from { count ≤ length from.now }
    ensures { room.new ≡ take count from.now ++ drop count room.old }
{
    room[..count].copy_from_slice(&from[..count]);
}
