ghost use Rattle.std.specs.Prelude.{◌≡◌, ◌≤◌};
ghost use Rattle.sr_ports.specs.Memory.{fitting as fitting_in};

/// How many of so many bytes fit beside those that are held.
pub fn fitting(room: Option<u32>, held: usize, count: usize) -> usize
    ensures fits { result ≡ fitting_in room held count }
    ensures within { result ≤ count }
{
    match room {
        Some(room) => count.min((room as usize).saturating_sub(held)),
        None => count,
    }
}
