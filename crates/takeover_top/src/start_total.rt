//! How many operations a start has settled.
ghost use Rattle.std.specs.Prelude.{◌≡◌, ◌≤◌, length};
ghost use Rattle.takeover_top.specs.Lines.{start_total};

/// The sum of a start's numbers, of which there are so many.
pub(crate) fn start_total(start: &[u32], count: u32) -> u64
    requires { count ≤ length start.now }
    ensures { result ≡ start_total count start.now }
{
    let mut total = 0;
    for item in 0..count {
        total += u64::from(start[item as usize]);
    }
    total
}
