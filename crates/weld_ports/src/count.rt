ghost use Rattle.std.specs.Prelude.{◌≡◌};
ghost use Rattle.weld_ports.specs.Memory.{count_up, is_failing};

/// One more. A count at its type's last value stays there.
pub(crate) fn count_up(count: u64) -> u64
    ensures { result ≡ count_up count }
{
    count.saturating_add(1)
}

/// Whether the call of this number is to fail.
pub(crate) fn is_failing(failing: &[u64], number: u64) -> bool
    ensures { result ≡ is_failing failing.now number }
{
    failing.contains(&number)
}
