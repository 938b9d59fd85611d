ghost use Rattle.std.specs.Prelude.{◌≡◌, ◌==◌};
ghost use Rattle.std.specs.List.{list_any};
ghost use Rattle.io_edge.specs.Memory.{counted};

/// Whether a call is one of those that fail.
pub(crate) fn is_listed(failing: &[u64], call: u64) -> bool
    ensures { result ≡ list_any (λ k. k == call) failing.now }
{
    failing.iter().any(|k| *k == call)
}

/// One more, up to the end of the type.
pub(crate) fn one_more(count: u64) -> u64
    ensures { result ≡ counted count }
{
    count.saturating_add(1)
}
