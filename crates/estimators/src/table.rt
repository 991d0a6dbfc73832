// The reading of a table of costs.
ghost use Rattle.std.specs.Prelude.{◌≡◌};
ghost use Rattle.estimators.specs.Measuring.{reading};

// What a table has of a node: nothing past its end.
pub(crate) fn look_up(table: &[Option<u32>], node: usize) -> Option<u32>
    ensures { result ≡ reading table.now node }
{
    table.get(node).copied().flatten()
}
