ghost use Rattle.std.specs.Prelude.{◌≡◌, ◌==◌, ◌||◌};
ghost use Rattle.meta_text.specs.InMemory.{is_listed};

/// Whether the next call, after this many calls, is listed: its number, from 1, is in `fails`.
#[tactic(auto, unfolding(crate::specs::InMemory::is_listed))]
pub fn is_listed(fails: &[u64], calls: u64) -> bool
    ensures { result ≡ is_listed calls fails.now }
{
    fails.contains(&calls.saturating_add(1))
}
