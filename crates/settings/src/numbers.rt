// A number against its limits.
ghost use Rattle.std.specs.Prelude.{◌≡◌};
ghost use Rattle.settings.specs.Policy.{beyond};

// Whether a number is outside low to high.
#[tactic(auto, unfolding(crate::specs::Policy::beyond))]
pub fn is_beyond(low: u64, high: u64, n: u64) -> bool
    ensures { result ≡ beyond low high n }
{
    !(low..=high).contains(&n)
}
