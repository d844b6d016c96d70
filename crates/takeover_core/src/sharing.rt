ghost use Rattle.std.specs.Prelude.{◌≡◌};
ghost use Rattle.takeover_core.specs.Standings.{IsOwn, newer_with_pairs, older_with_pairs, with_pairs_of};

use rollout_core::World;

/// Puts the pairs that the switches of one world hold into the other, item by item.
fn share(from: &World<'_>, to: &mut World<'_>)
    requires { from.now.rollout ≡ to.old.rollout }
    ensures { to.new ≡ with_pairs_of from.now to.old }
{
    for item in 0..from.items() {
        to.hold(item, from.held(item));
    }
}

/// Puts what the older world's switches hold into the newer one, where that has begun.
pub(crate) fn share_with_newer(older: &World<'_>, newer: &mut Option<World<'_>>)
    requires { IsOwn older.now.rollout newer.old }
    ensures { newer.new ≡ newer_with_pairs older.now newer.old }
{
    if let Some(world) = newer {
        share(older, world);
    }
}

/// Puts what the newer world's switches hold into the older one, where it has begun.
pub(crate) fn share_with_older(newer: &Option<World<'_>>, older: &mut World<'_>)
    requires { IsOwn older.old.rollout newer.now }
    ensures { older.new ≡ older_with_pairs newer.now older.old }
{
    if let Some(world) = newer {
        share(world, older);
    }
}
