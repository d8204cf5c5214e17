//! What every provider's laws give to code that knows no more of it.
ghost use Rattle.std.specs.Prelude.{◌≡◌, true};

use crate::Provider;
use types::{Epoch, Item};

/// Whether the provider accepts its own signature, where it makes one: it always does.
pub fn accepts_own<P: Provider>(provider: &P, epoch: Epoch, item: &Item) -> bool
    ensures { result ≡ true }
{
    let Some(me) = provider.me(epoch) else {
        return true;
    };
    let Some(signature) = provider.sign(epoch, item) else {
        return false;
    };
    provider.accepts(epoch, me, item, &signature.bytes)
}
