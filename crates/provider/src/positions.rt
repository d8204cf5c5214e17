//! Where a key stands among the keys of its epoch.
ghost use Rattle.std.specs.Prelude.{◌≡◌, ◌<◌, ◌≤◌, length, None};
ghost use Rattle.table.specs.Keys.{lower};
ghost use Rattle.provider.specs.Laws.{Ascending, position as place_of};
ghost use Rattle.provider.specs.Positions.{row_keys};
ghost use Rattle.provider.specs.Values.{key_bytes, number};

use arrayvec::ArrayVec;
use table::Entry;
use types::{Participant, PublicKey};

/// The keys as the rows of a table.
// kept: by the rules of the project a key's place is found by the table
fn rows(keys: &[PublicKey]) -> ArrayVec<Entry<PublicKey, ()>, 16>
    requires { length keys.now ≤ 16 }
    ensures { row_keys result.items ≡ keys.now }
{
    let mut rows = ArrayVec::new();
    for key in keys {
        rows.push(Entry {
            key: *key,
            value: (),
        });
    }
    rows
}

/// The position of `key` among keys that ascend, at most 16 as an epoch has, found in their ordered table; none among more.
pub fn position(keys: &[PublicKey], key: &PublicKey) -> Option<Participant>
    ensures placed { length keys.now ≤ 16 → Ascending lower (key_bytes keys.now) → number result ≡ place_of key.now.bytes (key_bytes keys.now) }
    ensures too_many { 16 < length keys.now → result ≡ None }
{
    if keys.len() > 16 {
        return None;
    }
    let place = table::position(rows(keys).as_slice(), key)?;
    Some(Participant::new(place as u64))
}
