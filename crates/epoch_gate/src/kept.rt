//! What a pass remembers of keys.

ghost use Rattle.std.specs.Prelude.{◌≡◌, Some, None, IfSome, IfNone, OnOk, OnErr};
ghost use Rattle.std.specs.Map.{lookup};
ghost use Rattle.lru.specs.LruCache.{lru_cache, promoted, put_entries};
ghost use Rattle.epoch_gate.specs.Passes.{same_key};

use host_base::{Key, Memory};
use lru::LruCache;

/// What was shown of a key when the history had so many entries.
#[derive(Drop)]
pub struct Kept<V> {
    pub number: u64,
    pub view: V,
}

/// The number of a key's entry, which becomes the most recently used.
pub fn find<V>(cache: &mut LruCache<Key, Kept<V>>, key: &Key) -> Option<u64>
    ensures cache { cache.new ≡ lru_cache (promoted (same_key key.now) cache.old.entries) cache.old.cap }
    ensures some { IfSome result (λ n. (kept : _)
        × (lookup (same_key key.now) cache.old.entries ≡ Some kept) × (kept.number ≡ n)) }
    ensures none { IfNone result (lookup (same_key key.now) cache.old.entries ≡ None) }
{
    let kept = cache.get(key)?;
    Some(kept.number)
}

/// Keeps an entry of a key, as the most recently used.
pub fn store<V: Drop>(
    cache: &mut LruCache<Key, Kept<V>>,
    key: &Key,
    kept: Kept<V>,
) -> Result<(), Memory>
    ensures ok { OnOk result (cache.new ≡ lru_cache (put_entries same_key cache.old key.now kept)
        cache.old.cap) }
    ensures err { OnErr result (cache.new ≡ cache.old) }
{
    match cache.put(*key, kept) {
        Ok(_) => Ok(()),
        Err(_) => Err(Memory),
    }
}
