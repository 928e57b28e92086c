//! The instance of a state that has an address.

ghost use Rattle.std.specs.Prelude.{◌≡◌, ◌≢◌, ◌<◌, ℕ, length, IfSome, IfNone, Some};
ghost use Rattle.tfs_state.specs.Dependency.{address_of};

use tfs_state::Doc;

/// Returns an instance with this address, if there is one. A configuration address is no address
/// of the instances that have it with a key.
pub fn instance_of(doc: &Doc, address: &str) -> Option<usize>
    ensures within { IfSome result (λ v. v < length doc.now.instances) }
    ensures found { IfSome result (λ v. address_of doc.now v ≡ Some address.now) }
    ensures absent { IfNone result ((v : ℕ) → address_of doc.now v ≢ Some address.now) }
{
    for v in 0..doc.len() {
        if doc.address(v).is(address) {
            return Some(v);
        }
    }
    None
}
