//! Laws of readers, and examples of addresses.

ghost use Rattle.std.specs.Prelude.{◌≡◌, ℕ, List, codes, None, Some};
ghost use Rattle.tfs_planes.specs.Walk.{Joins};
ghost use Rattle.tfs_across.specs.Across.{Reads, WorkspaceValue};
ghost use Rattle.tfs_across.specs.Address.{name_in};

/// Who reads a workspace is among its readers, and so is who reads a reader, even if that is the
/// workspace itself. A workspace that nobody reads has no readers.
pub fn readers_of_a_reader_are_readers()
    ensures direct { (ws : List WorkspaceValue) (i j : ℕ) → Reads ws i j → Joins (Reads ws) i j }
    ensures through { (ws : List WorkspaceValue) (i j k : ℕ)
        → Reads ws i j → Joins (Reads ws) j k → Joins (Reads ws) i k }
    ensures nobody { (ws : List WorkspaceValue) (j : ℕ)
        → ((i : ℕ) → ¬ (Reads ws i j)) → (i : ℕ) → ¬ (Joins (Reads ws) i j) }
{}

/// Addresses and the names in them.
pub fn addresses_name_workspaces()
    ensures plain { name_in (codes "http://127.0.0.1:8080/state/network") ≡ Some (codes "network") }
    ensures prefix { name_in (codes "https://u:p@h/tf/state/a.b?x=/#y/") ≡ Some (codes "a.b") }
    ensures escaped { name_in (codes "http://h/state/a%2Db") ≡ Some (codes "a-b") }
    ensures host { name_in (codes "http://state/a") ≡ None }
    ensures other { name_in (codes "http://h/states/a") ≡ None }
    ensures deeper { name_in (codes "http://h/state/a/b") ≡ None }
    ensures relative { name_in (codes "/state/a") ≡ None }
{}
