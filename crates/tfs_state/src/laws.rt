//! Laws of state texts. They hold for any reader.

ghost use Rattle.std.specs.Prelude.{◌≡◌, ◌≢◌, ℕ, ◌≤◌, ◌↔◌, List, Some, None, Err, length};
ghost use Rattle.serde_json.specs.Data.{Data};
ghost use Rattle.tfs_state.specs.Document.{Document};
ghost use Rattle.tfs_state.specs.FirstFault.{IsFirstFault, IsDependencyFault, IsInstanceFault, IsResourceFault};
ghost use Rattle.tfs_state.specs.Resources.{read_dependency, read_instance, read_resource, read_resources};
ghost use Rattle.tfs_state.specs.StateText.{SpellsDocument, first_state_fault, document_of};
ghost use Rattle.tfs_state.specs.declared.fault.StateFault.{StateFault};
ghost use Rattle.tfs_state.specs.declared.fault.StateFault.TheVariants.{NoMemory};

/// States that bytes of at most 16 MiB either are the text of exactly one document or have a first
/// fault, never both, and that `NoMemory` isn't the first fault of any text.
pub fn bytes_spell_a_document_or_have_a_fault()
    ensures spelled { (bytes : List ℕ) (d : Document) → SpellsDocument bytes d
        → first_state_fault bytes ≡ None }
    ensures faultless { (bytes : List ℕ) → length bytes ≤ 16777216
        → first_state_fault bytes ≡ None → (d : Document) × SpellsDocument bytes d }
    ensures once { (bytes : List ℕ) (d e : Document) → SpellsDocument bytes d
        → SpellsDocument bytes e → d ≡ e }
    ensures given { (bytes : List ℕ) (d : Document) → document_of bytes ≡ Some d
        → SpellsDocument bytes d }
    ensures computed { (bytes : List ℕ) (d : Document) → SpellsDocument bytes d
        → document_of bytes ≡ Some d }
    ensures none_else { (bytes : List ℕ) (fault : StateFault) → first_state_fault bytes ≡ Some fault
        → document_of bytes ≡ None }
    ensures memory { (bytes : List ℕ) → first_state_fault bytes ≢ Some NoMemory }
{}

/// States that the fault of resources is the first one by position: a resource's own fault comes
/// before the faults of its instances, and an instance's own fault before the faults of its
/// dependencies.
pub fn faults_are_first_by_position()
    ensures resources { (values : List Data) (fault : StateFault)
        → (read_resources values ≡ Err fault) ↔ IsFirstFault read_resource values fault }
    ensures resource { (i : ℕ) (value : Data) (fault : StateFault)
        → (read_resource i value ≡ Err fault) ↔ IsResourceFault i value fault }
    ensures instance { (i j : ℕ) (value : Data) (fault : StateFault)
        → (read_instance i j value ≡ Err fault) ↔ IsInstanceFault i j value fault }
    ensures dependency { (i j k : ℕ) (value : Data) (fault : StateFault)
        → (read_dependency i j k value ≡ Err fault) ↔ IsDependencyFault i j k value fault }
{}
