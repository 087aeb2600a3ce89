ghost use Rattle.std.specs.Prelude.{◌≡◌, ◌<◌, nat_eq, ℕ, ℤ, List, [], if◌then◌else◌};
ghost use Rattle.std.specs.List.{list_any};
ghost use Rattle.buffer_objects.specs.Buffers.{BufferObjects, bytes_of};
ghost use Rattle.buffer_objects.specs.Commands.{given_names, behind_names, bind, with_bytes, without_names};
ghost use Rattle.buffer_objects.specs.Kept.{IsLive, KeepsBytes, NoneComesBack, is_same};
ghost use Rattle.buffer_objects.specs.declared.buffer_key.BufferKey.{BufferKey};

/// The law of keys. Names that are given, and objects that are bound or made, leave what each key reads; new bytes of an
/// object are read through its own key and no other; through the key of a deleted name nothing is read. A key that was
/// given comes to name no other object, also where its name is made again.
pub fn keys_name_one_object()
    ensures names { (b : BufferObjects) (count : ℤ) → KeepsBytes b (behind_names b (given_names b count)) × NoneComesBack b (behind_names b (given_names b count)) }
    ensures bound { (b : BufferObjects) (target name : ℕ) → KeepsBytes b (bind b target name).0 × NoneComesBack b (bind b target name).0 }
    ensures bytes { (b : BufferObjects) (bound key : BufferKey) (bytes : List ℕ) → IsLive b bound → bytes_of (with_bytes b bound bytes) key ≡ (if is_same bound key then bytes else bytes_of b key) }
    ensures alive { (b : BufferObjects) (bound : BufferKey) (bytes : List ℕ) → IsLive b bound → NoneComesBack b (with_bytes b bound bytes) }
    ensures deleted { (b : BufferObjects) (names : List ℕ) (key : BufferKey) → bytes_of (without_names b names) key ≡ (if list_any (nat_eq key.name) names then [] else bytes_of b key) }
    ensures gone { (b : BufferObjects) (names : List ℕ) → NoneComesBack b (without_names b names) }
{}
