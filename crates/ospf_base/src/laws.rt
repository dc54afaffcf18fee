//! Laws: each holds of all keys and instances.

ghost use Rattle.ospf_base.specs.Laws.{SameKeysAreEqual, SameInstancesAreEqual};

/// Two keys are the same for `LsaKey::is_same` exactly where they are equal.
pub fn same_keys_are_equal()
    ensures { SameKeysAreEqual }
{}

/// Two instances are the same for `Instance::is_same` exactly where they are equal.
pub fn same_instances_are_equal()
    ensures { SameInstancesAreEqual }
{}
