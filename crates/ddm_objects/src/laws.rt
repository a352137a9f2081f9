//! What reading means, as laws: each is a function that does nothing, and what it ensures is the law.

ghost use Rattle.std.specs.Prelude.{◌≡◌, ◌+◌, ◌<◌, ◌≤◌, ◌++◌, ℕ, List, true, None, Some, Ok, Err, All, length};
ghost use Rattle.std.specs.List.{flat_map, AllByRecursion};
ghost use Rattle.link_ends.specs.Bytes.{AreBytes};
ghost use Rattle.ddm_objects.specs.Objects.{Member, Found, IsObject, IsFirst, IsFrontFault, IsOuterFault, HasCanonical, canonical_object, outer_of};
ghost use Rattle.ddm_objects.specs.Objects.{first_object};
ghost use Rattle.ddm_objects.specs.declared.fault.ObjFault.{ObjFault};
ghost use Rattle.ddm_objects.specs.Members.{AreMembers, IsMembers, IsFirstFault, members_of, find_of};

/// The one object that bytes are read as is spelled so.
pub fn outer_is_spelled()
    ensures { (bytes : List ℕ) (object : Member) → AreBytes bytes → outer_of bytes ≡ Ok object
        → IsObject true object bytes }
{}

/// The spelling of an object, in each of its forms, is read as this object.
pub fn spelled_is_outer()
    ensures { (bytes : List ℕ) (object : Member) → IsObject true object bytes → outer_of bytes ≡ Ok object }
{}

/// The first object that is read of bytes is spelled at their front, and the rest is what follows it.
pub fn first_is_spelled()
    ensures { (bytes : List ℕ) (found : Found) → AreBytes bytes → first_object bytes ≡ Ok found
        → IsFirst found bytes }
{}

/// The spelling of an object is read as this object, whatever follows it; where its data go to the end, nothing does.
pub fn spelled_is_first()
    ensures { (bytes : List ℕ) (found : Found) → IsFirst found bytes → first_object bytes ≡ Ok found }
{}

/// Bytes in which no fault is met are spelled by the objects that are read: they stand there one after another, each
/// in a form that says where it ends, and nothing else.
pub fn members_are_spelled()
    ensures { (bytes : List ℕ) → AreBytes bytes → IsMembers bytes → AreMembers (members_of bytes).objects bytes }
{}

/// The spellings of objects, one after another, are read as these objects.
pub fn spelled_are_members()
    ensures { (objects : List Member) (bytes : List ℕ) → AreMembers objects bytes
        → members_of bytes ≡ record { objects = objects; fault = None } }
{}

/// No bytes spell two lists of objects.
pub fn members_are_one_list()
    ensures { (objects others : List Member) (bytes : List ℕ) → AreMembers objects bytes → AreMembers others bytes
        → objects ≡ others }
{}

/// What is written of an object is read as the one object of these bytes.
pub fn canonical_is_outer()
    ensures { (object : Member) → HasCanonical object → outer_of (canonical_object object.code object.bytes) ≡ Ok object }
{}

/// What is written of an object is read as the first one, whatever follows it.
pub fn canonical_is_first()
    ensures { (object : Member) (rest : List ℕ) → HasCanonical object
        → first_object (canonical_object object.code object.bytes ++ rest) ≡ Ok (record { object = object; rest = rest }) }
{}

/// What is written of objects, one after another, is read as these objects.
pub fn canonical_are_members()
    ensures { (objects : List Member) → AllByRecursion HasCanonical objects
        → members_of (flat_map (λ object. canonical_object object.code object.bytes) objects) ≡ record { objects = objects; fault = None } }
{}

/// A member that is found lies within the bytes that it was sought in.
pub fn found_is_within()
    ensures { (bytes : List ℕ) (code : ℕ) (object : Member) → find_of bytes code ≡ Ok (Some object)
        → length object.bytes + 4 ≤ length bytes }
{}

/// The fault that is answered for the first object is at the front, where none begins, and no bytes that begin with an
/// object have it.
pub fn first_fault_is_first()
    ensures { (bytes : List ℕ) (fault : ObjFault) → first_object bytes ≡ Err fault → IsFrontFault fault bytes }
{}

/// The fault that is answered for the only object is the first one: nothing begins at the front, or bytes are left over
/// behind an object, and the fault is at the first of these. In either case the bytes aren't one object.
pub fn outer_fault_is_first()
    ensures first { (bytes : List ℕ) (fault : ObjFault) → AreBytes bytes → outer_of bytes ≡ Err fault
        → IsOuterFault fault bytes }
    ensures none { (bytes : List ℕ) (fault : ObjFault) (object : Member) → outer_of bytes ≡ Err fault
        → IsObject true object bytes → ⊥ }
{}

/// The fault that is answered among members is the first one: the objects that are answered before it are the members
/// of the bytes before its place, and none begins there.
pub fn members_fault_is_first()
    ensures { (bytes : List ℕ) (fault : ObjFault) → AreBytes bytes → (members_of bytes).fault ≡ Some fault
        → IsFirstFault fault (members_of bytes).objects bytes }
{}
