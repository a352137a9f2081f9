ghost use Rattle.std.specs.Prelude.{◌≡◌, ℕ, ◌<◌, ◌^◌, ◌||◌, ◌==◌, true, false, Some, length};
ghost use Rattle.std.specs.List.{AllByRecursion};
ghost use Rattle.server_list.specs.Tried.{is_member, has_member, with_member};
ghost use Rattle.server_list.specs.Lists.{Listing, IsSound};
ghost use Rattle.server_list.specs.Layout.{HasBytes, list_data, spelled_list};

/// A set has the members that were added to it, and no others.
pub fn tried_has_what_was_added()
    ensures none { (member : ℕ) → has_member 0 member ≡ false }
    ensures with { (tried member other : ℕ) → is_member member ≡ true
        → has_member (with_member tried member) other ≡ (other == member || has_member tried other) }
{}

/// What is written of a list is read as that list.
pub fn written_list_is_read()
    ensures { (list : Listing) → HasBytes list → IsSound list.rows → spelled_list (list_data list) ≡ Some list }
{}
