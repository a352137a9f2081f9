ghost use Rattle.std.specs.Prelude.{◌≡◌, ℕ, List, Option, Some, true, length};
ghost use Rattle.server_list.specs.Lists.{Listing};
ghost use Rattle.gateway_setup.specs.Sent.{nothing_sent, sent_by, is_free, with_sent, list_of};

/// A member that has no list sends the one that is set, and goes on to send it, whatever is set later; what others send
/// stays as it was.
pub fn each_list_stays()
    ensures set { (lists : List (Option Listing)) (member : ℕ) (list : Listing) → length lists ≡ 32 → is_free lists member ≡ true
        → sent_by (with_sent lists member list) member ≡ Some list }
    ensures stays { (lists : List (Option Listing)) (member other : ℕ) (list sent : Listing) → sent_by lists other ≡ Some sent
        → sent_by (with_sent lists member list) other ≡ Some sent }
{}
