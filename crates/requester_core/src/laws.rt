//! Laws of the definitions. Each function is a law: it does nothing, and what it ensures holds of every value.

ghost use Rattle.std.specs.Prelude.{◌≡◌, ℕ, ◌++◌, ◌∷◌, List, length, map, true, false, Option};
ghost use Rattle.link_ends.specs.Bytes.{AreBytes};
ghost use Rattle.dss_frame.specs.declared.dss.Dss.{Dss};
ghost use Rattle.access_handshake.specs.declared.access.Access.{Access};
ghost use Rattle.access_handshake.specs.declared.stage.Stage.{Stage};
ghost use Rattle.access_handshake.specs.declared.stage.Stage.TheVariants.{New, Attached};
ghost use Rattle.unit_segments.specs.declared.command.Command.{Command};
ghost use Rattle.unit_segments.specs.Registers.{Register};
ghost use Rattle.unit_segments.specs.Handshake.{handshake};
ghost use Rattle.requester_core.specs.Replay.{given};
ghost use Rattle.unit_segments.specs.declared.stripped.Stripped.{Stripped};
ghost use Rattle.unit_segments.specs.Strip.{stripped};
ghost use Rattle.unit_segments.specs.Accepts.{are_readable};
ghost use Rattle.requester_core.specs.declared.got.Got.TheVariants.{Whole};
ghost use Rattle.requester_core.specs.declared.round.Round.{Round};
ghost use Rattle.requester_core.specs.declared.round.Round.TheVariants.{Work};
ghost use Rattle.requester_core.specs.Grammar.{IsReply, StandsBefore};
ghost use Rattle.requester_core.specs.Talk.{Talking, quiet, again_for, begun, back};
ghost use Rattle.requester_core.specs.Laws.{asked_of, LeavesOpen};
ghost use Rattle.requester_core.specs.Calls.{Turn, AreTurns, piece_by_piece, at_once, talk_after, answers};
ghost use Rattle.requester_core.specs.Round.{bytes_of};
ghost use Rattle.unit_segments.specs.Spelling.{chain_bytes};

/// What a conversation sends in all is the handshake that leads to where its session stands, and then the segment with the asking for
/// release: on a conversation that was dialled with the gateway's EXCSAT, on an idle one without it. Without a segment nothing runs again.
pub fn handshake_is_set_out()
    ensures dialled { (t : Talking) (stage : Stage) (mechanism : ℕ) (access : Option Access) (log : List Register) (again : List Command)
        (segment : Option (List Command)) → t.stage ≡ New
        → map bytes_of (begun stage mechanism access log again segment t).rounds
        ≡ map chain_bytes (handshake t.name stage (given mechanism access) log (again_for segment again) true) ++ asked_of segment }
    ensures idle { (t : Talking) (stage : Stage) (mechanism : ℕ) (access : Option Access) (log : List Register) (again : List Command)
        (segment : Option (List Command)) → t.stage ≡ Attached
        → map bytes_of (begun stage mechanism access log again segment t).rounds
        ≡ map chain_bytes (handshake t.name stage (given mechanism access) log (again_for segment again) false) ++ asked_of segment }
{}

/// It doesn't matter how a reply is cut into pieces: what a piece comes to behind one that leaves the reply open is what both come
/// to at once.
pub fn pieces_are_the_reply()
    ensures { (t : Talking) (p q : List ℕ) → LeavesOpen p t → back q (back p t).talk ≡ back (p ++ q) t }
{}

/// Over several rounds, one after another, it doesn't matter in what pieces the chains are taken and the replies read: the answers to the last piece
/// of each reply, and the conversation behind them, are those of each chain and each reply at once.
pub fn calls_are_the_rounds()
    ensures talk { (t : Talking) (turns : List Turn) → AreTurns t turns → talk_after piece_by_piece t turns ≡ talk_after at_once t turns }
    ensures answers { (t : Talking) (turns : List Turn) → AreTurns t turns → answers piece_by_piece t turns ≡ answers at_once t turns }
{}

/// A reply that is one by its grammar is read whole, and what is read whole is one: in the reply to a segment each ACCRDBRM can be read.
pub fn whole_replies_are_read()
    ensures found { (t : Talking) (segment : List Command) (rounds : List Round) (dsss : List Dss) (bytes : List ℕ) → StandsBefore t
        → t.rounds ≡ Work segment ∷ rounds → IsReply (length segment) dsss bytes → are_readable dsss ≡ true
        → (back bytes t).got ≡ Whole (stripped segment dsss) }
    ensures only { (t : Talking) (segment : List Command) (rounds : List Round) (bytes : List ℕ) (s : Stripped) → AreBytes bytes → StandsBefore t
        → t.rounds ≡ Work segment ∷ rounds → (back bytes t).got ≡ Whole s
        → (dsss : List Dss) × IsReply (length segment) dsss bytes × (s ≡ stripped segment dsss) }
{}

/// A conversation stands before a reply where nothing was said, behind `begin`, and behind the reply before.
pub fn each_reply_begins_anew()
    ensures quiet { (name : List ℕ) (stage : Stage) → StandsBefore (quiet name stage) }
    ensures begun { (t : Talking) (stage : Stage) (mechanism : ℕ) (access : Option Access) (log : List Register) (again : List Command)
        (segment : Option (List Command)) → StandsBefore t → StandsBefore (begun stage mechanism access log again segment t) }
    ensures next { (t : Talking) (round : Round) (rounds : List Round) (bytes : List ℕ) → AreBytes bytes → StandsBefore t → t.rounds ≡ round ∷ rounds
        → (back bytes t).talk.rounds ≡ rounds → StandsBefore (back bytes t).talk }
{}
