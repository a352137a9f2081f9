ghost use Rattle.std.specs.Prelude.{◌≡◌, IsTrue};
ghost use Rattle.reply_texts.specs.Sqlcard.{has_text};
ghost use Rattle.member_replies.specs.Reply.{card, card_of};

use reply_texts::{Card, Sqlca};

/// What comes of a statement, as a SQLCARD says it.
#[derive(Clone, Copy, Debug, PartialEq, Eq)]
pub enum SqlOutcome {
    /// It was done.
    Success,
    /// No row is there, or no row is left.
    NotFound,
    /// The text is no statement that is known here.
    NoStatement,
    /// The section has an open cursor.
    CursorOpen,
    /// The section has no prepared statement.
    NotPrepared,
    /// The row is there already.
    Duplicate,
    /// The unit of work met another one's commit, and was rolled back.
    Conflict,
}

impl SqlOutcome {
    /// The SQLCARD that says it.
    #[tactic(auto, unfolding(ddm_codepoints::specs::Character::ebcdic_of))]
    pub fn card(self) -> Card
        ensures card { result ≡ card_of self }
        ensures text { IsTrue (has_text result) }
    {
        match self {
            SqlOutcome::Success => Card::Null,
            SqlOutcome::NotFound => full_card(100, b"02000"),
            SqlOutcome::NoStatement => full_card(-104, b"42601"),
            SqlOutcome::CursorOpen => full_card(-502, b"24502"),
            SqlOutcome::NotPrepared => full_card(-514, b"26501"),
            SqlOutcome::Duplicate => full_card(-803, b"23505"),
            SqlOutcome::Conflict => full_card(-911, b"40001"),
        }
    }
}

/// The card with this SQLCODE and this SQLSTATE.
fn full_card(code: i32, state: &[u8; 5]) -> Card
    ensures { result ≡ card code state.now }
{
    Card::Full(Sqlca {
        code,
        state: *state,
        proc: [b' '; 8],
    })
}
