ghost use Rattle.std.specs.Prelude.{◌≡◌, IsTrue, Some, Ok};
ghost use Rattle.ddm_codepoints.specs.declared.typdef.TypDef.{TypDef};
ghost use Rattle.ddm_codepoints.specs.CodePoint.{sqlcard};
ghost use Rattle.ddm_objects.specs.Objects.{outer_of};
ghost use Rattle.reply_texts.specs.declared.sqlcard.Card.{Card};
ghost use Rattle.reply_texts.specs.Sqlcard.{IsCard, card_of, card_bytes, has_text, sqlcard_object};

use ddm_objects::canonical_is_outer;

/// What is written of a card is read as this card, in each type definition.
pub fn written_card_is_read()
    ensures object { (card : Card) (typdef : TypDef) → IsCard card
        → outer_of (sqlcard_object typdef card) ≡ Ok (record { code = sqlcard; bytes = card_bytes typdef card }) }
    ensures card { (card : Card) (typdef : TypDef) → IsCard card → IsTrue (has_text card)
        → card_of typdef (card_bytes typdef card) ≡ Some card }
{
    canonical_is_outer();
}
