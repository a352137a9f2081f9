ghost use Rattle.std.specs.Prelude.{◌≡◌, ◌↔◌, ℕ, Some, None, map};
ghost use Rattle.ddm_codepoints.specs.declared.code_class.CodeClass.TheVariants.{Unknown};
ghost use Rattle.ddm_codepoints.specs.CodeClass.{table, class_of, name_of};
ghost use Rattle.ddm_codepoints.specs.Character.{characters, ebcdic_of, ascii_of};

/// Each code point of the table has the class and the name that stand there.
pub fn table_is_found()
    ensures classes { map (λ known. class_of known.code) table ≡ map (λ known. known.class) table }
    ensures names { map (λ known. name_of known.code) table ≡ map (λ known. Some known.name) table }
{}

/// The code points without a name are those of class Unknown.
pub fn unknown_has_no_name()
    ensures { (code : ℕ) → (name_of code ≡ None) ↔ (class_of code ≡ Unknown) }
{}

/// Each character of the table has the codes that stand there.
pub fn characters_are_found()
    ensures ebcdic { map (λ character. ebcdic_of character.ascii) characters ≡ map (λ character. Some character.ebcdic) characters }
    ensures ascii { map (λ character. ascii_of character.ebcdic) characters ≡ map (λ character. Some character.ascii) characters }
{}

/// The code in EBCDIC of a character leads back to its code in ASCII, and the other way round.
pub fn codes_lead_back()
    ensures { (ascii ebcdic : ℕ) → (ebcdic_of ascii ≡ Some ebcdic) ↔ (ascii_of ebcdic ≡ Some ascii) }
{}
