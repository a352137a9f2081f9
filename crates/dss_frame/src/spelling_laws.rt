//! Laws of one DSS: of its spellings, of what is read as one, and of what is none.

ghost use Rattle.std.specs.Prelude.{◌≡◌, ℕ, ◌<◌, ◌≤◌, ◌++◌, List, length, take};
ghost use Rattle.std.specs.List.{All};
ghost use Rattle.dss_frame.specs.declared.dss.Side.{Side};
ghost use Rattle.dss_frame.specs.declared.dss.Dss.{Dss};
ghost use Rattle.dss_frame.specs.declared.fault.Why.{Why};
ghost use Rattle.dss_frame.specs.declared.segments.Extent.TheVariants.{Awaits, Ends, Fails};
ghost use Rattle.dss_frame.specs.Dss.{canonical};
ghost use Rattle.dss_frame.specs.Segments.{extent_of, dss_of};
ghost use Rattle.dss_frame.specs.Spelling.{IsDssOf, Spells, IsBadField};

/// The canonical spelling of a DSS is a spelling of it.
pub fn canonical_is_a_spelling()
    ensures { (side : Side) (d : Dss) → IsDssOf side d → Spells side d (canonical d) }
{}

/// Each spelling of a DSS is read as that DSS, with no byte of what follows.
pub fn spelling_is_read()
    ensures { (side : Side) (d : Dss) (bytes more : List ℕ) → Spells side d bytes
        → (extent_of side (bytes ++ more) ≡ Ends (length bytes)) × (dss_of bytes ≡ d) }
{}

/// What is read as a DSS is a spelling of it.
pub fn read_is_a_spelling()
    ensures { (side : Side) (bytes : List ℕ) (count : ℕ) → All (λ byte. byte < 256) bytes → extent_of side bytes ≡ Ends count
        → (count ≤ length bytes) × Spells side (dss_of (take count bytes)) (take count bytes) }
{}

/// No spelling begins another, and none is of two DSSs: so what was written is read again, whatever follows it.
pub fn no_spelling_begins_another()
    ensures { (side : Side) (d e : Dss) (a b x y : List ℕ) → Spells side d a → Spells side e b → a ++ x ≡ b ++ y → (a ≡ b) × (d ≡ e) }
{}

/// Reading fails at a field exactly where it is the first that is none of a DSS.
pub fn bad_fields_are_found()
    ensures fails { (side : Side) (bytes : List ℕ) (offset : ℕ) (why : Why) → All (λ byte. byte < 256) bytes
        → IsBadField side bytes offset why → extent_of side bytes ≡ Fails offset why }
    ensures only { (side : Side) (bytes : List ℕ) (offset : ℕ) (why : Why) → All (λ byte. byte < 256) bytes
        → extent_of side bytes ≡ Fails offset why → IsBadField side bytes offset why }
{}

/// Where more bytes are awaited, no front of the bytes is a spelling.
pub fn awaited_has_no_spelling()
    ensures { (side : Side) (bytes : List ℕ) (d : Dss) (n : ℕ) → extent_of side bytes ≡ Awaits
        → Spells side d (take n bytes) → ⊥ }
{}
