//! Laws of whole streams: what a reader has read that got all of some bytes, and which fault it tells. By the laws of
//! pieces the same holds however the bytes were cut.

ghost use Rattle.std.specs.Prelude.{◌≡◌, ℕ, ◌-◌, ◌^◌, ◌<◌, ◌≤◌, ◌⊎◌, ◌++◌, List, [], map, length, take, Some, None};
ghost use Rattle.std.specs.List.{All, AllByRecursion, flat_map};
ghost use Rattle.dss_frame.specs.declared.dss.Side.{Side};
ghost use Rattle.dss_frame.specs.declared.dss.Dss.{Dss};
ghost use Rattle.dss_frame.specs.declared.fault.Why.{Why};
ghost use Rattle.dss_frame.specs.declared.fault.StreamFault.TheVariants.{Frame, TooLong};
ghost use Rattle.dss_frame.specs.Dss.{canonical};
ghost use Rattle.dss_frame.specs.Spelling.{IsDssOf, Spelled, Begins, IsStream, IsBad, IsBeyond, chain_after};
ghost use Rattle.dss_frame.specs.Reading.{start};
ghost use Rattle.dss_frame.specs.Held.{HoldsRest};
ghost use Rattle.dss_frame.specs.Calls.{Call, after_calls, taken_by, fed_by};
ghost use Rattle.dss_frame.specs.Told.{read, StandsAt, dsss_of, told, TellsFrame, TellsTooLong, TellsFault, number_told};

/// Whatever pieces a reader is fed, and whenever DSSs are taken in between: without a fault the bytes of all pieces are
/// spellings of the DSSs that were taken and of those that are left, and then those of the one that isn't whole yet.
pub fn read_is_a_stream()
    ensures { (side : Side) (limit : ℕ) (calls : List Call) → All (λ byte. byte < 256) (fed_by calls)
        → (after_calls (start side limit) calls).fault ≡ None
        → IsStream side (map (λ placed. placed.dss) (taken_by (start side limit) calls ++ (after_calls (start side limit) calls).whole))
        (after_calls (start side limit) calls).open (fed_by calls) }
{}

/// Each DSS that was read stands where the bytes spell it, and has the place of its first byte there; the place behind it
/// is that of the next one, and behind the last one the place at which the reader goes on.
pub fn each_stands_at_its_place()
    ensures { (side : Side) (limit : ℕ) (bytes : List ℕ) → All (λ byte. byte < 256) bytes
        → StandsAt side bytes (read side limit bytes) }
{}

/// The DSSs of a stream, and what follows them, are determined by its bytes, however each DSS is cut into segments.
pub fn streams_are_one()
    ensures { (side : Side) (ds es : List Dss) (rest other bytes : List ℕ) → IsStream side ds rest bytes
        → IsStream side es other bytes → (ds ≡ es) × (rest ≡ other) }
{}

/// A stream is read as its DSSs, and then its rest, where no field is bad and no chain passes the limit. In whole spellings
/// that are no longer than the limit there is no such field and no such chain.
pub fn stream_is_read()
    ensures within { (side : Side) (limit : ℕ) (bytes : List ℕ) (ds : List Dss) (rest : List ℕ)
        → All (λ byte. byte < 256) bytes → IsStream side ds rest bytes
        → ((place : ℕ) (why : Why) → IsBad side bytes place why → ⊥)
        → ((place : ℕ) → IsBeyond side limit bytes place → ⊥)
        → ((read side limit bytes).fault ≡ None) × (dsss_of (read side limit bytes) ≡ ds)
        × ((read side limit bytes).open ≡ rest) }
    ensures whole { (side : Side) (limit : ℕ) (bytes : List ℕ) (spelled : List Spelled) → All (λ byte. byte < 256) bytes
        → Begins side spelled [] bytes → length bytes ≤ limit
        → ((read side limit bytes).fault ≡ None) × (dsss_of (read side limit bytes) ≡ map (λ s. s.dss) spelled)
        × ((read side limit bytes).open ≡ []) }
{}

/// DSSs that are written one after another are read as these DSSs. By the laws of pieces whatever follows them is read
/// behind them.
pub fn what_is_written_is_read()
    ensures { (side : Side) (limit : ℕ) (ds : List Dss) → AllByRecursion (IsDssOf side) ds
        → All (λ byte. byte < 256) (flat_map canonical ds) → length (flat_map canonical ds) ≤ limit
        → ((read side limit (flat_map canonical ds)).fault ≡ None) × (dsss_of (read side limit (flat_map canonical ds)) ≡ ds)
        × ((read side limit (flat_map canonical ds)).open ≡ []) }
{}

/// Where a field is told that is none of a DSS, it is the first one.
pub fn fault_is_the_first()
    ensures { (side : Side) (limit : ℕ) (bytes : List ℕ) (at corr : ℕ) (why : Why) → All (λ byte. byte < 256) bytes
        → (read side limit bytes).fault ≡ Some (Frame at why corr)
        → (place : ℕ) × IsBad side bytes place why × (at ≡ told place) }
{}

/// The first field that is none of a DSS is told, unless a chain passes the limit at its place or before.
pub fn bad_is_found()
    ensures { (side : Side) (limit : ℕ) (bytes : List ℕ) (place : ℕ) (why : Why) → All (λ byte. byte < 256) bytes
        → IsBad side bytes place why
        → TellsFrame (read side limit bytes) place why
        ⊎ ((beyond : ℕ) × (beyond ≤ place) × IsBeyond side limit bytes beyond
        × TellsTooLong (read side limit bytes) beyond) }
{}

/// Where it is told that a chain passes the limit, it is so at that place.
pub fn beyond_is_told()
    ensures { (side : Side) (limit : ℕ) (bytes : List ℕ) (at corr : ℕ) → All (λ byte. byte < 256) bytes
        → (read side limit bytes).fault ≡ Some (TooLong at corr)
        → (place : ℕ) × IsBeyond side limit bytes place × (at ≡ told place) }
{}

/// Where a chain passes the limit this is told, unless another fault stands before that place.
pub fn beyond_is_found()
    ensures { (side : Side) (limit : ℕ) (bytes : List ℕ) (place : ℕ) → All (λ byte. byte < 256) bytes
        → IsBeyond side limit bytes place
        → TellsTooLong (read side limit bytes) place
        ⊎ ((other : ℕ) × (other < place) × TellsFault side limit bytes other) }
{}

/// Whatever follows a field that is none of a DSS, the bytes aren't whole spellings.
pub fn nothing_mends_it()
    ensures { (side : Side) (bytes : List ℕ) (place : ℕ) (why : Why) → All (λ byte. byte < 256) bytes
        → IsBad side bytes place why
        → (more : List ℕ) (spelled : List Spelled) → Begins side spelled [] (bytes ++ more) → ⊥ }
{}

/// Bytes in which no field is bad can go on to whole spellings, and so can those before the first bad field.
pub fn what_is_not_bad_goes_on()
    ensures all { (side : Side) (bytes : List ℕ) → All (λ byte. byte < 256) bytes
        → ((place : ℕ) (why : Why) → IsBad side bytes place why → ⊥)
        → (more : List ℕ) × (spelled : List Spelled) × All (λ byte. byte < 256) more × Begins side spelled [] (bytes ++ more) }
    ensures before { (side : Side) (bytes : List ℕ) (place : ℕ) (why : Why) → All (λ byte. byte < 256) bytes
        → IsBad side bytes place why
        → (more : List ℕ) × (spelled : List Spelled) × All (λ byte. byte < 256) more
        × Begins side spelled [] (take place bytes ++ more) }
{}

/// A fault has the correlation number of the DSS in which it stands, where that number stands before it, else that of
/// the DSS before it in its chain, or 0.
pub fn fault_has_its_number()
    ensures frame { (side : Side) (limit : ℕ) (bytes : List ℕ) (at corr : ℕ) (why : Why) → All (λ byte. byte < 256) bytes
        → (read side limit bytes).fault ≡ Some (Frame at why corr)
        → (place : ℕ) × (bad : IsBad side bytes place why) × (at ≡ told place)
        × (corr ≡ number_told bad.spelled bad.rest bad.offset) }
    ensures too_long { (side : Side) (limit : ℕ) (bytes : List ℕ) (at corr : ℕ) → All (λ byte. byte < 256) bytes
        → (read side limit bytes).fault ≡ Some (TooLong at corr)
        → (place : ℕ) × (beyond : IsBeyond side limit bytes place) × (at ≡ told place)
        × (corr ≡ number_told beyond.spelled beyond.rest (limit - chain_after 0 beyond.spelled)) }
{}

/// Without a fault, and as long as places don't stand still, a reader holds all that follows the spellings of the DSSs
/// that were taken.
pub fn what_is_held_follows()
    ensures { (side : Side) (limit : ℕ) (calls : List Call) → All (λ byte. byte < 256) (fed_by calls) → length (fed_by calls) < 2 ^ 64 - 1
        → (after_calls (start side limit) calls).fault ≡ None
        → HoldsRest side (taken_by (start side limit) calls) (after_calls (start side limit) calls) (fed_by calls) }
{}
