//! Laws of chains and their segments. Each function is a law: it does nothing, and what it ensures holds of every value.

ghost use Rattle.std.specs.Prelude.{◌≡◌, ℕ, ◌^◌, ◌<◌, ◌≤◌, ◌∷◌, ◌++◌, List, map, length, None, Some};
ghost use Rattle.std.specs.List.{AllByRecursion};
ghost use Rattle.link_ends.specs.Bytes.{AreBytes};
ghost use Rattle.unit_segments.specs.declared.command.Command.{Command};
ghost use Rattle.unit_segments.specs.Command.{BodyFault, body_fault, code_of};
ghost use Rattle.dss_frame.specs.declared.dss.Placed.{Placed};
ghost use Rattle.dss_frame.specs.declared.dss.Side.TheVariants.{Requests};
ghost use Rattle.dss_frame.specs.Told.{read};
ghost use Rattle.unit_segments.specs.declared.fault.ChainFault.{ChainFault};
ghost use Rattle.unit_segments.specs.Chain.{chains_of};
ghost use Rattle.unit_segments.specs.Grammar.{IsSound, IsChain, Chained, Begins, AreChains};
ghost use Rattle.unit_segments.specs.BadChain.{IsBodyFault, IsBadChain};
ghost use Rattle.unit_segments.specs.Segment.{segments_of, AreSegments};
ghost use Rattle.ddm_codepoints.specs.CodePoint.{secchk, accrdb};
ghost use Rattle.access_handshake.specs.declared.access.Access.{Access};
ghost use Rattle.access_handshake.specs.declared.stage.Stage.TheVariants.{Accessed};
ghost use Rattle.access_handshake.specs.Access.{access_chain};
ghost use Rattle.unit_segments.specs.Limit.{most_chain_bytes};
ghost use Rattle.unit_segments.specs.Spelling.{chain_bytes, numbered};
ghost use Rattle.unit_segments.specs.Release.{asked, asked_bytes};
ghost use Rattle.unit_segments.specs.Registers.{Register, log_chain, log_bytes};
ghost use Rattle.unit_segments.specs.Handshake.{access_commands};
ghost use Rattle.unit_segments.specs.Written.{commands_from, AreWritable, IsReadAs, SpellChains};

/// The segments of a chain, in order, are its commands; each is a command alone or a run that ends with its unit of work
/// at most; and none could be longer.
pub fn segments_are_the_chain()
    ensures { (commands : List Command) → AreSegments commands (segments_of commands) }
{}

/// No other segments of a chain are such.
pub fn segments_are_one_list()
    ensures { (commands : List Command) (segments : List (List Command)) → AreSegments commands segments
        → segments ≡ segments_of commands }
{}

/// A command's body is read without a fault exactly where it is sound.
pub fn sound_bodies_are_read()
    ensures sound { (body : List ℕ) → IsSound body → body_fault body ≡ None }
    ensures only { (body : List ℕ) → AreBytes body → body_fault body ≡ None → IsSound body }
{}

/// The fault that is read of a command's body is its first one.
pub fn body_fault_is_the_first()
    ensures found { (body : List ℕ) (fault : BodyFault) → AreBytes body → IsBodyFault fault body → body_fault body ≡ Some fault }
    ensures only { (body : List ℕ) (fault : BodyFault) → AreBytes body → body_fault body ≡ Some fault → IsBodyFault fault body }
{}

/// What is read of DSSs without a fault are chains, and then a rest that doesn't begin with a whole one.
pub fn read_are_chains()
    ensures { (placed : List Placed) → AllByRecursion (λ p. AreBytes p.dss.body) placed → (chains_of placed).fault ≡ None
        → (rest : List Placed) × AreChains (chains_of placed).chains rest placed }
{}

/// Chains are read as these chains, and what follows them is read as if it stood alone. Of DSSs that begin with chains no
/// others are read, whatever the rest is.
pub fn chains_are_read()
    ensures behind { (chains : List Chained) (rest placed : List Placed) → Begins chains rest placed
        → chains_of placed ≡ record {
          chains = map (λ chain. chain.commands) chains ++ (chains_of rest).chains;
          begun = (chains_of rest).begun;
          fault = (chains_of rest).fault;
        } }
    ensures all { (commands : List (List Command)) (rest placed : List Placed) → AllByRecursion (λ p. AreBytes p.dss.body) placed
        → AreChains commands rest placed → (chains_of placed).chains ≡ commands }
{}

/// The fault that is told of DSSs is their first one.
pub fn told_fault_is_the_first()
    ensures found { (placed : List Placed) (fault : ChainFault) → AllByRecursion (λ p. AreBytes p.dss.body) placed
        → IsBadChain placed fault → (chains_of placed).fault ≡ Some fault }
    ensures only { (placed : List Placed) (fault : ChainFault) → AllByRecursion (λ p. AreBytes p.dss.body) placed
        → (chains_of placed).fault ≡ Some fault → IsBadChain placed fault }
{}

/// No chain begins another: DSSs are one list of chains at most, and what follows them is one rest.
pub fn chains_are_one_list()
    ensures chain { (commands others : List Command) (a b x y : List Placed) → IsChain commands a → IsChain others b
        → a ++ x ≡ b ++ y → (a ≡ b) × (commands ≡ others) }
    ensures list { (commands others : List (List Command)) (rest other placed : List Placed) → AreChains commands rest placed
        → AreChains others other placed → (commands ≡ others) × (rest ≡ other) }
{}

/// Bytes are one list of chains at most, however their DSSs are cut into segments. What is read of bytes without a fault is
/// this list.
pub fn bytes_are_one_list()
    ensures one { (commands others : List (List Command)) (bytes : List ℕ) → SpellChains commands bytes
        → SpellChains others bytes → commands ≡ others }
    ensures read { (limit : ℕ) (bytes : List ℕ) → AreBytes bytes → (read Requests limit bytes).fault ≡ None
        → AllByRecursion (λ p. AreBytes p.dss.body) (read Requests limit bytes).whole
        → (chains_of (read Requests limit bytes).whole).fault ≡ None
        → SpellChains (chains_of (read Requests limit bytes).whole).chains bytes }
{}

/// A chain of commands that is written is read again as these commands, each with the place of its request.
pub fn written_chain_is_read()
    ensures { (limit : ℕ) (commands : List Command) → AreWritable commands → AreBytes (chain_bytes commands)
        → length (chain_bytes commands) ≤ limit → IsReadAs limit (commands_from 0 commands) (chain_bytes commands) }
{}

/// The commands of a chain that was read can be written again, and so can those of each of its segments.
pub fn chains_can_be_written()
    ensures chain { (commands : List Command) (placed : List Placed) → AllByRecursion (λ p. p.dss.corr < 2 ^ 16) placed
        → IsChain commands placed → AreWritable commands }
    ensures segments { (commands : List Command) (segments : List (List Command)) → AreWritable commands
        → AreSegments commands segments → AllByRecursion AreWritable segments }
{}

/// What a member is sent of a segment, with the asking for release, is read there as these commands.
pub fn asked_segment_is_read()
    ensures { (limit : ℕ) (segment : List Command) → AreWritable segment
        → AllByRecursion (λ command. length command.body ≤ most_chain_bytes) segment
        → AreBytes (asked_bytes segment) → length (asked_bytes segment) ≤ limit
        → IsReadAs limit (commands_from 0 (numbered 1 (map asked segment))) (asked_bytes segment) }
{}

/// The chain that asks for access is read as ACCSEC, SECCHK and ACCRDB.
pub fn access_chain_is_read()
    ensures { (limit : ℕ) (access : Access) (name : List ℕ) → length name ≤ 18
        → code_of access.secchk ≡ secchk → IsSound access.secchk → code_of access.accrdb ≡ accrdb → IsSound access.accrdb
        → AreBytes (access_chain access name) → length (access_chain access name) ≤ limit
        → IsReadAs limit (commands_from 0 (numbered 1 (access_commands name Accessed access))) (access_chain access name) }
{}

/// The chain of the registers is read as one EXCSQLSET.
pub fn register_chain_is_read()
    ensures { (limit : ℕ) (register : Register) (log : List Register) → AreBytes (log_bytes (register ∷ log))
        → length (log_bytes (register ∷ log)) ≤ limit
        → IsReadAs limit (commands_from 0 (log_chain (register ∷ log))) (log_bytes (register ∷ log)) }
{}
