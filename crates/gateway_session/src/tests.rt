use self::words::{are_said, field};
use self::world::{World, go_through, new_world};
use hex_lines::is_skipped;
use std::alloc::Global;
use std::test::Fail;

mod ends;
mod told;
mod words;
mod world;

// A row is a line of three fields, parted by `|`: what is done, in steps that are parted by `;`; what both applications were said; and
// what was told. What is said is words, which are names of bytes, or bytes in digits; so is a step that an application sends.
//
// Want of memory stops nothing: something is then missing of what is said or told, so that the row doesn't come to what it says.

/// Whether a row comes to what it says, where so many bytes move at one time.
fn holds(alloc: Global, most: usize, row: &str) -> bool {
    match new_world(alloc) {
        Ok(mut world) => plays(alloc, &mut world, most, row),
        Err(_) => false,
    }
}

fn plays(alloc: Global, world: &mut World, most: usize, row: &str) -> bool {
    let (steps, end) = field(row);
    let (words, told) = field(end);
    go_through(world, most, steps);
    world.log.text.as_slice() == told.as_bytes()
        && are_said(
            alloc,
            world.app.said.as_slice(),
            world.other.said.as_slice(),
            words,
        )
}

/// The number, from 1, of the first of these lines whose row doesn't come to what it says; 0 where there is none.
fn refuted(alloc: Global, most: usize, rows: &str) -> u32 {
    let mut number: u32 = 0;
    for row in rows.lines() {
        number = number.saturating_add(1);
        if !is_skipped(row.as_bytes()) && !holds(alloc, most, row) {
            return number;
        }
    }
    0
}

const ROWS: &str = "\
# RDBCMM before access, EXCSAT with SQLAM at level 6, a command that isn't known, and one that says that the chain goes on
COMMIT;0012D0010001000C10410008140424070006;000AD04100010004FFFF000AD001000200041041;000AD06100010004FFFF000AD001000200041041;go|\
0010D0020001000A1245000611490008 0018D0020001001212100006114900080008140424070007 0016D0020001001012500006114900080006000CFFFF \
0016D0420001001012500006114900080006000CFFFF 0027D003000200211443000A1147C4D9C4C1C7E6000B116DC7C1E3C5E6C1E80008115AC7E6F0F1|\
, open (), commits 0
# another password, and another database
HELLO;WRONG;RDB;go|GREETED 0015D0020001000F1219000611490008000511A40F|\
, lend 1 dial 1 1, run 1 EXCSAT ACCSEC SECCHK, give 1 1, open (), commits 0
HELLO;SECCHK;go;OTHER;go|GREETED 0015D0020001000F1219000611490000000511A400 0026D00200010020221100061149000800162110D6E3C8C5D940404040404040404040404040|\
, lend 1 dial 1 1, run 1 EXCSAT ACCSEC SECCHK, open (ALICE), commits 0
# a list of members, which the application isn't told
list;START;go|STARTED|\
, lend 1 dial 1 1, run 1 EXCSAT ACCSEC SECCHK ACCRDB, learn 1, open (ALICE), commits 0
# no member
alone;down;START;go|GREETED 0010D0020001000A1232000611490010|\
, lend 1 dial 1 1, lost 1 1 Dial, lend 1 none, error 1 NoAccess, no member (), commits 0
# a unit of work is committed
START;insert (1, 'A');COMMIT;go|STARTED DONE ENDED DONE|\
, lend 1 dial 1 1, run 1 EXCSAT ACCSEC SECCHK ACCRDB EXCSQLIMM RDBCMM, Committed, give 1 1, open (ALICE), ALICE 1 A, commits 1
# the second unit of a chain is lost, and runs again
START;go;UNITS;to give;to send;to back;to send;to back;cut;COMMIT;go|\
STARTED 000BD043000100052408FF 0015D0520002000F220C0006114900040005211501 000BD043000200052408FF 000BD003000300052408FF ENDED DONE|\
, lend 1 dial 1 1, run 1 EXCSAT ACCSEC SECCHK ACCRDB EXCSQLIMM RDBCMM, Committed, give 1 1, lend 1 idle 1, run 1 ACCSEC SECCHK ACCRDB, lost 1 1 Cut, \
run 1 EXCSQLIMM, lend 1 dial 1 2, run 2 EXCSAT ACCSEC SECCHK ACCRDB EXCSQLIMM RDBCMM, Committed, give 1 2, open (ALICE), ALICE 1 A, ALICE 2 B, commits 2
# two applications on one transport: each keeps the registers that it set
START;schema 'S1';insert (1, 'A');COMMIT;go;other;HELLO;BOB;RDB;schema 'S2';insert (1, 'B');COMMIT;go;other;insert (2, 'C');COMMIT;go;other;insert (2, 'D');\
COMMIT;go|\
STARTED DONE DONE ENDED DONE DONE ENDED DONE GREETED ADMITTED DONE DONE ENDED DONE DONE ENDED DONE|\
, lend 1 dial 1 1, run 1 EXCSAT ACCSEC SECCHK ACCRDB EXCSQLSET EXCSQLIMM RDBCMM, Committed, give 1 1, lend 2 idle 1, \
run 1 ACCSEC SECCHK ACCRDB EXCSQLSET EXCSQLIMM RDBCMM, Committed, give 2 1, lend 1 idle 1, run 1 ACCSEC SECCHK ACCRDB EXCSQLSET EXCSQLIMM RDBCMM, \
Committed, give 1 1, lend 2 idle 1, run 1 ACCSEC SECCHK ACCRDB EXCSQLSET EXCSQLIMM RDBCMM, Committed, give 2 1, open (BOB), S1 1 A, S1 2 C, S2 1 B, S2 2 D, \
commits 4
# the application ends
START;insert (1, 'A');go;leave|STARTED DONE|\
, lend 1 dial 1 1, run 1 EXCSAT ACCSEC SECCHK ACCRDB EXCSQLIMM, lost 1 1 Left, ended (ALICE), commits 0
# nothing but SETs was answered in the unit that is lost, or something else was
START;schema 'S9';go;cut;insert (1, 'A');go;insert (2, 'B');COMMIT;go|STARTED DONE DONE DONE ENDED DONE|\
, lend 1 dial 1 1, run 1 EXCSAT ACCSEC SECCHK ACCRDB EXCSQLSET, lost 1 1 Cut, lend 1 dial 1 2, \
run 2 EXCSAT ACCSEC SECCHK ACCRDB EXCSQLSET EXCSQLIMM EXCSQLIMM RDBCMM, Committed, give 1 2, open (ALICE), S9 1 A, S9 2 B, commits 1
START;schema 'S9';insert (1, 'A');go;cut;insert (2, 'B');go;insert (3, 'C');COMMIT;go|STARTED DONE DONE ABNUOWRM REROUTED DONE ENDED DONE|\
, lend 1 dial 1 1, run 1 EXCSAT ACCSEC SECCHK ACCRDB EXCSQLSET EXCSQLIMM, lost 1 1 Cut, lend 1 dial 1 2, run 2 EXCSAT ACCSEC SECCHK ACCRDB, Rerouted, \
error 1 Rerouted, run 2 EXCSQLIMM RDBCMM, Committed, give 1 2, open (ALICE), ALICE 3 C, commits 1
START;set X;go;cut;insert (1, 'A');go|STARTED REFUSED ABNUOWRM REROUTED|\
, lend 1 dial 1 1, run 1 EXCSAT ACCSEC SECCHK ACCRDB EXCSQLSET, lost 1 1 Cut, lend 1 dial 1 2, run 2 EXCSAT ACCSEC SECCHK ACCRDB, Rerouted, \
error 1 Rerouted, open (ALICE), commits 0
START;CURSOR;COMMIT;go;cut;insert (1, 'A');go|STARTED DONE OPENED ENDED DONE ABNUOWRM REROUTED|\
, lend 1 dial 1 1, run 1 EXCSAT ACCSEC SECCHK ACCRDB PRPSQLSTT OPNQRY RDBCMM, Committed, lost 1 1 Cut, lend 1 dial 1 2, run 2 EXCSAT ACCSEC SECCHK ACCRDB, \
Rerouted, error 1 Rerouted, open (ALICE), commits 1
# a commit is lost before its answer came: its member runs it at once, or later, or never gets it whole
START;insert (1, 'A');go;COMMIT;to back;act;cut;go|STARTED DONE ABNUOWRM UNKNOWN|\
, lend 1 dial 1 1, run 1 EXCSAT ACCSEC SECCHK ACCRDB EXCSQLIMM RDBCMM, lost 1 1 Cut, lend 1 dial 1 2, run 2 EXCSAT ACCSEC SECCHK ACCRDB, Unknown, \
error 1 ReroutedUnknown, open (ALICE), ALICE 1 A, commits 1
START;insert (1, 'A');go;COMMIT;to back;cut;go|STARTED DONE ABNUOWRM UNKNOWN|\
, lend 1 dial 1 1, run 1 EXCSAT ACCSEC SECCHK ACCRDB EXCSQLIMM, lost 1 1 Cut, run 1 RDBCMM, lend 1 dial 1 2, run 2 EXCSAT ACCSEC SECCHK ACCRDB, Unknown, \
error 1 ReroutedUnknown, open (ALICE), ALICE 1 A, commits 1
START;insert (1, 'A');go;COMMIT;to send;byte;cut;go|STARTED DONE ABNUOWRM UNKNOWN|\
, lend 1 dial 1 1, run 1 EXCSAT ACCSEC SECCHK ACCRDB EXCSQLIMM, lost 1 1 Cut, lend 1 dial 1 2, run 2 EXCSAT ACCSEC SECCHK ACCRDB, Unknown, \
error 1 ReroutedUnknown, open (ALICE), commits 0
# the one member is lost twice in one segment
START;alone;go;insert (1, 'A');to send;cut;to dial;to send;cut;go|STARTED ABNUOWRM NOWHERE|\
, lend 1 dial 1 1, run 1 EXCSAT ACCSEC SECCHK ACCRDB, lost 1 1 Cut, lend 1 dial 1 2, lost 1 2 Cut, lend 1 none, Rerouted, error 1 Ended, no member (ALICE), \
commits 0
# the transport that was given back is lost, and both members are down
START;insert (1, 'A');COMMIT;go;down;insert (2, 'B');go|STARTED DONE ENDED DONE ABNUOWRM NOWHERE|\
, lend 1 dial 1 1, run 1 EXCSAT ACCSEC SECCHK ACCRDB EXCSQLIMM RDBCMM, Committed, give 1 1, lend 1 idle 1, lost 1 1 Fault, lend 1 dial 1 2, lost 1 2 Dial, \
lend 1 dial 2 3, lost 1 3 Dial, lend 1 none, Rerouted, error 1 Ended, no member (ALICE), ALICE 1 A, commits 1
# the link gives nothing more in place of the answer
START;alone;go;insert (1, 'A');to back;down;go|STARTED ABNUOWRM NOWHERE|\
, lend 1 dial 1 1, run 1 EXCSAT ACCSEC SECCHK ACCRDB, lost 1 1 Ended, lend 1 dial 1 2, lost 1 2 Dial, lend 1 none, Rerouted, error 1 Ended, \
no member (ALICE), commits 0
# as many registers as a session keeps, and one more
START;set R1 = 'A';set R2 = 'A';set R3 = 'A';set R4 = 'A';set R5 = 'A';set R6 = 'A';set R7 = 'A';set R8 = 'A';set R9 = 'A';set R10 = 'A';set R11 = 'A';\
set R12 = 'A';set R13 = 'A';set R14 = 'A';set R15 = 'A';set R16 = 'A';set R17 = 'A';set R18 = 'A';set R19 = 'A';set R20 = 'A';set R21 = 'A';set R22 = 'A';\
set R23 = 'A';set R24 = 'A';set R25 = 'A';set R26 = 'A';set R27 = 'A';set R28 = 'A';set R29 = 'A';set R30 = 'A';set R31 = 'A';set R32 = 'A';set R33 = 'A';\
set R34 = 'A';set R35 = 'A';set R36 = 'A';set R37 = 'A';set R38 = 'A';set R39 = 'A';set R40 = 'A';set R41 = 'A';set R42 = 'A';set R43 = 'A';set R44 = 'A';\
set R45 = 'A';set R46 = 'A';set R47 = 'A';set R48 = 'A';set R49 = 'A';set R50 = 'A';set R51 = 'A';set R52 = 'A';set R53 = 'A';set R54 = 'A';set R55 = 'A';\
set R56 = 'A';set R57 = 'A';set R58 = 'A';set R59 = 'A';set R60 = 'A';set R61 = 'A';set R62 = 'A';set R63 = 'A';set R64 = 'A';COMMIT;go|\
STARTED FOUR FOUR FOUR FOUR FOUR FOUR FOUR FOUR FOUR FOUR FOUR FOUR FOUR FOUR FOUR FOUR ENDED DONE|\
, lend 1 dial 1 1, run 1 EXCSAT ACCSEC SECCHK ACCRDB EXCSQLSET EXCSQLSET EXCSQLSET EXCSQLSET EXCSQLSET EXCSQLSET EXCSQLSET EXCSQLSET EXCSQLSET EXCSQLSET \
EXCSQLSET EXCSQLSET EXCSQLSET EXCSQLSET EXCSQLSET EXCSQLSET EXCSQLSET EXCSQLSET EXCSQLSET EXCSQLSET EXCSQLSET EXCSQLSET EXCSQLSET EXCSQLSET EXCSQLSET \
EXCSQLSET EXCSQLSET EXCSQLSET EXCSQLSET EXCSQLSET EXCSQLSET EXCSQLSET EXCSQLSET EXCSQLSET EXCSQLSET EXCSQLSET EXCSQLSET EXCSQLSET EXCSQLSET EXCSQLSET \
EXCSQLSET EXCSQLSET EXCSQLSET EXCSQLSET EXCSQLSET EXCSQLSET EXCSQLSET EXCSQLSET EXCSQLSET EXCSQLSET EXCSQLSET EXCSQLSET EXCSQLSET EXCSQLSET EXCSQLSET \
EXCSQLSET EXCSQLSET EXCSQLSET EXCSQLSET EXCSQLSET EXCSQLSET EXCSQLSET EXCSQLSET EXCSQLSET RDBCMM, Committed, give 1 1, open (ALICE), commits 1
START;set R1 = 'A';set R2 = 'A';set R3 = 'A';set R4 = 'A';set R5 = 'A';set R6 = 'A';set R7 = 'A';set R8 = 'A';set R9 = 'A';set R10 = 'A';set R11 = 'A';\
set R12 = 'A';set R13 = 'A';set R14 = 'A';set R15 = 'A';set R16 = 'A';set R17 = 'A';set R18 = 'A';set R19 = 'A';set R20 = 'A';set R21 = 'A';set R22 = 'A';\
set R23 = 'A';set R24 = 'A';set R25 = 'A';set R26 = 'A';set R27 = 'A';set R28 = 'A';set R29 = 'A';set R30 = 'A';set R31 = 'A';set R32 = 'A';set R33 = 'A';\
set R34 = 'A';set R35 = 'A';set R36 = 'A';set R37 = 'A';set R38 = 'A';set R39 = 'A';set R40 = 'A';set R41 = 'A';set R42 = 'A';set R43 = 'A';set R44 = 'A';\
set R45 = 'A';set R46 = 'A';set R47 = 'A';set R48 = 'A';set R49 = 'A';set R50 = 'A';set R51 = 'A';set R52 = 'A';set R53 = 'A';set R54 = 'A';set R55 = 'A';\
set R56 = 'A';set R57 = 'A';set R58 = 'A';set R59 = 'A';set R60 = 'A';set R61 = 'A';set R62 = 'A';set R63 = 'A';set R64 = 'A';set R65 = 'A';COMMIT;go|\
STARTED FOUR FOUR FOUR FOUR FOUR FOUR FOUR FOUR FOUR FOUR FOUR FOUR FOUR FOUR FOUR FOUR DONE ENDED DONE LIMIT|\
, lend 1 dial 1 1, run 1 EXCSAT ACCSEC SECCHK ACCRDB EXCSQLSET EXCSQLSET EXCSQLSET EXCSQLSET EXCSQLSET EXCSQLSET EXCSQLSET EXCSQLSET EXCSQLSET EXCSQLSET \
EXCSQLSET EXCSQLSET EXCSQLSET EXCSQLSET EXCSQLSET EXCSQLSET EXCSQLSET EXCSQLSET EXCSQLSET EXCSQLSET EXCSQLSET EXCSQLSET EXCSQLSET EXCSQLSET EXCSQLSET \
EXCSQLSET EXCSQLSET EXCSQLSET EXCSQLSET EXCSQLSET EXCSQLSET EXCSQLSET EXCSQLSET EXCSQLSET EXCSQLSET EXCSQLSET EXCSQLSET EXCSQLSET EXCSQLSET EXCSQLSET \
EXCSQLSET EXCSQLSET EXCSQLSET EXCSQLSET EXCSQLSET EXCSQLSET EXCSQLSET EXCSQLSET EXCSQLSET EXCSQLSET EXCSQLSET EXCSQLSET EXCSQLSET EXCSQLSET EXCSQLSET \
EXCSQLSET EXCSQLSET EXCSQLSET EXCSQLSET EXCSQLSET EXCSQLSET EXCSQLSET EXCSQLSET EXCSQLSET EXCSQLSET RDBCMM, Committed, error 1 Limit, lost 1 1 Left, \
registers (ALICE), commits 1";

#[test]
fn conversations_go_as_told(rt: HostRuntime) -> Result<(), Fail> {
    assert_eq!(rt; refuted(rt.alloc(), 65_536, ROWS), 0);
    Ok(())
}

#[test]
fn pieces_make_no_difference(rt: HostRuntime) -> Result<(), Fail> {
    assert_eq!(rt; refuted(rt.alloc(), 1, ROWS), 0);
    Ok(())
}
