use super::*;
use std::test::Fail;

#[test]
fn lines_are_cut_at_single_spaces(rt: HostRuntime) {
    let line = b"list2 1  7=2".as_slice();
    assert_eq!(rt; count_words(line), 4);
    assert!(rt; first_word(line) == b"list2".as_slice());
    assert!(rt; second_word(line) == b"1".as_slice());
    assert!(rt; third_word(line).is_empty());
    assert!(rt; fourth_word(line) == b"7=2".as_slice());
}

#[test]
fn lines_go_on_behind_their_words(rt: HostRuntime) {
    let line = b"list2 1  7=2".as_slice();
    assert!(rt; behind_first(line) == b"1  7=2".as_slice());
    assert!(rt; behind_second(line) == b" 7=2".as_slice());
    assert!(rt; behind_third(line) == b"7=2".as_slice());
    assert_eq!(rt; count_words(b"commit 1 "), 3);
    assert!(rt; fourth_word(b"commit 1 ").is_empty());
    assert_eq!(rt; SPACE, b' ');
}

#[test]
fn numbers_are_plain_decimals(rt: HostRuntime) {
    assert_eq!(rt; read_number(b"0"), Some(0));
    assert_eq!(rt; read_number(b"18446744073709551615"), Some(u64::MAX));
    for word in ["18446744073709551616", "01", "", "1a", "-1"] {
        assert!(rt; read_number(word.as_bytes()).is_none(), "{word}");
    }
    assert_eq!(rt; read_within(b"64", 1, 64), Some(64));
    assert_eq!(rt; read_within(b"65", 1, 64), None);
    assert_eq!(rt; read_within(b"0", 1, 64), None);
}

#[test]
fn fields_are_judged(rt: HostRuntime) {
    assert!(rt; is_printable(b" ~"));
    assert!(rt; !is_printable(b"a\tb"));
    assert!(rt; is_name(b"A1B2C3D4"));
    assert!(rt; !is_name(b"A1B2C3D4E"));
    assert!(rt; !is_name(b"a"));
    assert!(rt; read_text(b"SET R1 = 'x'").is_some());
    assert!(rt; read_text(b"").is_none());
    assert!(rt; read_text(b"A#").is_none());
}

/// First words, and which of 2, 3, 4 and 5 words their lines may have.
const COUNTS: &str = "\
rdb 2
cap 2
member 3
list 2345
list2 45
user 3
row 4
app 23
start 4
sql+ 345
set 345
prepare 45
open 3
fetch+ 3
close 3
commit 2
rollback+ 2
take 3
act 3
drop 2
give 2
up 2
settle 2
app+ -
sql++ -
+ -
Rdb -";

/// Whether a line with this first word may have so many words.
fn may_have(word: &str, count: usize) -> bool {
    match read_keyword(word.as_bytes()) {
        Some(keyword) => fits_count(keyword, count),
        None => false,
    }
}

/// Whether a line with this first word may have as many words as this digit says, exactly where that is one of these.
fn agrees(word: &str, digits: &str, digit: u8) -> bool {
    let count = usize::from(digit.saturating_sub(b'0'));
    may_have(word, count) == digits.as_bytes().contains(&digit)
}

/// The same of 2, 3, 4 and 5 words.
fn agrees_with_all(line: &str) -> bool {
    match line.split_once(' ') {
        Some((word, digits)) => b"2345".iter().all(|digit| agrees(word, digits, *digit)),
        None => false,
    }
}

#[test]
fn first_words_have_so_many_words(rt: HostRuntime) {
    for line in COUNTS.lines() {
        assert!(rt; agrees_with_all(line), "{line}");
    }
}

/// First words of lines in their order. Behind `!` they may not stand there.
const ORDER: &str = "\
!cap
rdb
!rdb
!settle
cap
!list
member
member
list2
!list
list2
!member
user
row
!user
app
!row
sql";

/// How far a script is after a line with this first word.
fn after(stage: Stage, word: &str) -> Option<Stage> {
    stage_after(stage, read_keyword(word.as_bytes())?)
}

/// How far a script is after a line of the order, None where that isn't as it says.
fn after_row(stage: Stage, line: &str) -> Option<Stage> {
    match line.strip_prefix('!') {
        Some(word) => match after(stage, word) {
            Some(_) => None,
            None => Some(stage),
        },
        None => after(stage, line),
    }
}

#[test]
fn lines_stand_in_their_order(rt: HostRuntime) -> Result<(), Fail> {
    let mut stage = Stage::Start;
    for line in ORDER.lines() {
        stage = after_row(stage, line).ok_or("order")?;
    }
    assert!(rt; is_whole(stage));
    assert!(rt; !is_whole(Stage::AfterCap));
    Ok(())
}
