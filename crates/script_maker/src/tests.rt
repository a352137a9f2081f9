use super::*;
use link_ends::NoMemory;
use std::alloc::Global;
use std::test::Fail;

/// What is made of 7 for one application and one unit of work.
const SMALL: &str = "\
rdb SAMPLE
cap 2
member 1 1
member 2 1
user U1 P
start 1 U1 P
settle 100000
sql 1 INSERT INTO T VALUES (1, 'V19564')
settle 100000
commit 1
settle 100000
end 1
";

/// What is made of 0 for one application and two units of work: the first draw is divisible by 8.
const CUT: &str = "\
rdb SAMPLE
cap 2
member 1 1
member 2 1
user U1 P
start 1 U1 P
settle 100000
sql 1 INSERT INTO T VALUES (1, 'V0')
settle 100000
cut 1
commit 1
settle 100000
sql 1 INSERT INTO T VALUES (65, 'V21468')
settle 100000
commit 1
settle 100000
end 1
";

/// What is made of 1 for two applications and two units of work.
const LARGER: &str = "\
rdb SAMPLE
cap 2
member 1 1
member 2 1
user U1 P
user U2 P
start 1 U1 P
start 2 U2 P
settle 100000
sql 1 INSERT INTO T VALUES (1, 'V16838')
settle 100000
commit 1
settle 100000
sql 2 INSERT INTO T VALUES (2, 'V5758')
settle 100000
commit 2
settle 100000
sql 1 INSERT INTO T VALUES (65, 'V10113')
settle 100000
commit 1
settle 100000
sql 2 INSERT INTO T VALUES (66, 'V17515')
settle 100000
commit 2
settle 100000
end 1
end 2
";

#[test]
fn a_script_is_made(rt: HostRuntime) -> Result<(), Fail> {
    let text = make_script(rt.alloc(), 7, 1, 1)?;
    assert!(rt; text.as_slice() == SMALL.as_bytes());
    Ok(())
}

#[test]
fn transports_are_lost(rt: HostRuntime) -> Result<(), Fail> {
    let text = make_script(rt.alloc(), 0, 1, 2)?;
    assert!(rt; text.as_slice() == CUT.as_bytes());
    Ok(())
}

#[test]
fn applications_take_turns(rt: HostRuntime) -> Result<(), Fail> {
    let text = make_script(rt.alloc(), 1, 2, 2)?;
    assert!(rt; text.as_slice() == LARGER.as_bytes());
    Ok(())
}

/// Words, and whether they ask for a script.
const WORDS: &str = "\
make 7 1 1|yes
make 0 64 100|yes
make 2147483647 1 1|yes
make 2147483648 1 1|no
make 07 1 1|no
make 7 0 1|no
make 7 65 1|no
make 7 1 0|no
make 7 1 101|no
make 7 1|no
make 7 1 1 1|no
play 7 1 1|no
make 7 1 x|no";

/// The words that stand between single spaces.
fn words(alloc: Global, line: &str) -> Result<Vec<String>, NoMemory> {
    let mut words = Vec::new(alloc);
    for word in line.split(' ') {
        words.push(String::from_str(alloc, word)?)?;
    }
    Ok(words)
}

#[test]
fn words_ask_for_a_script(rt: HostRuntime) -> Result<(), Fail> {
    for row in WORDS.lines() {
        let asked = match row.split_once('|') {
            Some((line, told)) => read_asked(&words(rt.alloc(), line)?).is_some()
                == (told == "yes"),
            None => false,
        };
        assert!(rt; asked);
    }
    Ok(())
}
