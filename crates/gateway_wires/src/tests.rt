use super::*;
use group_store::Store;
use hex_lines::read_hex;
use link_ends::{NoMemory, Octets};
use server_list::ServerList;
use std::alloc::Global;
use std::test::Fail;

// ---- rounds

// A round is a line of four fields, parted by `|`: what happens, or what is asked for; the number of a transport or of a member; a
// member, or how many bytes; and bytes, as a name or in digits: those that are sent, or what is answered. Yes is 01, and a number has
// one byte.

/// Bytes by their names, in hexadecimal digits: EXCSAT in two parts, and what it is answered, also without its first four bytes.
const NAMES: &str = "\
HELLO 0022D0010001001C1041
LEVELS_ASKED 001814041403000724070007240F00071440000714740005
LEVELS 0022D0030001001C1443001814041403000724070007240F00071440000714740005
LEVELS_LEFT 0001001C1443001814041403000724070007240F00071440000714740005";

/// The digits with this name, or else the word itself.
fn digits_of(word: &str) -> &str {
    for line in NAMES.lines() {
        if let Some((name, digits)) = line.split_once(' ') {
            if name == word {
                return digits;
            }
        }
    }
    word
}

/// The bytes with this name, or those that its digits spell; none of an empty word.
fn bytes(alloc: Global, word: &str) -> Result<Octets, NoMemory> {
    match read_hex(alloc, digits_of(word).as_bytes())? {
        Some(bytes) => Ok(bytes),
        None => Ok(Octets::new(alloc)),
    }
}

/// The field before the first `|` of a line, and what stands behind it.
fn field(line: &str) -> (&str, &str) {
    match line.split_once('|') {
        Some(fields) => fields,
        None => (line, ""),
    }
}

/// The number that a word tells, 0 where it tells none.
fn number_of(word: &str) -> u32 {
    word.parse::<u32>().unwrap_or(0)
}

/// A number as one byte, the greatest one where it has more.
fn byte_of(number: u64) -> u8 {
    u8::try_from(number).unwrap_or(u8::MAX)
}

/// A group, and the transports to its members.
#[derive(Drop)]
struct Scene {
    alloc: Global,
    group: Store,
    wires: Wires<Store>,
}

fn nothing_dialled(alloc: Global) -> Result<Scene, NoMemory> {
    Ok(Scene {
        alloc,
        group: Store::new(alloc),
        wires: Wires::new(alloc)?,
    })
}

impl Scene {
    // ---- what happens

    fn dial(&mut self, number: u64, member: u32) -> Result<(), NoMemory> {
        if 1 <= member && member <= 32 && !self.wires.is_down(member) {
            self.wires
                .dial(number, member, &ServerList::new(), &self.group)
        } else {
            Ok(())
        }
    }

    fn act(&mut self, number: u64, count: usize) -> Result<(), NoMemory> {
        if self.wires.is_dropped(number) {
            return Ok(());
        }
        let count = count.min(self.wires.flying(number));
        self.wires.act(number, count, &mut self.group)
    }

    fn read(&mut self, number: u64, count: usize) {
        let count = count.min(self.wires.coming(number).len());
        self.wires.count_read(number, count);
    }

    fn comes(&mut self, member: u32, up: bool) {
        if 1 <= member && member <= 32 {
            if up {
                self.wires.up(member);
            } else {
                self.wires.down(member);
            }
        }
    }

    fn happens(
        &mut self,
        word: &str,
        number: u32,
        count: u32,
        piece: &[u8],
    ) -> Result<(), NoMemory> {
        let transport = u64::from(number);
        match word {
            "dial" => self.dial(transport, count),
            "send" => self.wires.send(transport, piece),
            "act" => self.act(transport, count as usize),
            _ => {
                match word {
                    "read" => self.read(transport, count as usize),
                    "drop" => self.wires.drop_line(transport),
                    _ => self.comes(number, word == "up"),
                }
                Ok(())
            }
        }
    }

    // ---- what is asked for

    fn wire(&self, number: u64, to: bool) -> &[u8] {
        match self.wires.wire(number) {
            Some(wire) if to => wire.to.as_slice(),
            Some(wire) => wire.from.as_slice(),
            None => &[],
        }
    }

    fn count(&self, word: &str, number: u32) -> u8 {
        let transport = u64::from(number);
        match word {
            "flying" => byte_of(self.wires.flying(transport) as u64),
            "first" => byte_of(self.wires.first_flying().unwrap_or(0)),
            "is_down" => u8::from(self.wires.is_down(number)),
            "is_dropped" => u8::from(self.wires.is_dropped(transport)),
            _ => u8::from(self.wires.stands(transport)),
        }
    }

    fn codes(&self, number: u64) -> Result<Octets, NoMemory> {
        let mut codes = Octets::new(self.alloc);
        for code in self.wires.ran(number) {
            codes.push_all(&code.to_be_bytes())?;
        }
        Ok(codes)
    }

    fn seen(&self, word: &str, number: u32) -> Result<Octets, NoMemory> {
        let transport = u64::from(number);
        match word {
            "coming" => Octets::of(self.alloc, self.wires.coming(transport)),
            "to" | "from" => Octets::of(self.alloc, self.wire(transport, word == "to")),
            "ran" => self.codes(transport),
            _ => Octets::of(self.alloc, &[self.count(word, number)]),
        }
    }
}

/// Whether something is done.
fn is_done(word: &str) -> bool {
    matches!(
        word,
        "dial" | "send" | "act" | "read" | "drop" | "down" | "up"
    )
}

/// Whether a round is answered as it says.
fn holds(scene: &mut Scene, round: &str) -> Result<bool, NoMemory> {
    let (word, rest) = field(round);
    let (number, rest) = field(rest);
    let (count, rest) = field(rest);
    let bytes = bytes(scene.alloc, rest)?;
    if is_done(word) {
        scene.happens(word, number_of(number), number_of(count), bytes.as_slice())?;
        return Ok(true);
    }
    let seen = scene.seen(word, number_of(number))?;
    Ok(seen.as_slice() == bytes.as_slice())
}

/// The number, from 1, of the first of these rounds that isn't answered as it says; 0 where there is none.
fn refuted(scene: &mut Scene, rounds: &str) -> Result<u32, NoMemory> {
    let mut number: u32 = 0;
    for round in rounds.lines() {
        number = number.saturating_add(1);
        if !holds(scene, round)? {
            return Ok(number);
        }
    }
    Ok(0)
}

// ---- bytes

const THERE_AND_BACK: &str = "\
stands|1||00
flying|1||00
coming|1||
first|||00
dial|1|2|
stands|1||01
is_dropped|1||00
send|1||HELLO
flying|1||0A
first|||01
act|1|3|
flying|1||07
coming|1||
send|1||LEVELS_ASKED
act|1|30|
ran|1||
act|1|1|
ran|1||1041
first|||00
coming|1||LEVELS
read|1|4|
coming|1||LEVELS_LEFT
from|1||LEVELS
to|1||0022D0010001001C1041001814041403000724070007240F00071440000714740005
to|2||";

#[test]
fn bytes_go_there_and_back(rt: HostRuntime) -> Result<(), Fail> {
    let mut scene = nothing_dialled(rt.alloc())?;
    assert_eq!(rt; refuted(&mut scene, THERE_AND_BACK)?, 0);
    Ok(())
}

// ---- members

const DOWN_AND_UP: &str = "\
dial|5|1|
dial|3|2|
send|5||HELLO
send|5||LEVELS_ASKED
act|5|34|
send|5||HELLO
send|3||HELLO
first|||03
drop|3||
is_dropped|3||01
first|||05
is_down|1||00
down|1||
is_down|1||01
dial|6|1|
stands|6||00
is_down|33||00
is_dropped|5||01
stands|5||00
first|||00
coming|5||LEVELS
send|5||00
flying|5||0B
first|||00
up|1||
is_down|1||00
stands|5||00
dial|4|1|
stands|4||01
send|4||00
first|||04";

#[test]
fn members_go_down_and_come_up(rt: HostRuntime) -> Result<(), Fail> {
    let mut scene = nothing_dialled(rt.alloc())?;
    assert_eq!(rt; refuted(&mut scene, DOWN_AND_UP)?, 0);
    Ok(())
}
