ghost use Rattle.std.specs.Prelude.{◌≡◌};
ghost use Rattle.script_words.specs.Keyword.{header_word, command_word, move_word, step_word, lone_word};
ghost use Rattle.script_words.specs.Keyword.{header_keyword, event_word, chain_word, keyword_by_name, keyword_of};
ghost use Rattle.script_words.specs.Keyword.{fits_header, fits_command, fits_count};

/// What stands at the end of a command whose chain goes on.
const PLUS: &[u8] = b"+";

/// A line of the header.
#[derive(Clone, Copy)]
pub enum HeaderWord {
    Rdb,
    Cap,
    Member,
    List,
    NumberedList,
    User,
    Row,
}

/// A command. DDM, volume 3.
#[derive(Clone, Copy)]
pub enum CommandWord {
    Sql,
    Set,
    Prepare,
    Open,
    Fetch,
    Close,
    Commit,
    RollBack,
}

/// An event of an application that moves bytes.
#[derive(Clone, Copy)]
pub enum MoveWord {
    Take,
    Send,
    Back,
    Say,
}

/// Another event of an application.
#[derive(Clone, Copy)]
pub enum StepWord {
    End,
    Lend,
    Dial,
    Cut,
    Give,
}

/// What the first word of a line says.
#[derive(Clone, Copy)]
pub enum Keyword {
    Header(HeaderWord),
    /// A command, whose chain goes on or doesn't.
    Command(CommandWord, bool),
    App,
    Start,
    Move(MoveWord),
    Act,
    Drop,
    Step(StepWord),
    Down,
    Up,
    Settle,
}

/// The line of the header that is spelled so.
#[tactic(auto, unfolding(crate::specs::Keyword::header_word))]
fn header_word(word: &[u8]) -> Option<HeaderWord>
    ensures { result ≡ header_word word.now }
{
    if word == b"rdb".as_slice() {
        return Some(HeaderWord::Rdb);
    }
    if word == b"cap".as_slice() {
        return Some(HeaderWord::Cap);
    }
    if word == b"member".as_slice() {
        return Some(HeaderWord::Member);
    }
    if word == b"list".as_slice() {
        return Some(HeaderWord::List);
    }
    if word == b"list2".as_slice() {
        return Some(HeaderWord::NumberedList);
    }
    if word == b"user".as_slice() {
        return Some(HeaderWord::User);
    }
    if word == b"row".as_slice() {
        return Some(HeaderWord::Row);
    }
    None
}

/// The command that is spelled so.
#[tactic(auto, unfolding(crate::specs::Keyword::command_word))]
fn command_word(word: &[u8]) -> Option<CommandWord>
    ensures { result ≡ command_word word.now }
{
    if word == b"sql".as_slice() {
        return Some(CommandWord::Sql);
    }
    if word == b"set".as_slice() {
        return Some(CommandWord::Set);
    }
    if word == b"prepare".as_slice() {
        return Some(CommandWord::Prepare);
    }
    if word == b"open".as_slice() {
        return Some(CommandWord::Open);
    }
    if word == b"fetch".as_slice() {
        return Some(CommandWord::Fetch);
    }
    if word == b"close".as_slice() {
        return Some(CommandWord::Close);
    }
    if word == b"commit".as_slice() {
        return Some(CommandWord::Commit);
    }
    if word == b"rollback".as_slice() {
        return Some(CommandWord::RollBack);
    }
    None
}

/// The event that moves bytes and is spelled so.
#[tactic(auto, unfolding(crate::specs::Keyword::move_word))]
fn move_word(word: &[u8]) -> Option<MoveWord>
    ensures { result ≡ move_word word.now }
{
    if word == b"take".as_slice() {
        return Some(MoveWord::Take);
    }
    if word == b"send".as_slice() {
        return Some(MoveWord::Send);
    }
    if word == b"back".as_slice() {
        return Some(MoveWord::Back);
    }
    if word == b"say".as_slice() {
        return Some(MoveWord::Say);
    }
    None
}

/// The other event of an application that is spelled so.
#[tactic(auto, unfolding(crate::specs::Keyword::step_word))]
fn step_word(word: &[u8]) -> Option<StepWord>
    ensures { result ≡ step_word word.now }
{
    if word == b"end".as_slice() {
        return Some(StepWord::End);
    }
    if word == b"lend".as_slice() {
        return Some(StepWord::Lend);
    }
    if word == b"dial".as_slice() {
        return Some(StepWord::Dial);
    }
    if word == b"cut".as_slice() {
        return Some(StepWord::Cut);
    }
    if word == b"give".as_slice() {
        return Some(StepWord::Give);
    }
    None
}

/// The word that stands for itself and is spelled so.
#[tactic(auto, unfolding(crate::specs::Keyword::lone_word))]
fn lone_word(word: &[u8]) -> Option<Keyword>
    ensures { result ≡ lone_word word.now }
{
    if word == b"app".as_slice() {
        return Some(Keyword::App);
    }
    if word == b"start".as_slice() {
        return Some(Keyword::Start);
    }
    if word == b"act".as_slice() {
        return Some(Keyword::Act);
    }
    if word == b"drop".as_slice() {
        return Some(Keyword::Drop);
    }
    if word == b"down".as_slice() {
        return Some(Keyword::Down);
    }
    if word == b"up".as_slice() {
        return Some(Keyword::Up);
    }
    if word == b"settle".as_slice() {
        return Some(Keyword::Settle);
    }
    None
}

/// The line of the header that is spelled so, as a first word.
#[tactic(auto, unfolding(crate::specs::Keyword::header_keyword))]
fn header_keyword(word: &[u8]) -> Option<Keyword>
    ensures { result ≡ header_keyword word.now }
{
    Some(Keyword::Header(header_word(word)?))
}

/// The event of an application that is spelled so.
#[tactic(auto, unfolding(crate::specs::Keyword::event_word))]
fn event_word(word: &[u8]) -> Option<Keyword>
    ensures { result ≡ event_word word.now }
{
    match move_word(word) {
        Some(event) => Some(Keyword::Move(event)),
        None => Some(Keyword::Step(step_word(word)?)),
    }
}

/// The command that is spelled so, whose chain goes on or doesn't.
#[tactic(auto, unfolding(crate::specs::Keyword::chain_word))]
fn chain_word(goes_on: bool, word: &[u8]) -> Option<Keyword>
    ensures { result ≡ chain_word goes_on word.now }
{
    Some(Keyword::Command(command_word(word)?, goes_on))
}

/// What is spelled so, without a plus.
#[tactic(auto, unfolding(crate::specs::Keyword::keyword_by_name))]
fn keyword_by_name(word: &[u8]) -> Option<Keyword>
    ensures { result ≡ keyword_by_name word.now }
{
    header_keyword(word)
        .or(chain_word(false, word))
        .or(event_word(word))
        .or(lone_word(word))
}

/// What a first word says.
#[tactic(auto, unfolding(crate::specs::Keyword::keyword_of))]
pub fn read_keyword(word: &[u8]) -> Option<Keyword>
    ensures { result ≡ keyword_of word.now }
{
    match word.strip_suffix(PLUS) {
        Some(name) => chain_word(true, name),
        None => keyword_by_name(word),
    }
}

/// Whether a line of the header may have so many words.
#[tactic(auto, unfolding(crate::specs::Keyword::fits_header))]
fn fits_header(word: HeaderWord, count: usize) -> bool
    ensures { result ≡ fits_header word count }
{
    match word {
        HeaderWord::Rdb | HeaderWord::Cap => count == 2,
        HeaderWord::Member | HeaderWord::User => count == 3,
        HeaderWord::Row => count == 4,
        HeaderWord::List => 2 <= count,
        HeaderWord::NumberedList => 4 <= count,
    }
}

/// The same of a command.
#[tactic(auto, unfolding(crate::specs::Keyword::fits_command))]
fn fits_command(word: CommandWord, count: usize) -> bool
    ensures { result ≡ fits_command word count }
{
    match word {
        CommandWord::Sql | CommandWord::Set => 3 <= count,
        CommandWord::Prepare => 4 <= count,
        CommandWord::Open | CommandWord::Fetch | CommandWord::Close => count == 3,
        CommandWord::Commit | CommandWord::RollBack => count == 2,
    }
}

/// Whether a line with this first word may have so many words. Those of a text are as many as it has.
#[tactic(auto, unfolding(crate::specs::Keyword::fits_count))]
pub fn fits_count(keyword: Keyword, count: usize) -> bool
    ensures { result ≡ fits_count keyword count }
{
    match keyword {
        Keyword::Header(word) => fits_header(word, count),
        Keyword::Command(word, _) => fits_command(word, count),
        Keyword::App => count == 2 || count == 3,
        Keyword::Start => count == 4,
        Keyword::Move(_) | Keyword::Act => count == 3,
        Keyword::Drop | Keyword::Step(_) => count == 2,
        Keyword::Down | Keyword::Up | Keyword::Settle => count == 2,
    }
}
