ghost use Rattle.std.specs.Prelude.{◌≡◌, map, string_bytes, IfSome};
ghost use Rattle.script_maker.specs.Asked.{asked_of, IsWithin};

use script_words::read_within;

/// The greatest seed.
const MOST_SEED: u32 = 2_147_483_647;

/// The most applications.
const MOST_APPS: u32 = 64;

/// The most units of work of each.
const MOST_UNITS: u32 = 100;

/// What a script is to be made of.
#[derive(Clone, Copy, Debug, PartialEq, Eq)]
pub struct Asked {
    /// The number that all others are drawn from, 0 to 2,147,483,647.
    pub seed: u32,
    /// How many applications there are, 1 to 64.
    pub apps: u32,
    /// How many units of work each of them commits, 1 to 100.
    pub units: u32,
}

/// What the words ask for: `make`, a seed, a number of applications and a number of units of work, in plain decimal without leading
/// zeros. None where they are no such words.
pub fn read_asked(words: &[String]) -> Option<Asked>
    ensures asked { result ≡ asked_of (map string_bytes words.now) }
    ensures within { IfSome result (λ asked. IsWithin asked) }
{
    match words {
        [name, seed, apps, units] if name.as_str() == "make" => Some(Asked {
            seed: read_within(seed.as_bytes(), 0, MOST_SEED)?,
            apps: read_within(apps.as_bytes(), 1, MOST_APPS)?,
            units: read_within(units.as_bytes(), 1, MOST_UNITS)?,
        }),
        _ => None,
    }
}
